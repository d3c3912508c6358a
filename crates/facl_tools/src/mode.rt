//! Octal modes: chmod(1), umask(1).

ghost use Rattle.std.specs.List.{list_all};
ghost use Rattle.std.specs.Prelude.{◌≡◌, IsTrue};
ghost use Rattle.facl_tools.specs.Modes.{is_mode, mode_of, permission_mode_of, octal_after};
ghost use Rattle.acl_names.specs.Names.{is_octal};

/// Tells whether each byte is an octal digit.
fn are_octal_digits(bytes: &[u8]) -> bool
    ensures { result ≡ list_all (is_octal 7) bytes.now }
{
    bytes.iter().all(|b| b'0' <= *b && *b <= b'7')
}

/// Tells whether the text is one to four octal digits.
fn is_mode(text: &[u8]) -> bool
    ensures { result ≡ is_mode text.now }
{
    0 < text.len() && text.len() <= 4 && are_octal_digits(text)
}

/// Reads octal digits.
fn octal_number(digits: &[u8]) -> u16
    requires { IsTrue (is_mode digits.now) }
    ensures { result ≡ octal_after 0 digits.now }
{
    let mut mode = 0;
    let mut rest = digits;
    while let [digit, more @ ..] = rest {
        mode = 8 * mode + u16::from(*digit - b'0');
        rest = more;
    }
    mode
}

/// Reads a mode of one to four octal digits. `None` for any other text.
pub(crate) fn mode_of(text: &[u8]) -> Option<u16>
    ensures { result ≡ mode_of text.now }
{
    if is_mode(text) {
        Some(octal_number(text))
    } else {
        None
    }
}

/// Reads a mode of one to four octal digits that is at most 0777. `None` for any other text.
pub(crate) fn permission_mode_of(text: &[u8]) -> Option<u16>
    ensures { result ≡ permission_mode_of text.now }
{
    // Of four digits the first one is 0.
    if text.len() < 4 || text[0] == b'0' {
        mode_of(text)
    } else {
        None
    }
}
