//! How words are cut into flags, options and operands: getfacl(1)'s lines.
use crate::words_as_text::expect_lines;

static LINES: [(&str, &str); 38] = [
    ("getfacl f", ": f"),
    ("getfacl -a -c f g", "-a -c : f g"),
    ("getfacl -acesRn f", "-a -c -e -s -R -n : f"),
    ("getfacl --access --omit-header f", "-a -c : f"),
    ("getfacl --all-effective f", "-e : f"),
    ("getfacl --no-effective --skip-base f", "-E -s : f"),
    ("getfacl --recursive --numeric f", "-R -n : f"),
    // Flags that exclude each other.
    ("getfacl -eE f", "usage"),
    ("getfacl -e f --no-effective", "usage"),
    // Too few operands.
    ("getfacl", "usage"),
    ("getfacl -R", "usage"),
    // Flags between operands, and what follows `--`.
    ("getfacl f -a g", "-a : f g"),
    ("getfacl g f e", ": g f e"),
    ("getfacl f -- -a --", ": f -a --"),
    ("getfacl --", "usage"),
    // Given twice.
    ("getfacl -aa f", "usage"),
    ("getfacl -a --access f", "usage"),
    // No abbreviations, case matters, flags take no value.
    ("getfacl --acc f", "usage"),
    ("getfacl --Access f", "usage"),
    ("getfacl --access=f", "usage"),
    ("getfacl --access= f", "usage"),
    ("getfacl -a=f g", "usage"),
    ("getfacl -A f", "usage"),
    ("getfacl -z f", "usage"),
    ("getfacl --- f", "usage"),
    ("getfacl --=a f", "usage"),
    ("getfacl -é f", "usage"),
    ("getfacl -5", "usage"),
    // Help and version are off.
    ("getfacl -h f", "usage"),
    ("getfacl --help", "usage"),
    ("getfacl -V", "usage"),
    ("getfacl --version f", "usage"),
    ("getfacl help", ": help"),
    // `-` and the words that take a text name no file.
    ("getfacl -", "usage"),
    ("getfacl f -- -", "usage"),
    ("getfacl -- -M-", "usage"),
    ("getfacl ./-", ": ./-"),
    ("getfacl ''", ": ''"),
];

#[test]
fn words_are_cut(rt: HostRuntime) {
    expect_lines(&rt, rt.alloc(), &LINES);
}
