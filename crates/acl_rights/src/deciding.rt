//! Which entry of a list decides on a user.

ghost use Rattle.std.specs.Prelude.{◌≡◌};
ghost use Rattle.std.specs.List.{list_any};
ghost use Rattle.acl_entry.specs.Check.{is_for};
ghost use Rattle.acl_entry.specs.Lists.{entries};
ghost use Rattle.acl_rights.specs.Deciders.{linux_sole_key, mode_key, sole_key};

use acl_entry::{Key, Label, Subject};

/// Tells whether some entry is for one of the user's groups.
fn is_matched(subject: &Subject, label: &Label) -> bool
    ensures { result ≡ list_any (is_for subject.now label.now.group) (entries label.now.acl) }
{
    for entry in label.acl.entries() {
        if subject.matches(label.group, &entry.key) {
            return true;
        }
    }
    false
}

/// Returns the key whose entry alone decides on the user by acl(5)'s check; `None` if the entries of the user's groups
/// do.
pub(crate) fn sole_key(subject: &Subject, label: &Label) -> Option<Key>
    ensures { result ≡ sole_key subject.now label.now }
{
    if subject.uid() == label.owner {
        return Some(Key::Owner);
    }
    if label.acl.get(Key::User(subject.uid())).is_some() {
        return Some(Key::User(subject.uid()));
    }
    if is_matched(subject, label) {
        None
    } else {
        Some(Key::Other)
    }
}

/// Returns the key of the user's digit in the mode.
fn mode_key(subject: &Subject, label: &Label) -> Option<Key>
    ensures { result ≡ mode_key subject.now label.now }
{
    if subject.uid() == label.owner {
        Some(Key::Owner)
    } else if subject.is_of(label.group) {
        Some(Key::OwningGroup)
    } else {
        Some(Key::Other)
    }
}

/// Returns the key whose entry alone decides on the user under Linux: by the mode, if the list has a mask that grants
/// nothing.
pub(crate) fn linux_sole_key(subject: &Subject, label: &Label) -> Option<Key>
    ensures { result ≡ linux_sole_key subject.now label.now }
{
    if label.acl.has_empty_mask() {
        mode_key(subject, label)
    } else {
        sole_key(subject, label)
    }
}
