//! The numbers of an attribute.

ghost use Rattle.std.specs.Prelude.{◌≡◌, ◌<◌};
ghost use Rattle.acl_text.specs.Attr.{tag_of, key_of, written_id};

use acl_entry::{Id, Key, NOBODY};

/// The number that an attribute begins with.
pub(crate) const VERSION: u32 = 2;

/// How many bytes the number in front takes.
pub(crate) const HEAD_BYTES: usize = 4;

/// How many bytes an entry takes.
pub(crate) const ENTRY_BYTES: usize = 8;

const OWNER: u16 = 1;

const USER: u16 = 2;

const OWNING_GROUP: u16 = 4;

const GROUP: u16 = 8;

const MASK: u16 = 16;

const OTHER: u16 = 32;

/// Returns the tag of a key.
pub(crate) fn tag_of(key: &Key) -> u16
    ensures { result ≡ tag_of key.now }
{
    match key {
        Key::Owner => OWNER,
        Key::User(_) => USER,
        Key::OwningGroup => OWNING_GROUP,
        Key::Group(_) => GROUP,
        Key::Mask => MASK,
        Key::Other => OTHER,
    }
}

/// Returns the key of a tag and an id: `None` if there is no such tag, or if a user or a group is to be named and the
/// id is 4294967295. An entry that names nobody may have any id.
pub(crate) fn key_of(tag: u16, id: u32) -> Option<Key>
    ensures { result ≡ key_of tag id }
{
    match tag {
        OWNER => Some(Key::Owner),
        USER => Some(Key::User(Id::new(id)?)),
        OWNING_GROUP => Some(Key::OwningGroup),
        GROUP => Some(Key::Group(Id::new(id)?)),
        MASK => Some(Key::Mask),
        OTHER => Some(Key::Other),
        _ => None,
    }
}

/// Returns the id that is written for a key.
pub(crate) fn written_id(key: &Key) -> u32
    ensures { result ≡ written_id key.now }
{
    match key.id() {
        Some(id) => id.number(),
        None => NOBODY,
    }
}
