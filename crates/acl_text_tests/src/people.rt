//! Users and groups to read and write texts with.

ghost use Rattle.std.specs.Prelude.{◌==◌, if◌then◌else◌, Some, None, codes};
ghost use Rattle.std.specs.Str.{bytes_eq};

use acl_entry::Id;
use acl_text::Names;

#[derive(Clone, Copy)]
pub struct People;

impl Names for People {
    ghost naming = { λ _. record {
      user_id = λ name. if bytes_eq name (codes "lisa") then Some 1001 else (if bytes_eq name (codes "joe") then Some 1000 else (if bytes_eq name (codes "ann") then Some 1002 else None));
      group_id = λ name. if bytes_eq name (codes "staff") then Some 50 else (if bytes_eq name (codes "cool") then Some 60 else (if bytes_eq name (codes "adm") then Some 70 else None));
      user_name = λ id. if id == 1001 then Some (codes "lisa") else (if id == 1000 then Some (codes "joe") else (if id == 2000 then Some (codes "al b") else None));
      group_name = λ id. if id == 50 then Some (codes "staff") else (if id == 60 then Some (codes "cool") else None);
    } };

    fn user_id(&self, name: &[u8]) -> Option<Id> {
        if name == b"lisa".as_slice() {
            Id::new(1001)
        } else if name == b"joe".as_slice() {
            Id::new(1000)
        } else if name == b"ann".as_slice() {
            Id::new(1002)
        } else {
            None
        }
    }

    fn group_id(&self, name: &[u8]) -> Option<Id> {
        if name == b"staff".as_slice() {
            Id::new(50)
        } else if name == b"cool".as_slice() {
            Id::new(60)
        } else if name == b"adm".as_slice() {
            Id::new(70)
        } else {
            None
        }
    }

    fn user_name(&self, id: Id) -> Option<&[u8]> {
        let number = id.number();
        if number == 1001 {
            Some(b"lisa")
        } else if number == 1000 {
            Some(b"joe")
        } else if number == 2000 {
            Some(b"al b")
        } else {
            None
        }
    }

    fn group_name(&self, id: Id) -> Option<&[u8]> {
        let number = id.number();
        if number == 50 {
            Some(b"staff")
        } else if number == 60 {
            Some(b"cool")
        } else {
            None
        }
    }
}
