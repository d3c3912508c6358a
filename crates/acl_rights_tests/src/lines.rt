//! Commands as they are written.

use acl_edit::{Edit, Specs};
use acl_entry::Id;
use acl_names::{Name, Path, read_path};
use acl_people::{People, UserName};
use acl_text::{DumpUse, Sep, Want, read_dump, read_entries};
use acl_tree::{Command, DumpRecords, Membership, NewUser, Paths, Table};
use std::alloc::Global;

/// A command, its operands and texts as they are written.
pub enum Line {
    Load(Table, &'static [u8]),
    Chmod(u16, &'static [u8]),
    /// Entries that are modified, and whether all files below are edited too.
    Setfacl(&'static [u8], bool, &'static [u8]),
    Restore(&'static [u8]),
    Rm(&'static [u8]),
    /// A user and a group.
    Join(&'static [u8], &'static [u8]),
    Leave(&'static [u8], &'static [u8]),
    Usermod(&'static [u8], &'static [u8]),
    /// A name, an id and a group.
    Useradd(&'static [u8], u32, &'static [u8]),
    Userdel(&'static [u8]),
}

/// The path of a text; none where it is not one, or memory runs out.
pub fn path(alloc: Global, text: &[u8]) -> Option<Path> {
    read_path(alloc, text).ok()?
}

/// One operand.
pub fn paths(alloc: Global, text: &[u8]) -> Option<Paths> {
    let mut list = Vec::new(alloc);
    list.push(path(alloc, text)?).ok()?;
    Some(Paths::new(list))
}

fn name(alloc: Global, text: &[u8]) -> Option<Name> {
    Name::from_bytes(alloc, text).ok()
}

fn change(alloc: Global, people: &People, modify: &[u8]) -> Option<Edit> {
    let entries = read_entries(alloc, modify, Sep::Comma, Want::WithPerms, people).ok()?;
    Some(Edit::Change {
        strip: false,
        drop_default: false,
        as_default: false,
        no_mask: false,
        remask: false,
        remove: Specs::new(Vec::new(alloc)),
        set: Specs::new(Vec::new(alloc)),
        modify: Specs::new(entries),
    })
}

fn member(
    alloc: Global,
    user: &[u8],
    group: &[u8],
    change: Membership,
) -> Option<Command<'static>> {
    Some(Command::Gpasswd {
        user: name(alloc, user)?,
        group: name(alloc, group)?,
        change,
    })
}

fn edit(
    alloc: Global,
    people: &People,
    modify: &[u8],
    recursive: bool,
    text: &[u8],
) -> Option<Command<'static>> {
    let edit = change(alloc, people, modify)?;
    Some(Command::Edit {
        paths: paths(alloc, text)?,
        edit,
        recursive,
    })
}

fn restore(alloc: Global, people: &People, text: &[u8]) -> Option<Command<'static>> {
    let records = read_dump(alloc, text, DumpUse::Restore, people).ok()?;
    Some(Command::Restore {
        records: DumpRecords::new(records),
    })
}

fn new_user(alloc: Global, text: &[u8], uid: u32, group: &[u8]) -> Option<Command<'static>> {
    let uid = Id::new(uid)?;
    let name_of_group = name(alloc, group)?;
    Some(Command::Useradd(NewUser {
        name: UserName::new(name(alloc, text)?)?,
        uid,
        group: name_of_group,
    }))
}

/// The command of a line; none where its texts are not valid.
pub fn command(alloc: Global, people: &People, line: &Line) -> Option<Command<'static>> {
    match line {
        Line::Load(which, bytes) => Some(Command::Load {
            which: *which,
            bytes,
        }),
        Line::Chmod(mode, text) => Some(Command::Chmod {
            paths: paths(alloc, text)?,
            mode: *mode,
            recursive: false,
        }),
        Line::Setfacl(modify, recursive, text) => edit(alloc, people, modify, *recursive, text),
        Line::Restore(text) => restore(alloc, people, text),
        Line::Rm(text) => Some(Command::Rm {
            paths: paths(alloc, text)?,
            recursive: false,
        }),
        Line::Join(user, group) => member(alloc, user, group, Membership::Add),
        Line::Leave(user, group) => member(alloc, user, group, Membership::Remove),
        Line::Usermod(user, group) => Some(Command::Usermod {
            user: name(alloc, user)?,
            group: name(alloc, group)?,
        }),
        Line::Useradd(text, uid, group) => new_user(alloc, text, *uid, group),
        Line::Userdel(user) => Some(Command::Userdel {
            user: name(alloc, user)?,
        }),
    }
}
