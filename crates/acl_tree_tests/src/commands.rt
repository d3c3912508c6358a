//! Commands on the texts' tree, and on its users and groups.
use crate::rows::path;
use acl_tree::{
    Command, DumpRecord, DumpRecords, DumpUse, Edit, Id, Kind, Membership, Name, NewFile, NewUser,
    NoNames, Path, Paths, UserName, read_dump, read_name,
};
use std::alloc::Global;
use std::process::Abort;

/// The name of a text.
fn name(rt: &impl Abort, alloc: Global, text: &[u8]) -> Name {
    read_name(alloc, text).expect(rt, "memory")
}

/// One operand.
fn operand(rt: &impl Abort, alloc: Global, text: &[u8]) -> Paths {
    let mut list: Vec<Path> = Vec::new(alloc);
    list.push(path(rt, alloc, text)).expect(rt, "memory");
    Paths::new(list)
}

fn chmod(rt: &impl Abort, alloc: Global) -> Command<'static> {
    Command::Chmod {
        paths: operand(rt, alloc, b"pub"),
        mode: 0o770,
        recursive: true,
    }
}

fn flatten(rt: &impl Abort, alloc: Global) -> Command<'static> {
    Command::Edit {
        paths: operand(rt, alloc, b"pub"),
        edit: Edit::Flatten {
            access: true,
            dacl: true,
        },
        recursive: false,
    }
}

fn creat(rt: &impl Abort, alloc: Global) -> Command<'static> {
    Command::Creat(NewFile {
        path: path(rt, alloc, b"pub/n"),
        kind: Kind::Plain,
        user: name(rt, alloc, b"ann"),
        mode: 0o640,
        umask: 0o22,
    })
}

pub(crate) fn rm(rt: &impl Abort, alloc: Global) -> Command<'static> {
    Command::Rm {
        paths: operand(rt, alloc, b"f"),
        recursive: false,
    }
}

/// The records of a text.
pub(crate) fn records(rt: &impl Abort, alloc: Global, text: &[u8]) -> DumpRecords {
    let records: Vec<DumpRecord> = read_dump(alloc, text, DumpUse::Restore, &NoNames).expect(
        rt, "records",
    );
    DumpRecords::new(records)
}

const RECORD: &[u8] = b"# file: f\nuser::rwx\ngroup::r-x\nother::---\n";

fn restore(rt: &impl Abort, alloc: Global) -> Command<'static> {
    Command::Restore {
        records: records(rt, alloc, RECORD),
    }
}

/// `gpasswd` of joe and adm.
pub(crate) fn gpasswd(rt: &impl Abort, alloc: Global, change: Membership) -> Command<'static> {
    Command::Gpasswd {
        user: name(rt, alloc, b"joe"),
        group: name(rt, alloc, b"adm"),
        change,
    }
}

fn usermod(rt: &impl Abort, alloc: Global) -> Command<'static> {
    Command::Usermod {
        user: name(rt, alloc, b"joe"),
        group: name(rt, alloc, b"staff"),
    }
}

fn bob(rt: &impl Abort, alloc: Global) -> UserName {
    let bob: Option<UserName> = UserName::new(name(rt, alloc, b"bob"));
    bob.expect(rt, "a name")
}

fn useradd(rt: &impl Abort, alloc: Global) -> Command<'static> {
    Command::Useradd(NewUser {
        name: bob(rt, alloc),
        uid: Id::new(1003).expect(rt, "an id"),
        group: name(rt, alloc, b"staff"),
    })
}

fn userdel(rt: &impl Abort, alloc: Global) -> Command<'static> {
    Command::Userdel {
        user: name(rt, alloc, b"joe"),
    }
}

/// A command of those above.
pub(crate) enum Line {
    Chmod,
    Flatten,
    Creat,
    Rm,
    Restore,
    Gpasswd,
    Usermod,
    Useradd,
    Userdel,
}

pub(crate) fn command(rt: &impl Abort, alloc: Global, line: &Line) -> Command<'static> {
    match line {
        Line::Chmod => chmod(rt, alloc),
        Line::Flatten => flatten(rt, alloc),
        Line::Creat => creat(rt, alloc),
        Line::Rm => rm(rt, alloc),
        Line::Restore => restore(rt, alloc),
        Line::Gpasswd => gpasswd(rt, alloc, Membership::Add),
        Line::Usermod => usermod(rt, alloc),
        Line::Useradd => useradd(rt, alloc),
        Line::Userdel => userdel(rt, alloc),
    }
}
