//! Commands.

use crate::restore::DumpRecords;
use crate::selection::Paths;
use acl_edit::{Edit, Kind};
use acl_entry::Id;
use acl_names::{Name, Path};
use acl_people::UserName;

/// What a text is loaded as.
#[derive(Clone, Copy, Debug, PartialEq, Eq)]
pub enum Table {
    /// The users: passwd(5).
    Passwd,
    /// The groups: group(5).
    Group,
    /// The files: a dump as getfacl(1) writes it.
    Dump,
}

/// A new file: see [`Command::Creat`].
#[derive(Drop)]
pub struct NewFile {
    pub path: Path,
    pub kind: Kind,
    /// The word for the user who creates it: digits alone are an id, any other word is a name.
    pub user: Name,
    pub mode: u16,
    pub umask: u16,
}

/// A change of the membership of a user in the row of a group.
#[derive(Clone, Copy, PartialEq, Eq)]
pub enum Membership {
    /// The row names the user; last, if it did not before.
    Add,
    /// The row does not name the user.
    Remove,
}

/// A new user: see [`Command::Useradd`].
#[derive(Drop)]
pub struct NewUser {
    pub name: UserName,
    pub uid: Id,
    /// The word for the primary group: digits alone are an id, any other word is a name.
    pub group: Name,
}

/// A command on the whole state, with its faults in the order in which they are reported. It borrows the text that it loads.
#[derive(Drop)]
pub enum Command<'a> {
    /// Loads a text. Each kind is loaded once, and people before files. `AlreadyLoaded`, before any look at the text; `Text`
    /// with the text's first fault; `TooMany`.
    Load {
        which: Table,
        bytes: &'a [u8],
    },
    /// Puts the low twelve bits of a mode into the operands, with `recursive` also into all files below
    /// them: chmod(1). `NoSuchFile` of the first operand that is not recorded.
    Chmod {
        paths: Paths,
        mode: u16,
        recursive: bool,
    },
    /// Edits the lists of the operands, with `recursive` also of all files below them: setfacl(1), chacl(1). `NoSuchFile` of
    /// the first operand that is not recorded; `Edit` of the first file in path order whose edit is refused.
    Edit {
        paths: Paths,
        edit: Edit,
        recursive: bool,
    },
    /// Gives the files of records the lists, flags, owners and groups that these have: setfacl(1) --restore. The faults of
    /// an edit.
    Restore {
        records: DumpRecords,
    },
    /// Makes a plain file or a directory. Its parent is recorded, is a directory and is what it inherits from:
    /// acl(5), "OBJECT CREATION AND DEFAULT ACLs". `NoSuchUser`; `Exists`; `NoSuchFile` or `NotDirectory` of the parent;
    /// `TooMany`.
    Creat(NewFile),
    /// Removes plain files, with `recursive` also directories with all files below them: rm(1). `NoSuchFile` or
    /// `IsDirectory` of the first operand that has one of them.
    Rm {
        paths: Paths,
        recursive: bool,
    },
    /// Adds a user to the row of a group, or removes one from it: gpasswd(1) -a, -d. Both are words: digits
    /// alone are an id, any other word is a name. `NoSuchUser`; `NoSuchGroup`; `NotMember` where there is nothing to remove.
    Gpasswd {
        user: Name,
        group: Name,
        change: Membership,
    },
    /// Makes a group the primary group of a user: usermod(8) -g. Both are words. `NoSuchUser`; `NoSuchGroup`.
    Usermod {
        user: Name,
        group: Name,
    },
    /// Adds a user, the last: useradd(8). Users count as loaded from then on. `UserExists`; `UidExists`; `NoSuchGroup`;
    /// `TooManyUsers`.
    Useradd(NewUser),
    /// Removes a user, and the user's name from the rows of all groups: userdel(8). The user is a word. `NoSuchUser`.
    Userdel {
        user: Name,
    },
}
