//! Lines of setfacl, each with the lists that it leaves, or its fault.
use crate::files_as_texts::{expect, specs};
use acl_edit::{Edit, Specs};
use acl_text::Want;
use std::alloc::Global;
use std::process::Abort;

/// A file, a line, and what becomes of the file.
static LINES: [(&str, &str, &str); 42] = [
    // Named entries get a mask.
    (
        "u::rw-,g::r--,o::---",
        "-m=u:1000:rwx",
        "u::rw-,u:1000:rwx,g::r--,m::rwx,o::---",
    ),
    (
        "u::rw-,g::r--,o::---",
        "-m=u:1000:rw,g:70:r",
        "u::rw-,u:1000:rw-,g::r--,g:70:r--,m::rw-,o::---",
    ),
    (
        "u::rw-,g::r--,o::---",
        "-m=u:1000:rw,m::r",
        "u::rw-,u:1000:rw-,g::r--,m::r--,o::---",
    ),
    // A list without named entries gets none.
    ("u::rw-,g::r--,o::---", "-m=o::r", "u::rw-,g::r--,o::r--"),
    (
        "u::rwx,g::r-x,o::r-x/",
        "-m=d:o::r",
        "u::rwx,g::r-x,o::r-x/u::rwx,g::r-x,o::r--",
    ),
    // A mask is left or recalculated.
    (
        "u::rw-,g::r--,o::---",
        "-n -m=u:1000:rwx",
        "u::rw-,u:1000:rwx,g::r--,m::r--,o::---",
    ),
    (
        "u::rw-,g::r--,o::---",
        "--mask -m=u:1000:rw,m::r",
        "u::rw-,u:1000:rw-,g::r--,m::rw-,o::---",
    ),
    // Entries are removed.
    (
        "u::rw-,u:1000:rwx,g::r--,m::rwx,o::---",
        "-x=u:1000",
        "u::rw-,g::r--,m::r--,o::---",
    ),
    (
        "u::rw-,u:1000:rwx,g::r--,m::rwx,o::---",
        "-x=m:",
        "List(Access, MissingMask { at: 2 })",
    ),
    // A mask that no file had is not missed.
    (
        "u::rwx,g::r-x,g:70:rwx,m::rwx,o::r-x/",
        "-x=m: -m=u:1000:r",
        "List(Access, MissingMask { at: 2 })",
    ),
    (
        "u::rw-,g::r--,o::---",
        "-x=m: -m=u:1000:r",
        "u::rw-,u:1000:r--,g::r--,m::r--,o::---",
    ),
    // A set list lacks its base entries.
    (
        "u::rw-,g::r--,o::---",
        "--set=u:1000:r",
        "List(Access, MissingBase { key: Owner })",
    ),
    (
        "u::rw-,g::r--,o::---",
        "--set=u::rw,o::r",
        "List(Access, MissingBase { key: OwningGroup })",
    ),
    (
        "u::rw-,g::r--,o::---",
        "--set=u::rw,g::r",
        "List(Access, MissingBase { key: Other })",
    ),
    // Only directories get default entries.
    ("u::rw-,g::r--,o::---", "-m=d:u:1000:rx", "DefaultOnFile"),
    (
        "u::rw-,g::r--,o::---",
        "--set=d:u::rwx,d:g::r,d:o::-",
        "DefaultOnFile",
    ),
    ("u::rw-,g::r--,o::---", "-d -m=u:1000:rx", "DefaultOnFile"),
    (
        "u::rw-,g::r--,o::---",
        "-R -m=d:u:1000:rx",
        "u::rw-,g::r--,o::---",
    ),
    (
        "u::rw-,g::r--,o::---",
        "-x=d:u:1000",
        "u::rw-,g::r--,o::---",
    ),
    (
        "u::rw-,g::r--,o::---",
        "-d -m=d:u:1000:rx",
        "u::rw-,g::r--,o::---",
    ),
    (
        "u::rw-,u:7:r--,g::r--,m::r--,o::---",
        "-x=m: -m=d:u:7:r",
        "DefaultOnFile",
    ),
    (
        "u::rwx,g::r-x,o::r-x/",
        "-m=d:u:1000:rx",
        "u::rwx,g::r-x,o::r-x/u::rwx,u:1000:r-x,g::r-x,m::r-x,o::r-x",
    ),
    (
        "u::rwx,g::r-x,g:70:rwx,m::rwx,o::r-x/",
        "-m=d:u:1000:rx",
        "u::rwx,g::r-x,g:70:rwx,m::rwx,o::r-x/u::rwx,u:1000:r-x,g::r-x,m::r-x,o::r-x",
    ),
    // Plain entries become default ones.
    (
        "u::rwx,g::r-x,g:70:rwx,m::rwx,o::r-x/",
        "-d -m=u:1000:rw,d:g:70:r",
        "u::rwx,g::r-x,g:70:rwx,m::rwx,o::r-x/u::rwx,u:1000:rw-,g::r-x,m::rwx,o::r-x",
    ),
    // Execute where someone may execute; the mask does not count.
    (
        "u::rw-,g::r--,o::---",
        "-m=u:1000:rX",
        "u::rw-,u:1000:r--,g::r--,m::r--,o::---",
    ),
    (
        "u::rwx,g::r-x,o::r-x",
        "-m=u:1000:rX",
        "u::rwx,u:1000:r-x,g::r-x,m::r-x,o::r-x",
    ),
    (
        "u::rw-,u:7:r--,g::r--,m::rwx,o::---",
        "-m=u:1000:rX",
        "u::rw-,u:7:r--,u:1000:r--,g::r--,m::r--,o::---",
    ),
    (
        "u::rwx,g::r-x,g:70:rwx,m::rwx,o::r-x/",
        "-m=u:1000:rX",
        "u::rwx,u:1000:r-x,g::r-x,g:70:rwx,m::rwx,o::r-x/",
    ),
    // A named user's execute permission counts; a directory needs none.
    (
        "u::rw-,u:7:r-x,g::r--,m::r-x,o::---",
        "-m=u:1000:rX",
        "u::rw-,u:7:r-x,u:1000:r-x,g::r--,m::r-x,o::---",
    ),
    (
        "u::rw-,g::r--,o::---/",
        "-m=u:1000:rX",
        "u::rw-,u:1000:r-x,g::r--,m::r-x,o::---/",
    ),
    // A default list keeps its own base entries, and none is made to remove an entry.
    (
        "u::rwx,g::r-x,o::r-x/u::rwx,g::---,o::---",
        "-m=d:u:1000:rx",
        "u::rwx,g::r-x,o::r-x/u::rwx,u:1000:r-x,g::---,m::r-x,o::---",
    ),
    (
        "u::rwx,g::r-x,o::r-x/",
        "-x=d:u:1000",
        "u::rwx,g::r-x,o::r-x/",
    ),
    // Base entries keep what they grant.
    (
        "u::rw-,g::r--,o::---",
        "--set=u::rw-,g::rwx,m::r--,o::---",
        "u::rw-,g::rwx,m::r--,o::---",
    ),
    (
        "u::rw-,g::r--,o::---",
        "--set=u::rw-,g::r--,m::rwx,o::---",
        "u::rw-,g::r--,m::rwx,o::---",
    ),
    ("u::rw-,g::rwx,m::r--,o::---", "-b", "u::rw-,g::r--,o::---"),
    ("u::rw-,g::r--,m::rwx,o::---", "-b", "u::rw-,g::r--,o::---"),
    // Default lists are dropped.
    (
        "u::rwx,g::r-x,o::r-x/u::rwx,g::---,o::---",
        "-b",
        "u::rwx,g::r-x,o::r-x/",
    ),
    (
        "u::rwx,g::r-x,o::r-x/u::rwx,g::---,o::---",
        "-k",
        "u::rwx,g::r-x,o::r-x/",
    ),
    // A mask is missing; the access list's fault is returned first.
    (
        "u::rwx,g::r-x,g:70:rwx,m::rwx,o::r-x/u::rwx,u:7:r--,g::---,m::r--,o::---",
        "-x=m:",
        "List(Access, MissingMask { at: 3 })",
    ),
    (
        "u::rwx,g::r-x,g:70:rwx,m::rwx,o::r-x/u::rwx,u:7:r--,g::---,m::r--,o::---",
        "-x=d:m:",
        "List(Default, MissingMask { at: 2 })",
    ),
    (
        "u::rwx,g::r-x,g:70:rwx,m::rwx,o::r-x/u::rwx,u:7:r--,g::---,m::r--,o::---",
        "-x=d:m:,m:",
        "List(Access, MissingMask { at: 3 })",
    ),
    // A named user is not one of the others.
    (
        "u::rw-,g::r--,o::---",
        "-m=u:1000:-,g:100:rwx,o::r",
        "u::rw-,u:1000:---,g::r--,g:100:rwx,m::rwx,o::r--",
    ),
];

/// Whether the line has this word.
fn has(line: &str, flag: &str) -> bool {
    for word in line.split(' ') {
        if word == flag {
            return true;
        }
    }
    false
}

/// What is after an option's `=`; nothing where the line lacks the option.
fn value<'a>(line: &'a str, option: &str) -> &'a str {
    for word in line.split(' ') {
        if let Some((name, value)) = word.split_once('=') {
            if name == option {
                return value;
            }
        }
    }
    ""
}

fn entries(rt: &impl Abort, alloc: Global, line: &str, option: &str, want: Want) -> Specs {
    Specs::new(specs(rt, alloc, value(line, option), want))
}

fn change(rt: &impl Abort, alloc: Global, line: &str) -> Edit {
    Edit::Change {
        strip: has(line, "-b"),
        drop_default: has(line, "-k"),
        as_default: has(line, "-d"),
        no_mask: has(line, "-n"),
        remask: has(line, "--mask"),
        remove: entries(rt, alloc, line, "-x", Want::WithoutPerms),
        set: entries(rt, alloc, line, "--set", Want::WithPerms),
        modify: entries(rt, alloc, line, "-m", Want::WithPerms),
    }
}

#[test]
fn setfacl_lines(rt: HostRuntime) {
    for (file, line, want) in &LINES {
        let edit = change(&rt, rt.alloc(), line);
        expect(&rt, rt.alloc(), file, &edit, line.starts_with("-R "), want);
    }
}
