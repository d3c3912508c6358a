//! How many verdicts lines on files ask for, and lines that ask for none.

use crate::costs::{Cost, check};
use crate::texts::{PEOPLE, WHOLE};

/// Default lists decide about no file that is there.
static DEFAULTS: [Cost; 6] = [
    (b"setfacl -m d:u:joe:rx f\n", (0, 0)),
    (b"setfacl -R -m d:u:joe:rx .\n", (0, 0)),
    (b"chacl -l . pub f\n", (0, 0)),
    (b"chacl -D .\n", (0, 0)),
    (b"setfacl -k pub\n", (0, 0)),
    (
        b"setattr system.posix_acl_default=0x0200000001000700ffffffff04000500ffffffff20000000ffffffff pub\n",
        (0, 0),
    ),
];

/// A file that changes is judged for each user, once.
static ONE_FILE: [Cost; 12] = [
    (b"setfacl -m u:joe:r f\n", (0, 3)),
    (b"setfacl -m u:joe:r f\n", (0, 0)),
    (b"chmod 640 f\n", (0, 0)),
    (
        b"setfacl --restore=-\n\
# file: f\n\
# owner: ann\n\
user::rw-\n\
group::r--\n\
other::---\n\
.\n",
        (0, 3),
    ),
    (b"chacl -R f\n", (0, 0)),
    (b"chacl u::rw-,g::rw-,o::- f\n", (0, 3)),
    (
        b"setattr system.posix_acl_access=0x0200000001000700ffffffff04000500ffffffff20000000ffffffff f\n",
        (0, 3),
    ),
    (b"creat --user=joe --mode=600 new\n", (0, 3)),
    (b"creat -d --user=ann --mode=700 pub/s\n", (0, 3)),
    (b"changes\n", (0, 0)),
    (b"changes --reach\n", (0, 0)),
    (b"why --reach joe f new pub/s\n", (0, 0)),
];

/// Flags, removals, listings, tests, questions, what changed, and lines that are refused.
static NOTHING_CHANGES: [Cost; 31] = [
    (b"chmod 4640 f\n", (0, 0)),
    (b"getfacl -R .\n", (0, 0)),
    (b"setfacl --test -R -m u:joe:rwx .\n", (0, 0)),
    (b"setfacl --test -b pub\n", (0, 0)),
    (
        b"setfacl --restore=- --test\n\
# file: f\n\
# owner: ann\n\
user::rwx\n\
group::rwx\n\
other::rwx\n\
.\n",
        (0, 0),
    ),
    (b"who r f\n", (0, 0)),
    (b"who --reach 0 run\n", (0, 0)),
    (b"may joe rx\n", (0, 0)),
    (b"may --reach ann w\n", (0, 0)),
    (b"why joe f\n", (0, 0)),
    (b"why --reach ann pub run\n", (0, 0)),
    (b"changes\n", (0, 0)),
    (b"index\n", (0, 0)),
    (b"can --reach joe pub\n", (0, 0)),
    (b"attr f\n", (0, 0)),
    (b"chacl -l -r .\n", (0, 0)),
    (b"# a comment\n", (0, 0)),
    (b"\n", (0, 0)),
    (b"frob\n", (0, 0)),
    (b"can nosuch f\n", (0, 0)),
    (b"why joe nosuch\n", (0, 0)),
    (b"who r nosuch\n", (0, 0)),
    (b"chmod 777 f nosuch\n", (0, 0)),
    (b"setfacl -R -x m: -m u:joe:r .\n", (0, 0)),
    (
        b"load dump\n\
.\n",
        (0, 0),
    ),
    (b"gpasswd -d joe cool\n", (0, 0)),
    (b"usermod -g 99 joe\n", (0, 0)),
    (b"usermod -g users joe\n", (0, 0)),
    (b"rm f\n", (0, 0)),
    (b"rm -r pub\n", (0, 0)),
    (b"changes --reach\n", (0, 0)),
];

/// A directory that changes is judged, and no file below it.
static SEARCH: [Cost; 9] = [
    (b"may --reach joe rx\n", (0, 0)),
    (b"chmod 754 .\n", (0, 3)),
    (b"can --reach joe pub\n", (0, 0)),
    (b"can joe pub\n", (0, 0)),
    (b"who --reach r run\n", (0, 0)),
    (b"may --reach ann w\n", (0, 0)),
    (b"may --reach joe r\n", (0, 0)),
    (b"setfacl -m u:joe:x .\n", (0, 3)),
    (b"changes --reach\n", (0, 0)),
];

/// Each file that changes is judged for each user; files that then have one label are judged once, as the root and run
/// of the first line.
static WHOLE_TREE: [Cost; 5] = [
    (b"setfacl -R -m u:joe:rX .\n", (0, 12)),
    (b"setfacl -R -m u:joe:rX .\n", (0, 0)),
    (b"chmod -R 750 pub run\n", (0, 6)),
    (b"rm -r pub\n", (0, 0)),
    (b"chmod -R 640 .\n", (0, 12)),
];

/// Files that a line loads are judged as those of the setup.
static LOADED: [Cost; 5] = [
    (b"index\n", (0, 0)),
    (
        b"load dump\n\
# file: .\n\
# owner: joe\n\
# group: users\n\
user::rwx\n\
group::r-x\n\
other::---\n\
\n\
# file: f\n\
# owner: joe\n\
# group: users\n\
user::rw-\n\
group::r--\n\
other::---\n\
.\n",
        (6, 6),
    ),
    (b"changes\n", (0, 0)),
    (
        b"load dump\n\
.\n",
        (0, 0),
    ),
    (b"can joe f\n", (0, 0)),
];

#[test]
fn files_ask_for_what_they_change(rt: HostRuntime) {
    check(&rt, &WHOLE, 15, &ONE_FILE);
    check(&rt, &WHOLE, 15, &SEARCH);
    check(&rt, &WHOLE, 15, &WHOLE_TREE);
    check(&rt, &PEOPLE, 0, &LOADED);
}

#[test]
fn all_else_asks_for_nothing(rt: HostRuntime) {
    check(&rt, &WHOLE, 15, &DEFAULTS);
    check(&rt, &WHOLE, 15, &NOTHING_CHANGES);
}
