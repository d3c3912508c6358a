//! How many verdicts lines on memberships ask for.

use crate::costs::{Cost, check};
use crate::texts::WHOLE;

/// Adm is mentioned by log and pub; users is joe's primary group.
static MEMBERS: [Cost; 10] = [
    (b"gpasswd -a joe users\n", (0, 0)),
    (b"gpasswd -a joe adm\n", (2, 2)),
    (b"can joe log\n", (0, 0)),
    (b"can joe pub\n", (0, 0)),
    (b"gpasswd -d joe adm\n", (2, 2)),
    (b"can joe log\n", (0, 0)),
    (b"chmod 770 pub\n", (3, 3)),
    (b"gpasswd -d joe users\n", (0, 0)),
    (b"can joe pub\n", (0, 0)),
    (b"index\n", (0, 0)),
];

/// Staff is mentioned by the root, f and run, users by pub.
static PRIMARY: [Cost; 6] = [
    (b"usermod -g staff joe\n", (0, 4)),
    (b"can joe f\n", (0, 0)),
    (b"usermod -g staff joe\n", (0, 0)),
    (b"gpasswd -a joe staff\n", (0, 0)),
    (b"gpasswd -d joe staff\n", (0, 0)),
    (b"gpasswd -a joe cool\n", (0, 0)),
];

/// Then users is mentioned by f too, which both groups share.
static NAMED: [Cost; 2] = [
    (b"setfacl -m g:users:r f\n", (0, 3)),
    (b"usermod -g staff joe\n", (0, 4)),
];

#[test]
fn memberships_ask_for_what_they_change(rt: HostRuntime) {
    check(&rt, &WHOLE, 15, &MEMBERS);
    check(&rt, &WHOLE, 15, &PRIMARY);
    check(&rt, &WHOLE, 15, &NAMED);
}
