//! How many verdicts lines on users ask for.

use crate::costs::{Cost, check};
use crate::texts::WHOLE;

/// A new user is judged on each file once, and nothing is judged for a user who goes.
static USERS: [Cost; 13] = [
    (b"useradd -u 1003 -g staff bob\n", (0, 5)),
    (b"can bob f\n", (0, 0)),
    (b"useradd -u 1001 -g staff eve\n", (0, 0)),
    (b"useradd -u 9 -g staff bob\n", (0, 0)),
    (b"chmod 664 f\n", (0, 4)),
    (b"userdel bob\n", (0, 0)),
    (b"setfacl -m u:joe:rw f\n", (0, 3)),
    (b"userdel joe\n", (0, 0)),
    (b"chacl -l f\n", (0, 0)),
    (b"can joe f\n", (0, 0)),
    (b"useradd -u 1000 -g cool zoe\n", (0, 5)),
    (b"can zoe f\n", (0, 0)),
    (b"chmod 600 f\n", (0, 3)),
];

#[test]
fn users_ask_for_what_they_change(rt: HostRuntime) {
    check(&rt, &WHOLE, 15, &USERS);
}
