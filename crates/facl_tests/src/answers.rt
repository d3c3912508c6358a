//! What lines answer under judges whose verdicts are not those of acl(5)'s check.

use crate::judged_rows::{Row, expect};
use crate::judges::{OwnerAlone, OwnerAtOnce, WholeClass};
use crate::played::play;
use crate::texts::WHOLE;
use std::alloc::Global;

static OWNERS: [Row; 5] = [
    Row {
        name: "the owner alone",
        script: b"index\n\
who 0 f\n\
who r pub\n\
who x run\n\
can lisa f\n\
can joe pub\n\
can lisa pub\n\
may joe 0\n\
may ann rwx\n",
        out: b"ff lisa .\n\
00 joe .\n\
00 ann .\n\
55 lisa f\n\
00 joe f\n\
00 ann f\n\
55 lisa log\n\
00 joe log\n\
00 ann log\n\
00 lisa pub/\n\
00 joe pub/\n\
ff ann pub/\n\
ff lisa run\n\
00 joe run\n\
00 ann run\n\
lisa\n\
ann\n\
lisa\n\
-w- r-- rw-\n\
none\n\
none\n\
pub/\n",
    },
    // Ann owns pub, and not the root above it.
    Row {
        name: "the owner alone, along the path",
        script: b"can --reach ann pub\n\
can ann pub\n\
may --reach ann 0\n\
may --reach lisa r\n\
who --reach 0 pub\n\
who --reach x run\n\
chmod 600 .\n\
may --reach lisa r\n\
who --reach 0 run\n",
        out: b"none\n\
--x -w- -wx r-- r-x rw- rwx\n\
.\n\
f\n\
log\n\
run\n\
lisa\n\
.\n",
    },
    // Named users and groups are granted nothing.
    Row {
        name: "the owner alone, after changes",
        script: b"setfacl -m u:joe:rwx,g:users:rwx f\n\
gpasswd -a joe adm\n\
usermod -g staff ann\n\
who 0 f\n\
can joe pub\n\
chmod 500 f\n\
can lisa f\n\
setfacl --restore=-\n\
# file: f\n\
# owner: joe\n\
user::r--\n\
group::rwx\n\
other::rwx\n\
.\n\
can joe f\n\
can lisa f\n\
creat --user=joe --mode=200 new\n\
may joe 0\n\
may joe w\n",
        out: b"lisa\n\
none\n\
--x r-- r-x\n\
r--\n\
none\n\
f\n\
new\n\
new\n",
    },
    Row {
        name: "the owner alone, and users who come and go",
        script: b"useradd -u 1003 -g staff bob\n\
who 0 run\n\
may bob 0\n\
userdel lisa\n\
who 0 run\n\
useradd -u 1001 -g users zoe\n\
who 0 run\n\
can zoe run\n\
may zoe r\n\
rm f log\n\
may zoe r\n",
        out: b"lisa\n\
zoe\n\
--x -w- -wx r-- r-x rw- rwx\n\
.\n\
f\n\
log\n\
run\n\
.\n\
run\n",
    },
    // Along the paths neither Joe nor Ann is granted search on the root. What `why` prints is the same whoever judges.
    Row {
        name: "the owner alone, and what changed",
        script: b"chmod 400 f\n\
creat --user=joe --mode=200 new\n\
userdel ann\n\
changes\n\
changes --reach\n\
why joe f\n",
        out: b"lisa loses -w-,rw- f\n\
joe gains -w- new\n\
ann loses --x,-w-,-wx,r--,r-x,rw-,rwx pub/\n\
lisa loses -w-,rw- f\n\
# file: f\n\
user::r--\n\
\n",
    },
];

static CLASSES: [Row; 5] = [
    Row {
        name: "one request each",
        script: b"index\n\
can lisa f\n\
can joe f\n\
can joe run\n\
who r f\n\
who rw f\n\
who 0 f\n\
may joe rx\n\
may joe r\n\
may joe 0\n",
        out: b"80 lisa .\n\
20 joe .\n\
20 ann .\n\
40 lisa f\n\
01 joe f\n\
01 ann f\n\
40 lisa log\n\
01 joe log\n\
01 ann log\n\
20 lisa pub/\n\
20 joe pub/\n\
80 ann pub/\n\
80 lisa run\n\
20 joe run\n\
20 ann run\n\
rw-\n\
none\n\
r-x\n\
lisa\n\
joe\n\
ann\n\
.\n\
pub/\n\
run\n\
f\n\
log\n",
    },
    // Search is the request x alone, so rwx on a directory is none.
    Row {
        name: "one request each, along the path",
        script: b"can --reach lisa .\n\
can --reach lisa run\n\
who --reach 0 f\n\
may --reach lisa rwx\n\
chmod 711 .\n\
who --reach rx run\n\
may --reach joe rx\n\
may --reach joe x\n\
may --reach joe 0\n\
can --reach lisa run\n",
        out: b"rwx\n\
none\n\
.\n\
joe\n\
ann\n\
pub/\n\
run\n\
.\n\
f\n\
log\n\
none\n",
    },
    Row {
        name: "one request each, and groups",
        script: b"gpasswd -a joe staff\n\
can joe f\n\
who r f\n\
usermod -g staff ann\n\
who r f\n\
can ann pub\n\
gpasswd -d joe staff\n\
can joe f\n\
gpasswd -a joe adm\n\
can joe log\n\
can joe pub\n\
chmod 771 pub\n\
can joe pub\n\
can lisa pub\n",
        out: b"r--\n\
joe\n\
joe\n\
ann\n\
rwx\n\
none\n\
r--\n\
r-x\n\
r-x\n\
--x\n",
    },
    // One request in place of another is a gain and a loss. Search alone is granted nobody on the root.
    Row {
        name: "one request each, and what changed",
        script: b"chmod 644 f\n\
chmod 751 pub\n\
changes\n\
changes --reach\n",
        out: b"joe gains r-- f\n\
ann gains r-- f\n\
lisa gains --x pub/\n\
lisa loses r-x pub/\n",
    },
    Row {
        name: "one request each, and users who come and go",
        script: b"useradd -u 1003 -g adm bob\n\
can bob log\n\
can bob f\n\
may bob rx\n\
userdel ann\n\
who rx pub\n\
chmod 000 f\n\
who 0 f\n",
        out: b"r--\n\
none\n\
.\n\
pub/\n\
run\n\
lisa\n\
joe\n\
bob\n\
lisa\n\
joe\n\
bob\n",
    },
];

/// How many verdicts a script asks for under the judge that has no quicker way.
fn asked_one_by_one(alloc: Global, row: &Row) -> u64 {
    let mut judge = OwnerAlone::new();
    let played = play(alloc, &mut judge, &WHOLE, row.script);
    played.asked
}

#[test]
fn owners_alone(rt: HostRuntime) {
    for row in &OWNERS {
        let mut judge = OwnerAlone::new();
        let played = play(rt.alloc(), &mut judge, &WHOLE, row.script);
        expect(&rt, row, &played);
    }
}

#[test]
fn owners_at_once(rt: HostRuntime) {
    for row in &OWNERS {
        let mut judge = OwnerAtOnce::new();
        let played = play(rt.alloc(), &mut judge, &WHOLE, row.script);
        expect(&rt, row, &played);
        assert!(rt;
            played.asked == asked_one_by_one(rt.alloc(), row),
            "{}",
            row.name
        );
    }
}

#[test]
fn one_request_for_each_class(rt: HostRuntime) {
    for row in &CLASSES {
        let mut judge = WholeClass::new();
        let played = play(rt.alloc(), &mut judge, &WHOLE, row.script);
        expect(&rt, row, &played);
    }
}
