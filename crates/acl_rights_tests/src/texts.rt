//! The users, groups and files that most tests begin with.

pub const PASSWD: &[u8] = b"lisa:x:1001:50:Lisa:/home/lisa:/bin/sh\n\
joe:x:1000:100:Joe:/home/joe:/bin/sh\nann:x:1002:100:Ann:/home/ann:/bin/sh\n";

pub const GROUP: &[u8] = b"staff:x:50:\nusers:x:100:\ncool:x:60:lisa\nadm:x:70:\n";

pub const FILES: &[u8] =
    b"# file: .\n# owner: lisa\n# group: staff\nuser::rwx\ngroup::r-x\nother::r-x\n\n\
# file: f\n# owner: lisa\n# group: staff\nuser::rw-\ngroup::r--\nother::---\n\n\
# file: run\n# owner: lisa\n# group: staff\nuser::rwx\ngroup::r-x\nother::r-x\n\n\
# file: pub/\n# owner: ann\n# group: users\nuser::rwx\ngroup::r-x\ngroup:adm:rwx\nmask::rwx\nother::r-x\n\n\
# file: log\n# owner: lisa\n# group: adm\nuser::rw-\ngroup::r--\nother::---\n\n";

/// The places of the users.
pub const LISA: usize = 0;

pub const JOE: usize = 1;

pub const ANN: usize = 2;
