//! The texts that are loaded before a script.

use facl::Setup;

const PASSWD: &[u8] = b"lisa:x:1001:50:Lisa:/home/lisa:/bin/sh\n\
joe:x:1000:100:Joe:/home/joe:/bin/sh\n\
ann:x:1002:100:Ann:/home/ann:/bin/sh\n";

const GROUP: &[u8] = b"staff:x:50:\n\
users:x:100:\n\
cool:x:60:lisa\n\
adm:x:70:\n";

const DUMP: &[u8] = b"# file: .\n\
# owner: lisa\n\
# group: staff\n\
user::rwx\n\
group::r-x\n\
other::r-x\n\
\n\
# file: f\n\
# owner: lisa\n\
# group: staff\n\
user::rw-\n\
group::r--\n\
other::---\n\
\n\
# file: run\n\
# owner: lisa\n\
# group: staff\n\
user::rwx\n\
group::r-x\n\
other::r-x\n\
\n\
# file: pub/\n\
# owner: ann\n\
# group: users\n\
user::rwx\n\
group::r-x\n\
group:adm:rwx\n\
mask::rwx\n\
other::r-x\n\
\n\
# file: log\n\
# owner: lisa\n\
# group: adm\n\
user::rw-\n\
group::r--\n\
other::---\n";

pub const NOTHING: Setup<'static> = Setup {
    passwd: None,
    group: None,
    dump: None,
};

/// Users and groups alone.
pub const PEOPLE: Setup<'static> = Setup {
    passwd: Some(PASSWD),
    group: Some(GROUP),
    dump: None,
};

/// Five files.
pub const WHOLE: Setup<'static> = Setup {
    passwd: Some(PASSWD),
    group: Some(GROUP),
    dump: Some(DUMP),
};
