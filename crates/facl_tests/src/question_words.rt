//! The lines of `attr`, `setattr`, `can`, `who`, `may`, `below`, `why` and `index`.
use crate::words_as_text::expect_lines;

static LINES: [(&str, &str); 93] = [
    ("attr f", ": f"),
    ("attr", "usage"),
    ("attr f g", "usage"),
    ("attr -a f", "usage"),
    ("attr -", "usage"),
    // One of two attributes, `=`, and `0x` or `0X`.
    (
        "setattr system.posix_acl_access=0x02 f",
        ": system.posix_acl_access=0x02 f",
    ),
    (
        "setattr system.posix_acl_default=0X f",
        ": system.posix_acl_default=0X f",
    ),
    (
        "setattr system.posix_acl_access=0xzz f",
        ": system.posix_acl_access=0xzz f",
    ),
    (
        "setattr system.posix_acl_default=0x0 f",
        ": system.posix_acl_default=0x0 f",
    ),
    (
        "setattr system.posix_acl_access=0X0 f",
        ": system.posix_acl_access=0X0 f",
    ),
    ("setattr system.posix_acl_access f", "usage"),
    ("setattr system.posix_acl_access0x f", "usage"),
    ("setattr system.posix_acl_access=02 f", "usage"),
    ("setattr user.name=0x02 f", "usage"),
    ("setattr system.posix_acl_other=0x02 f", "usage"),
    ("setattr '' f", "usage"),
    ("setattr system.posix_acl_access=0x02", "usage"),
    ("setattr system.posix_acl_access=0x02 -", "usage"),
    ("can joe f", ": joe f"),
    ("can joe", "usage"),
    ("can joe f g", "usage"),
    ("can - f", "usage"),
    ("can joe -", "usage"),
    ("can -- -joe f", ": -joe f"),
    // Permissions: letters, one octal digit, or nothing; after `--` they may begin with `-`.
    ("who w f", ": w f"),
    ("who rwx- f", ": rwx- f"),
    ("who 7 f", ": 7 f"),
    ("who 0 f", ": 0 f"),
    ("who '' f", ": '' f"),
    ("who -- -w f", ": -w f"),
    ("who 8 f", "usage"),
    ("who 07 f", "usage"),
    ("who rX f", "usage"),
    ("who R f", "usage"),
    ("who -w f", "usage"),
    ("who w", "usage"),
    ("who w -", "usage"),
    ("who", "usage"),
    ("who w f g", "usage"),
    ("who X f", "usage"),
    ("who - f", "usage"),
    ("who -- - f", "usage"),
    ("who rwxrwx f", ": rwxrwx f"),
    ("who w, f", "usage"),
    ("who u:w f", "usage"),
    ("may joe rx", ": joe rx"),
    ("may joe 2", ": joe 2"),
    ("may joe ''", ": joe ''"),
    ("may -- joe -r", ": joe -r"),
    ("may joe q", "usage"),
    ("may joe X", "usage"),
    ("may joe 9", "usage"),
    ("may joe -r", "usage"),
    ("may joe", "usage"),
    ("may joe r f", "usage"),
    ("may", "usage"),
    ("may -joe r", "usage"),
    ("may -- -joe r", ": -joe r"),
    ("may joe rwX", "usage"),
    ("may joe 10", "usage"),
    ("may joe -", "usage"),
    ("may '' r", ": '' r"),
    ("below w f", ": w f"),
    ("below w f g f", ": w f g f"),
    ("below 7 ''", ": 7 ''"),
    ("below -- -w f", ": -w f"),
    ("below w ./-", ": w ./-"),
    ("below q f", "usage"),
    ("below -w f", "usage"),
    ("below w", "usage"),
    ("below w -", "usage"),
    ("below w f -", "usage"),
    ("below", "usage"),
    ("below -R w f", "usage"),
    ("why joe f", ": joe f"),
    ("why joe f g f", ": joe f g f"),
    ("why '' f", ": '' f"),
    ("why -- -joe f", ": -joe f"),
    ("why joe ./-", ": joe ./-"),
    ("why", "usage"),
    ("why joe", "usage"),
    ("why - f", "usage"),
    ("why joe -", "usage"),
    ("why joe f -", "usage"),
    ("why joe -- -", "usage"),
    ("why -R joe f", "usage"),
    ("index", ":"),
    ("index --", ":"),
    ("index f", "usage"),
    ("index ''", "usage"),
    ("index -a", "usage"),
    ("index .", "usage"),
    ("index -", "usage"),
];

/// `--plain` and `--directories` of `below`.
static KIND_LINES: [(&str, &str); 9] = [
    ("below --plain w f", "--plain : w f"),
    ("below w f --directories", "--directories : w f"),
    (
        "below --directories w --reach f g",
        "--reach --directories : w f g",
    ),
    ("below --plain --directories w f", "usage"),
    ("below w f --directories --reach --plain", "usage"),
    ("below --plain --plain w f", "usage"),
    ("below --plain=1 w f", "usage"),
    ("below --directory w f", "usage"),
    // No other tool has them.
    ("who --plain w f", "usage"),
];

/// `--user` and `--list` of `below`.
static LISTED_LINES: [(&str, &str); 17] = [
    ("below --user joe --list 3 w f", "--user=joe --list=3 : w f"),
    ("below w f --list=0 --user=joe", "--user=joe --list=0 : w f"),
    (
        "below --plain --list 007 w --user=1 f g --reach",
        "--reach --plain --user=1 --list=007 : w f g",
    ),
    (
        "below --user= --list 4294967294 w f",
        "--user= --list=4294967294 : w f",
    ),
    ("below --user joe w f", "usage"),
    ("below --list 3 w f", "usage"),
    ("below --list x w f", "usage"),
    ("below --user joe --list x w f", "usage"),
    ("below --user joe --list= w f", "usage"),
    ("below --user joe --list -1 w f", "usage"),
    ("below --user joe --list +1 w f", "usage"),
    ("below --user joe --list 0x1 w f", "usage"),
    ("below --user joe --list 4294967295 w f", "usage"),
    ("below --user joe --user ann --list 3 w f", "usage"),
    ("below --user joe --list 3 --list 3 w f", "usage"),
    ("below --user joe --list 3 w", "usage"),
    // No other tool has them.
    ("may --list 3 joe w", "usage"),
];

/// `--depth` of `below`, alone or with `--user`.
static DEPTH_LINES: [(&str, &str); 11] = [
    ("below --depth 1 w f", "--depth=1 : w f"),
    (
        "below --user joe --depth=0 w f",
        "--user=joe --depth=0 : w f",
    ),
    (
        "below w f g --depth 007 --directories --reach",
        "--reach --directories --depth=007 : w f g",
    ),
    ("below --depth 4294967294 w f", "--depth=4294967294 : w f"),
    ("below --depth 4294967295 w f", "usage"),
    ("below --depth x w f", "usage"),
    ("below --depth= w f", "usage"),
    ("below --depth 1 --list 1 w f", "usage"),
    ("below --user joe --depth 1 --list 1 w f", "usage"),
    ("below --depth 1 --depth 1 w f", "usage"),
    // No other tool has it.
    ("may --depth 1 joe w", "usage"),
];

/// `--reach` of `can`, `who`, `may`, `below` and `why`, which has no letter.
static REACH_LINES: [(&str, &str); 57] = [
    ("below --reach w f g", "--reach : w f g"),
    ("below w f --reach", "--reach : w f"),
    ("below --reach w", "usage"),
    ("can --reach joe f", "--reach : joe f"),
    ("can joe --reach f", "--reach : joe f"),
    ("can joe f --reach", "--reach : joe f"),
    ("can --reach -- joe f", "--reach : joe f"),
    ("can --reach -- -joe f", "--reach : -joe f"),
    // After `--` it is an operand.
    ("can -- --reach f", ": --reach f"),
    ("can joe f -- --reach", "usage"),
    ("can --reach -- --reach f", "--reach : --reach f"),
    ("can --reach", "usage"),
    ("can --reach joe", "usage"),
    ("can --reach joe f g", "usage"),
    ("can --reach joe -", "usage"),
    ("can --reach --reach joe f", "usage"),
    ("can --reach joe f --reach", "usage"),
    // It takes no value, and has no abbreviation and no letter.
    ("can --reach= joe f", "usage"),
    ("can --reach=yes joe f", "usage"),
    ("can --rea joe f", "usage"),
    ("can --Reach joe f", "usage"),
    ("can -reach joe f", "usage"),
    ("can -r joe f", "usage"),
    ("can reach f", ": reach f"),
    ("who --reach w f", "--reach : w f"),
    ("who w --reach f", "--reach : w f"),
    ("who w f --reach", "--reach : w f"),
    ("who --reach 0 f", "--reach : 0 f"),
    ("who --reach '' f", "--reach : '' f"),
    ("who --reach -- -w f", "--reach : -w f"),
    ("who --reach -w f", "usage"),
    ("who --reach X f", "usage"),
    ("who --reach f", "usage"),
    ("who -r w f", "usage"),
    ("who --reach --reach w f", "usage"),
    ("may --reach joe rx", "--reach : joe rx"),
    ("may joe --reach rx", "--reach : joe rx"),
    ("may joe rx --reach", "--reach : joe rx"),
    ("may --reach -- joe -r", "--reach : joe -r"),
    ("may --reach joe -r", "usage"),
    ("may --reach joe X", "usage"),
    ("may --reach joe", "usage"),
    ("may -r joe rx", "usage"),
    ("may joe rx --reach=1", "usage"),
    ("why --reach joe f", "--reach : joe f"),
    ("why joe --reach f", "--reach : joe f"),
    ("why joe f --reach", "--reach : joe f"),
    ("why joe f --reach g", "--reach : joe f g"),
    ("why -- joe --reach", ": joe --reach"),
    ("why --reach joe", "usage"),
    ("why --reach --reach joe f", "usage"),
    ("why --reach=1 joe f", "usage"),
    ("why -r joe f", "usage"),
    // These tools do not have it.
    ("index --reach", "usage"),
    ("getfacl --reach f", "usage"),
    ("chacl -l --reach f", "usage"),
    ("userdel --reach joe", "usage"),
];

#[test]
fn query_lines(rt: HostRuntime) {
    expect_lines(&rt, rt.alloc(), &LINES);
}

#[test]
fn kind_lines(rt: HostRuntime) {
    expect_lines(&rt, rt.alloc(), &KIND_LINES);
}

#[test]
fn lines_with_a_user_and_a_list(rt: HostRuntime) {
    expect_lines(&rt, rt.alloc(), &LISTED_LINES);
}

#[test]
fn lines_with_a_depth(rt: HostRuntime) {
    expect_lines(&rt, rt.alloc(), &DEPTH_LINES);
}

#[test]
fn reach_lines(rt: HostRuntime) {
    expect_lines(&rt, rt.alloc(), &REACH_LINES);
}
