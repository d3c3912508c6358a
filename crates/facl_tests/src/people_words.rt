//! The lines of gpasswd(1), usermod(8), useradd(8) and userdel(8).
use crate::words_as_text::expect_lines;

static LINES: [(&str, &str); 49] = [
    // One user joins, or one leaves.
    ("gpasswd -a joe adm", "-a=joe : adm"),
    ("gpasswd -d joe adm", "-d=joe : adm"),
    ("gpasswd adm -ajoe", "-a=joe : adm"),
    ("gpasswd adm", "usage"),
    ("gpasswd -a joe -d ann adm", "usage"),
    ("gpasswd -a joe", "usage"),
    ("gpasswd -a joe adm cool", "usage"),
    ("gpasswd -a - adm", "usage"),
    // The group is wanted.
    ("usermod -g staff joe", "-g=staff : joe"),
    ("usermod -g50 joe", "-g=50 : joe"),
    ("usermod joe", "usage"),
    ("usermod -g staff", "usage"),
    ("usermod -g 50 -g 60 joe", "usage"),
    ("usermod -g staff joe ann", "usage"),
    // An id and a group are wanted.
    ("useradd -u 1003 -g staff bob", "-u=1003 -g=staff : bob"),
    ("useradd -g staff bob", "usage"),
    ("useradd -u 1003 bob", "usage"),
    ("useradd -u 7 -g s", "usage"),
    ("useradd -u 7 -g s bob ann", "usage"),
    // An id is digits alone, at most 4294967294.
    ("useradd -u 0 -g s b", "-u=0 -g=s : b"),
    ("useradd -u 4294967294 -g s b", "-u=4294967294 -g=s : b"),
    (
        "useradd -u 0000000000000000000000007 -g s b",
        "-u=0000000000000000000000007 -g=s : b",
    ),
    ("useradd -u 4294967295 -g s b", "usage"),
    ("useradd -u 4294967296 -g s b", "usage"),
    ("useradd -u 99999999999999999999999 -g s b", "usage"),
    ("useradd -u +7 -g s b", "usage"),
    ("useradd -u x -g s b", "usage"),
    ("useradd -u 7x -g s b", "usage"),
    ("useradd -u '' -g s b", "usage"),
    ("useradd -u -7 -g s b", "usage"),
    // The decoded name is not empty, not digits alone, and contains no colon, comma, line feed or NUL.
    ("useradd -u 7 -g s b7", "-u=7 -g=s : b7"),
    ("useradd -u 7 -g s a\\040b", "-u=7 -g=s : a\\040b"),
    ("useradd -u 7 -g s \\", "-u=7 -g=s : \\"),
    ("useradd -u 7 -g s ''", "usage"),
    ("useradd -u 7 -g s 12", "usage"),
    ("useradd -u 7 -g s \\061\\062", "usage"),
    ("useradd -u 7 -g s 1\\062", "usage"),
    ("useradd -u 7 -g s a:b", "usage"),
    ("useradd -u 7 -g s a\\072b", "usage"),
    ("useradd -u 7 -g s a,b", "usage"),
    ("useradd -u 7 -g s a\\054b", "usage"),
    ("useradd -u 7 -g s a\\012b", "usage"),
    ("useradd -u 7 -g s a\\000", "usage"),
    ("useradd -u 7 -g s a\\\\072", "-u=7 -g=s : a\\\\072"),
    ("userdel joe", ": joe"),
    ("userdel", "usage"),
    ("userdel joe ann", "usage"),
    ("userdel -r joe", "usage"),
    ("userdel -", "usage"),
];

#[test]
fn people_lines(rt: HostRuntime) {
    expect_lines(&rt, rt.alloc(), &LINES);
}
