//! The lines of `load`, chacl(1), chmod(1), `creat` and rm(1), and the names of tools.
use crate::words_as_text::expect_lines;
use facl::Tool;

static LINES: [(&str, &str); 77] = [
    // The three texts.
    ("load passwd", ": passwd"),
    ("load group", ": group"),
    ("load dump", ": dump"),
    ("load -- dump", ": dump"),
    ("load shadow", "usage"),
    ("load dumps", "usage"),
    ("load ''", "usage"),
    ("load", "usage"),
    ("load passwd group", "usage"),
    ("load -", "usage"),
    ("load -M-", "usage"),
    // A list and files.
    ("chacl u::7 f", ": u::7 f"),
    ("chacl u::7 f g", ": u::7 f g"),
    ("chacl -r u::7 f", "-r : u::7 f"),
    ("chacl f", "usage"),
    ("chacl -r f", "usage"),
    ("chacl", "usage"),
    ("chacl -d u::7 f", "-d : u::7 f"),
    ("chacl -d f", "usage"),
    ("chacl -b a d f", "-b : a d f"),
    ("chacl -b a d", "usage"),
    ("chacl -b a", "usage"),
    // Files alone.
    ("chacl -R f", "-R : f"),
    ("chacl -D f", "-D : f"),
    ("chacl -B f g", "-B : f g"),
    ("chacl -lr f", "-l -r : f"),
    ("chacl -R", "usage"),
    ("chacl -l", "usage"),
    // Two tasks, no long names, what follows `--`, `-`.
    ("chacl -Rl f", "usage"),
    ("chacl -bd a d f", "usage"),
    ("chacl -DB f", "usage"),
    ("chacl -RD f", "usage"),
    ("chacl --list f", "usage"),
    ("chacl -l -- -R", "-l : -R"),
    ("chacl -- -R f", ": -R f"),
    ("chacl a -", "usage"),
    ("chacl -l -", "usage"),
    // One to four octal digits.
    ("chmod 755 f", ": 755 f"),
    ("chmod -R 4755 f g", "-R : 4755 f g"),
    ("chmod 7 f", ": 7 f"),
    ("chmod 7 -R f", "-R : 7 f"),
    ("chmod 0000 f", ": 0000 f"),
    ("chmod 00755 f", "usage"),
    ("chmod 758 f", "usage"),
    ("chmod u+x f", "usage"),
    ("chmod +7 f", "usage"),
    ("chmod '' f", "usage"),
    ("chmod 755", "usage"),
    ("chmod", "usage"),
    ("chmod 755 -", "usage"),
    ("chmod --recursive 755 f", "usage"),
    // The owner and the mode are wanted; the umask is 022 where it is absent.
    (
        "creat --user=u --mode=644 f",
        "--user=u --mode=644 --umask=022 : f",
    ),
    (
        "creat -d --user u --mode 0750 --umask 077 f",
        "-d --user=u --mode=0750 --umask=077 : f",
    ),
    (
        "creat --user= --mode=7 --umask=0 f",
        "--user= --mode=7 --umask=0 : f",
    ),
    (
        "creat --user=u --mode=0777 --umask=0777 f",
        "--user=u --mode=0777 --umask=0777 : f",
    ),
    ("creat --mode=644 f", "usage"),
    ("creat --user=u f", "usage"),
    ("creat --user=u --mode= f", "usage"),
    ("creat --user=u --mode=1777 f", "usage"),
    ("creat --user=u --mode=00777 f", "usage"),
    ("creat --user=u --mode=8 f", "usage"),
    ("creat --user=u --mode=644 --umask=1000 f", "usage"),
    ("creat --user=u --mode=644 --umask=88 f", "usage"),
    ("creat --user=u --mode=644 --umask= f", "usage"),
    ("creat --user=u --mode=644", "usage"),
    ("creat --user=u --mode=644 f g", "usage"),
    ("creat --user=u --mode=644 -", "usage"),
    ("creat -u u --mode=644 f", "usage"),
    ("rm f", ": f"),
    ("rm -r f g", "-r : f g"),
    ("rm f -r", "-r : f"),
    ("rm", "usage"),
    ("rm -r", "usage"),
    ("rm -R f", "usage"),
    ("rm -rr f", "usage"),
    ("rm -f f", "usage"),
    ("rm -", "usage"),
];

#[test]
fn tool_lines(rt: HostRuntime) {
    expect_lines(&rt, rt.alloc(), &LINES);
}

/// Words, and the tools that they name.
static TOOLS: [(&str, Option<Tool>); 6] = [
    ("setfacl", Some(Tool::Setfacl)),
    ("userdel", Some(Tool::Userdel)),
    ("frob", None),
    ("Setfacl", None),
    ("loads", None),
    ("", None),
];

#[test]
fn tools_have_names(rt: HostRuntime) {
    for (name, tool) in &TOOLS {
        assert!(rt; Tool::named(name) == *tool, "{name}");
    }
    assert!(rt; Tool::Getfacl.name() == "getfacl");
    assert!(rt; Tool::Load.loads() && !Tool::Getfacl.loads());
}
