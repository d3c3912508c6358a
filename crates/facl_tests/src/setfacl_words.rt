//! setfacl(1)'s lines.
use crate::words_as_text::expect_lines;

static LINES: [(&str, &str); 94] = [
    // An option's value, attached and apart.
    ("setfacl -m u:joe:rwx f", "-m=u:joe:rwx : f"),
    ("setfacl -mu:joe:rwx f", "-m=u:joe:rwx : f"),
    ("setfacl -m=u:joe:rwx f", "-m=u:joe:rwx : f"),
    ("setfacl --modify=u::7 f", "-m=u::7 : f"),
    ("setfacl --modify u::7 f", "-m=u::7 : f"),
    ("setfacl -m==7 f", "-m==7 : f"),
    ("setfacl -m '' f", "-m= : f"),
    ("setfacl -m= f", "-m= : f"),
    ("setfacl --modify= f", "-m= : f"),
    ("setfacl -x-m f", "-x=-m : f"),
    ("setfacl --remove=-m f", "-x=-m : f"),
    ("setfacl --remove=a f g", "-x=a : f g"),
    // Bundles.
    ("setfacl -nRmu::7 f g", "-n -R -m=u::7 : f g"),
    ("setfacl -nRm u::7 f", "-n -R -m=u::7 : f"),
    ("setfacl -nRm=u::7 f", "-n -R -m=u::7 : f"),
    ("setfacl -mask f", "-m=ask : f"),
    ("setfacl -mn f", "-m=n : f"),
    // A value that is missing, or an option in its place.
    ("setfacl f -m", "usage"),
    ("setfacl -m -x f", "usage"),
    ("setfacl -m -5 f", "usage"),
    ("setfacl -m -- f", "usage"),
    // Given twice, abbreviated, with a value that is not wanted, in the other case.
    ("setfacl -ma -mb f", "usage"),
    ("setfacl -m a --modify=b f", "usage"),
    ("setfacl -nn -m a f", "usage"),
    ("setfacl --mod=a f", "usage"),
    ("setfacl --mask=a -m a f", "usage"),
    ("setfacl --mask= -m a f", "usage"),
    ("setfacl -n=a -m a f", "usage"),
    ("setfacl --MASK -m a f", "usage"),
    // All flags.
    ("setfacl -b f", "-b : f"),
    ("setfacl -k f", "-k : f"),
    ("setfacl -bkdR -m a -x b f", "-b -k -d -R -m=a -x=b : f"),
    (
        "setfacl --remove-all --remove-default --no-mask f",
        "-b -k -n : f",
    ),
    (
        "setfacl --mask --default --recursive --test -m a f",
        "--mask -d -R --test -m=a : f",
    ),
    ("setfacl -m a -- -R", "-m=a : -R"),
    // Neither entries nor lists are changed.
    ("setfacl f", "usage"),
    ("setfacl -n f", "usage"),
    ("setfacl --mask f", "usage"),
    ("setfacl -dR --test f", "usage"),
    ("setfacl", "usage"),
    // No files.
    ("setfacl -b", "usage"),
    ("setfacl -m a", "usage"),
    ("setfacl --set a", "usage"),
    ("setfacl -M -", "usage"),
    // One thing in two ways.
    ("setfacl -m a -M - f", "usage"),
    ("setfacl -x a -X - f", "usage"),
    ("setfacl --set a --set-file - f", "usage"),
    ("setfacl -n --mask -m a f", "usage"),
    // Whole lists, with nothing of what changes lists.
    ("setfacl --set a f", "--set=a : f"),
    ("setfacl --set=a -ndR f", "-n -d -R --set=a : f"),
    ("setfacl --set a -b f", "usage"),
    ("setfacl --set a -k f", "usage"),
    ("setfacl --set a -m b f", "usage"),
    ("setfacl --set a -M - f", "usage"),
    ("setfacl --set a -x b f", "usage"),
    ("setfacl --set a -X - f", "usage"),
    ("setfacl --set-file=- -m a f", "usage"),
    ("setfacl --set-file - -b f", "usage"),
    // Texts: each spelling that takes one, and those that do not.
    ("setfacl -M - f", "-M=- : f"),
    ("setfacl -M- f", "-M=- : f"),
    ("setfacl --modify-file=- f", "-M=- : f"),
    ("setfacl --modify-file - f", "-M=- : f"),
    ("setfacl -X - f", "-X=- : f"),
    ("setfacl -X- f", "-X=- : f"),
    ("setfacl --remove-file=- f", "-X=- : f"),
    ("setfacl --set-file=- f", "--set-file=- : f"),
    ("setfacl --set-file - f", "--set-file=- : f"),
    ("setfacl -nM - f", "-n -M=- : f"),
    ("setfacl -m a -X - f", "-m=a -X=- : f"),
    ("setfacl -M=- f", "usage"),
    ("setfacl -nM- f", "usage"),
    ("setfacl -m - f", "usage"),
    ("setfacl -x - f", "usage"),
    ("setfacl -M a f", "usage"),
    ("setfacl -X a f", "usage"),
    ("setfacl --set-file=a f", "usage"),
    ("setfacl --restore=a", "usage"),
    ("setfacl -M a -x - f", "usage"),
    ("setfacl -M - -X - f", "usage"),
    ("setfacl -M - --restore=-", "usage"),
    // `-` names no file.
    ("setfacl -m a -", "usage"),
    ("setfacl -nM- -", "usage"),
    ("setfacl -M - ./-", "-M=- : ./-"),
    // A dump, with `--test` alone.
    ("setfacl --restore=-", "--restore=- :"),
    ("setfacl --restore -", "--restore=- :"),
    ("setfacl --restore - --test", "--test --restore=- :"),
    ("setfacl --restore=- f", "usage"),
    ("setfacl --restore=- -R", "usage"),
    ("setfacl --restore=- -n", "usage"),
    ("setfacl --restore=- --mask", "usage"),
    ("setfacl --restore=- -d", "usage"),
    ("setfacl --restore=- -b", "usage"),
    ("setfacl --restore=- -m a", "usage"),
    ("setfacl --restore=- --set a", "usage"),
];

#[test]
fn setfacl_lines(rt: HostRuntime) {
    expect_lines(&rt, rt.alloc(), &LINES);
}
