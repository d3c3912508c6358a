//! Tests of which lines of a script ask for a text.
use facl_script::HeldLine;
use facl_tools::{asks_for_text, is_text_word};

#[test]
fn finds_text_lines(rt: HostRuntime) {
    let ask = [
        b"load".as_slice(),
        b"'lo'ad x",
        b"frob -",
        b"setfacl '-' f",
        b"setfacl -M- f",
        b"x \t-X-",
        b"x --modify-file=-",
        b"x --remove-file=-",
        b"x --set-file=-",
        b"x --restore=-",
        b"\xff -",
    ];
    for line in ask {
        assert!(rt; asks_for_text(&HeldLine::of(line)));
    }
    let ask_for_none = [
        b"".as_slice(),
        b"# -",
        b"-",
        b"'load",
        b"x load",
        b"loads",
        b"loa d",
        b"x '-",
        b"x --",
        b"x -M",
        b"x -M=-",
        b"x --modify-file=--",
        b"x --modify-file=-x",
        b"x --modify-file=-0123456789",
    ];
    for line in ask_for_none {
        assert!(rt; !asks_for_text(&HeldLine::of(line)));
    }
    assert!(rt; is_text_word(b"--restore=-"));
}
