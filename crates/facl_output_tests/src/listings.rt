//! What getfacl(1) prints of one file and of several.
use crate::found_files::{all_found, setup};
use acl_text::Effective;
use acl_tree::State;
use facl_output::{Options, append_listing, listing_is_loaded_again};
use std::alloc::Global;
use std::process::Abort;

const BARE: Options = Options {
    omit_header: true,
    ..Options::PLAIN
};

struct Row {
    options: Options,
    names: &'static [&'static [u8]],
    have_below: bool,
    text: &'static [u8],
}

static ROWS: [Row; 7] = [
    Row {
        options: Options::PLAIN,
        names: &[b"somedir"],
        have_below: false,
        text: b"# file: somedir\n# owner: lisa\n# group: staff\n# flags: -s-\nuser::rwx\nuser:joe:rwx\t\t\t#effective:r-x\ngroup::rwx\t\t\t#effective:r-x\ngroup:cool:r-x\nmask::r-x\nother::r-x\ndefault:user::rwx\ndefault:user:joe:rwx\t\t#effective:r-x\ndefault:group::r-x\ndefault:mask::r-x\ndefault:other::---\n\n",
    },
    Row {
        options: Options {
            effective: Effective::Always,
            ..BARE
        },
        names: &[b"pub"],
        have_below: false,
        text: b"user::rwx\ngroup::r-x\t\t\t#effective:r-x\ngroup:adm:rwx\t\t\t#effective:rwx\nmask::rwx\nother::r-x\n\n",
    },
    Row {
        options: Options {
            access_only: true,
            effective: Effective::Never,
            skip_base: true,
            numeric: true,
            ..BARE
        },
        names: &[b"somedir"],
        have_below: false,
        text: b"user::rwx\nuser:1000:rwx\ngroup::rwx\ngroup:60:r-x\nmask::r-x\nother::r-x\n\n",
    },
    Row {
        options: Options {
            numeric: true,
            ..Options::PLAIN
        },
        names: &[b"pub"],
        have_below: false,
        text: b"# file: pub/\n# owner: 1002\n# group: 100\nuser::rwx\ngroup::r-x\ngroup:70:rwx\nmask::rwx\nother::r-x\n\n",
    },
    Row {
        options: Options::PLAIN,
        names: &[b"pub"],
        have_below: true,
        text: b"# file: pub\n# owner: ann\n# group: users\nuser::rwx\ngroup::r-x\ngroup:adm:rwx\nmask::rwx\nother::r-x\n\n",
    },
    Row {
        options: Options::PLAIN,
        names: &[b"."],
        have_below: false,
        text: b"# file: .\n# owner: lisa\n# group: staff\nuser::rwx\ngroup::r-x\nother::r-x\n\n",
    },
    // Files of base entries alone are left out.
    Row {
        options: Options {
            skip_base: true,
            ..BARE
        },
        names: &[b".", b"f", b"pub"],
        have_below: false,
        text: b"user::rwx\ngroup::r-x\ngroup:adm:rwx\nmask::rwx\nother::r-x\n\n",
    },
];

fn expect_listing(rt: &impl Abort, alloc: Global, state: &State, row: &Row) {
    let files = all_found(rt, alloc, state.tree(), row.names, row.have_below);
    let mut text = Vec::new(alloc);
    append_listing(&mut text, state.people(), &row.options, &files).expect(rt, "memory");
    assert!(rt; text.as_slice() == row.text);
}

#[test]
fn files(rt: HostRuntime) {
    let state = setup(&rt, rt.alloc());
    for row in &ROWS {
        expect_listing(&rt, rt.alloc(), &state, row);
    }
    listing_is_loaded_again(state.people(), state.tree());
    drop(state);
}
