//! The program's own words.
use facl_script::{WordsFault, read_args};
use std::alloc::Global;
use std::process::Abort;

static LINES: [(&str, &str); 13] = [
    ("--passwd p --group g --dump d", "p g d"),
    ("--dump=d --passwd=p", "p none d"),
    ("--group g", "none g none"),
    ("--passwd=", " none none"),
    ("--", "none none none"),
    ("--dump -", "none none -"),
    ("--dump", "usage"),
    ("--dump d --dump e", "usage"),
    ("--dum=d", "usage"),
    ("-d d", "usage"),
    ("f", "usage"),
    ("--help", "usage"),
    ("''", "usage"),
];

/// The words of a line, between single spaces; `''` is an empty one.
fn words_of(rt: &impl Abort, alloc: Global, line: &str) -> Vec<String> {
    let mut words = Vec::new(alloc);
    for word in line.split(' ') {
        let text = if word == "''" { "" } else { word };
        words
            .push(String::from_str(alloc, text).expect(rt, "memory"))
            .expect(rt, "memory");
    }
    words
}

fn file_text(file: &Option<String>) -> &str {
    match file {
        Some(name) => name.as_str(),
        None => "none",
    }
}

fn files_text(rt: &impl Abort, alloc: Global, files: &[Option<String>; 3]) -> String {
    let [passwd, group, dump] = files;
    let (passwd, group, dump) = (file_text(passwd), file_text(group), file_text(dump));
    format!(in alloc; "{passwd} {group} {dump}").expect(rt, "memory")
}

fn read_text(rt: &impl Abort, alloc: Global, words: &[String]) -> String {
    match read_args(alloc, words) {
        Ok(files) => files_text(rt, alloc, &files),
        Err(WordsFault::Usage) => String::from_str(alloc, "usage").expect(rt, "memory"),
        Err(WordsFault::NoMemory) => String::from_str(alloc, "no memory").expect(rt, "memory"),
    }
}

fn expect_files(rt: &impl Abort, alloc: Global, words: &[String], answer: &str) {
    assert!(rt; read_text(rt, alloc, words).as_str() == answer, "{answer}");
}

#[test]
fn words_of_the_program(rt: HostRuntime) {
    let alloc = rt.alloc();
    for (line, answer) in &LINES {
        expect_files(&rt, alloc, &words_of(&rt, alloc, line), answer);
    }
    expect_files(&rt, alloc, &[], "none none none");
}
