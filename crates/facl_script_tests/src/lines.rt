//! Tests of the words of lines.
use facl_script::{HeldLine, SplitFault, has_no_words, split_words};
use std::alloc::Global;
use std::process::Abort;

/// Lines, each with its words in brackets.
static WORDS: [(&[u8], &str); 6] = [
    (b" a\tb  'c d'e '' x'#'\r ", "[a][b][c de][][x#\r]"),
    (b"\xc3\xa9'\xc3\xbc \xc3\xb1'", "[éü ñ]"),
    (b"", ""),
    (b" \t ", ""),
    (b"#", ""),
    (b"\t# ' \xff", ""),
];

fn push(rt: &impl Abort, text: &mut String, part: &str) {
    text.push_str(part).expect(rt, "memory");
}

fn push_words(rt: &impl Abort, text: &mut String, words: &[String]) {
    for word in words {
        push(rt, text, "[");
        push(rt, text, word.as_str());
        push(rt, text, "]");
    }
}

fn expect_words(rt: &impl Abort, alloc: Global, line: &[u8], want: &str) {
    let words = match HeldLine::of(line) {
        HeldLine::WithWords(line) => split_words(alloc, line).expect(rt, "words"),
        HeldLine::Silent(_) | HeldLine::TooLong => Vec::new(alloc),
    };
    let mut text = String::new(alloc);
    push_words(rt, &mut text, &words);
    assert!(rt; text.as_str() == want, "{want}");
}

#[test]
fn splits_words(rt: HostRuntime) {
    for (line, words) in &WORDS {
        expect_words(&rt, rt.alloc(), line, words);
        assert!(rt; has_no_words(line) == words.is_empty());
    }
    assert!(rt; !has_no_words(b"\r"));
}

fn expect_fault(rt: &impl Abort, alloc: Global, line: &[u8], want: SplitFault) {
    assert!(rt; split_words(alloc, line).err() == Some(want));
}

#[test]
fn refuses_lines(rt: HostRuntime) {
    expect_fault(&rt, rt.alloc(), b"can 'joe f", SplitFault::OpenQuote);
    expect_fault(&rt, rt.alloc(), b"can \xff 'joe", SplitFault::NotUtf8);
}
