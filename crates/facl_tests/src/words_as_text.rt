//! The words that are read of a line, as text: the flags and options that were given, in the order of the
//! table, a colon, and the operands. An empty operand is `''`, and a refused line is `usage`.
use facl::{Tool, read_words, syntax_of};
use facl_output::LineFault;
use facl_script::{OptionRow, Word, Words};
use std::alloc::Global;
use std::process::Abort;

fn push(rt: &impl Abort, text: &mut String, part: &str) {
    text.push_str(part).expect(rt, "memory");
}

/// A flag or an option as the manual pages write it: by its letter where it has one.
fn push_label(rt: &impl Abort, text: &mut String, row: &OptionRow) {
    match row.short {
        Some(letter) => {
            push(rt, text, "-");
            text.push(letter).expect(rt, "memory");
        }
        None => {
            push(rt, text, "--");
            push(rt, text, row.id);
        }
    }
}

fn push_flag(rt: &impl Abort, text: &mut String, row: &OptionRow) {
    push_label(rt, text, row);
    push(rt, text, " ");
}

fn push_flags(rt: &impl Abort, text: &mut String, tool: Tool, words: &Words) {
    for row in syntax_of(tool).flags {
        if words.has(syntax_of(tool), row.id) {
            push_flag(rt, text, row);
        }
    }
}

fn push_option(rt: &impl Abort, text: &mut String, row: &OptionRow, value: &[u8]) {
    push_label(rt, text, row);
    push(rt, text, "=");
    push(rt, text, str::from_utf8(value).expect(rt, "UTF-8"));
    push(rt, text, " ");
}

fn push_options(rt: &impl Abort, text: &mut String, tool: Tool, words: &Words) {
    for row in syntax_of(tool).options {
        if let Some(value) = words.value(syntax_of(tool), row.id) {
            push_option(rt, text, row, value.as_bytes());
        }
    }
}

fn operand_text(operand: &str) -> &str {
    if operand.is_empty() { "''" } else { operand }
}

fn push_operands(rt: &impl Abort, text: &mut String, operands: &[Word]) {
    for operand in operands {
        push(rt, text, " ");
        push(rt, text, operand_text(operand.as_str()));
    }
}

fn push_words(rt: &impl Abort, text: &mut String, tool: Tool, words: &Words) {
    push_flags(rt, text, tool, words);
    push_options(rt, text, tool, words);
    push(rt, text, ":");
    push_operands(rt, text, words.operands.as_slice());
}

/// The words of a line, between single spaces; `''` is an empty one.
pub(crate) fn words_of(rt: &impl Abort, alloc: Global, line: &str) -> Vec<String> {
    let mut words = Vec::new(alloc);
    for word in line.split(' ') {
        let text = if word == "''" { "" } else { word };
        words
            .push(String::from_str(alloc, text).expect(rt, "memory"))
            .expect(rt, "memory");
    }
    words
}

fn push_read(rt: &impl Abort, alloc: Global, text: &mut String, tool: Tool, rest: &[String]) {
    match read_words(alloc, tool, rest) {
        Ok(words) => push_words(rt, text, tool, &words),
        Err(LineFault::Usage) => push(rt, text, "usage"),
        Err(_) => push(rt, text, "no memory"),
    }
}

fn tool_of(words: &[String]) -> Option<Tool> {
    Tool::named(words.first()?.as_str())
}

fn push_line(rt: &impl Abort, alloc: Global, text: &mut String, words: &[String]) {
    let tool = tool_of(words).expect(rt, "a tool");
    let (_, rest) = words.split_first().expect(rt, "a word");
    push_read(rt, alloc, text, tool, rest);
}

/// What is read of a line, whose first word is its tool.
fn expect_line(rt: &impl Abort, alloc: Global, line: &str, answer: &str) {
    let words = words_of(rt, alloc, line);
    let mut text = String::new(alloc);
    push_line(rt, alloc, &mut text, &words);
    assert!(rt; text.as_str() == answer, "{line}");
}

/// Each line is read as its answer.
pub(crate) fn expect_lines(rt: &impl Abort, alloc: Global, lines: &[(&str, &str)]) {
    for (line, answer) in lines {
        expect_line(rt, alloc, line, answer);
    }
}
