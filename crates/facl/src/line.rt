//! A line of a script: its words, its tool, its text, and what they do.

ghost use Rattle.std.specs.Prelude.{◌≡◌, ℕ, List, Option, Err, IfOk, map, string_bytes};
ghost use Rattle.facl_script.specs.Units.{UnitText};
ghost use Rattle.facl_script.specs.Held.{IsLineHeld, IsTextHeld};
ghost use Rattle.acl_rights.specs.Deciders.{judging};
ghost use Rattle.acl_rights.specs.States.{IsPrepared, states_in};
ghost use Rattle.facl_tools.specs.Replies.{Gives, Replies};
ghost use Rattle.facl.specs.Tools.{tool_line};
ghost use Rattle.facl.specs.Units.{is_silent, words_of_line, text_of, tool_reply};

use crate::tools::{Tool, tool_line};
use acl_rights::{IndexedStates, Judge};
use facl_output::LineFault;
use facl_script::{HeldLine, HeldText, split_words};
use facl_tools::Effect;
use std::alloc::Global;

/// Tells whether a line within the limit is blank or a comment.
pub(crate) fn is_silent(line: &HeldLine<'_>) -> bool
    ensures { (content : Option (List ℕ)) → IsLineHeld line.now content → result ≡ is_silent content }
{
    matches!(line, HeldLine::Silent(_))
}

/// Splits a line into words. That a line is too long is returned whatever memory there is.
pub(crate) fn words_of_line(alloc: Global, line: &HeldLine<'_>) -> Result<Vec<String>, LineFault>
    ensures words { (content : Option (List ℕ)) → IsLineHeld line.now content
        → Gives (λ words. map string_bytes words.items) result (words_of_line content) }
    ensures too_long { line.now ≡ HeldLine.TooLong → result ≡ Err LineFault.LineTooLong }
{
    match line {
        HeldLine::TooLong => Err(LineFault::LineTooLong),
        HeldLine::Silent(_) => Ok(Vec::new(alloc)),
        HeldLine::WithWords(bytes) => Ok(split_words(alloc, bytes)?),
    }
}

/// Returns the text of a line.
fn text_of_unit<'a>(text: &HeldText<'a>) -> Result<&'a [u8], LineFault>
    ensures { (content : UnitText) → IsTextHeld text.now content → Gives (λ t. t.now) result (text_of content) }
{
    match text {
        HeldText::Absent => Ok(b""),
        HeldText::Whole(text) => Ok(text),
        HeldText::TooLong => Err(LineFault::TextLineTooLong),
        HeldText::Unended => Err(LineFault::UnendedText),
        HeldText::Lost => Err(LineFault::NoMemory),
    }
}

/// Does what a tool does with the text of a line and the words after its name.
pub(crate) fn tool_reply<J: Judge>(
    alloc: Global,
    indexed_states: &IndexedStates<J>,
    text: &HeldText<'_>,
    words: &[String],
    tool: Tool,
) -> Result<Effect, LineFault>
    ensures replies { (content : UnitText) → IsTextHeld text.now content
        → Replies indexed_states.now.state result (tool_reply (judging J.verdict_of J.decider_of) (states_in indexed_states.now) content (map string_bytes words.now) tool) }
    ensures prepared { IfOk result (λ effect. IsPrepared indexed_states.now.state effect.staged) }
{
    let text = text_of_unit(text)?;
    tool_line(alloc, indexed_states, tool, words, text)
}
