//! The tools of a script: a row for each, with its name and the words that it takes; the line that these give; and what
//! it does.

mod below;
mod can;
mod changes;
mod gains;
mod index;
pub(crate) mod laws;
mod may;
mod who;
mod why;

ghost use Rattle.std.specs.Prelude.{◌≡◌, IfOk, map, option_map, string_bytes};
ghost use Rattle.std.specs.List.{find};
ghost use Rattle.std.specs.Str.{bytes_eq};
ghost use Rattle.acl_rights.specs.Deciders.{judging};
ghost use Rattle.acl_rights.specs.States.{loaded_state};
ghost use Rattle.facl_script.specs.Rows.{syntax_view};
ghost use Rattle.facl_tools.specs.Replies.{Gives, Replies};
ghost use Rattle.facl.specs.ToolLines.{answered, line_answered, line_of, read_line, words_taken};
ghost use Rattle.facl.specs.Tools.{loads, row_of, row_view, rows, syntax_of, tool_line, tool_name, tool_named, words_of};
ghost use Rattle.facl.specs.contracts.tools.ToolPartialEq.TheImpl.{ghosts as equality};

use acl_rights::{IndexedStates, Judge};
use facl_output::LineFault;
use facl_script::{Syntax, Words};
use facl_tools::{
    Effect, attr, chacl, chmod, creat, getfacl, gpasswd, load, read_by, rm, setattr, setfacl,
    useradd, userdel, usermod,
};
use std::alloc::{AllocError, Global};

/// A tool that a line of a script may name.
#[derive(Clone, Copy, PartialEq, Eq)]
pub enum Tool {
    /// Loads a text: passwd(5), group(5), or a dump of getfacl(1).
    Load,
    /// getfacl(1).
    Getfacl,
    /// setfacl(1).
    Setfacl,
    /// chacl(1).
    Chacl,
    /// chmod(1).
    Chmod,
    /// Makes a file or a directory.
    Creat,
    /// rm(1).
    Rm,
    /// gpasswd(1).
    Gpasswd,
    /// usermod(8).
    Usermod,
    /// Prints a file's lists as the attributes that acl(5) keeps them in.
    Attr,
    /// Puts a list from such an attribute.
    Setattr,
    /// What a user may do with a file.
    Can,
    /// Who may do something with a file.
    Who,
    /// With which files a user may do something.
    May,
    /// Who may do something with a file at or below some paths.
    Below,
    /// Which entries decide on a user.
    Why,
    /// What each user may do with each file.
    Index,
    /// What the script has changed so far in who may do what.
    Changes,
    /// What each user has gained and lost so far, on how many files.
    Gains,
    /// useradd(8).
    Useradd,
    /// userdel(8).
    Userdel,
}

/// A row of the table of tools: all that is known of a tool but its reader and its effect.
#[derive(Clone, Copy)]
struct ToolRow {
    tool: Tool,
    /// The first word of its lines.
    name: &'static str,
    /// Its flags, options and operands.
    syntax: Syntax,
    /// Whether it loads a text.
    loads: bool,
}

/// A row: a tool, its name and its syntax; `loads` if it loads a text.
macro_rules! row {
    ($tool:ident, $name:literal, $syntax:path) => {
        ToolRow {
            tool: Tool::$tool,
            name: $name,
            syntax: $syntax,
            loads: false,
        }
    };
    ($tool:ident, $name:literal, $syntax:path, loads) => {
        ToolRow {
            tool: Tool::$tool,
            name: $name,
            syntax: $syntax,
            loads: true,
        }
    };
}

/// Each tool, once.
static TOOLS: &[ToolRow] = &[
    row!(Load, "load", load::SYNTAX, loads),
    row!(Getfacl, "getfacl", getfacl::SYNTAX),
    row!(Setfacl, "setfacl", setfacl::SYNTAX),
    row!(Chacl, "chacl", chacl::SYNTAX),
    row!(Chmod, "chmod", chmod::SYNTAX),
    row!(Creat, "creat", creat::SYNTAX),
    row!(Rm, "rm", rm::SYNTAX),
    row!(Gpasswd, "gpasswd", gpasswd::SYNTAX),
    row!(Usermod, "usermod", usermod::SYNTAX),
    row!(Attr, "attr", attr::SYNTAX),
    row!(Setattr, "setattr", setattr::SYNTAX),
    row!(Can, "can", can::SYNTAX),
    row!(Who, "who", who::SYNTAX),
    row!(May, "may", may::SYNTAX),
    row!(Below, "below", below::SYNTAX),
    row!(Why, "why", why::SYNTAX),
    row!(Index, "index", index::SYNTAX),
    row!(Changes, "changes", changes::SYNTAX),
    row!(Gains, "gains", gains::SYNTAX),
    row!(Useradd, "useradd", useradd::SYNTAX),
    row!(Userdel, "userdel", userdel::SYNTAX),
];

fn rows() -> &'static [ToolRow]
    ensures { map row_view result.now ≡ rows }
{
    TOOLS
}

fn row_with_tool(rows: &[ToolRow], tool: Tool) -> Option<&ToolRow>
    ensures { option_map (λ row. row.now) result ≡ find (λ row. equality.eq row.tool tool) rows.now }
{
    rows.iter().find(|row| row.tool == tool)
}

fn row_with_name<'a>(rows: &'a [ToolRow], name: &str) -> Option<&'a ToolRow>
    ensures { option_map (λ row. row.now) result ≡ find (λ row. bytes_eq row.name.now name.now) rows.now }
{
    rows.iter().find(|row| row.name == name)
}

#[tactic(auto, unfolding(crate::specs::Tools::row_for, crate::specs::Tools::row_of))]
fn row_of(tool: Tool) -> &'static ToolRow
    ensures { row_view result.now ≡ row_of tool }
{
    match row_with_tool(TOOLS, tool) {
        Some(row) => row,
        None => unreachable!(),
    }
}

impl Tool {
    /// Returns the tool's name: the first word of its lines.
    pub fn name(self) -> &'static str
        ensures { result.now ≡ tool_name self }
    {
        row_of(self).name
    }

    /// Returns the tool of this name.
    pub fn named(name: &str) -> Option<Tool>
        ensures { result ≡ tool_named name.now }
    {
        match row_with_name(rows(), name) {
            Some(row) => Some(row.tool),
            None => None,
        }
    }

    /// Tells whether the tool loads a text: after a line of it, what a script has changed is counted from there.
    pub fn loads(self) -> bool
        ensures { result ≡ loads self }
    {
        row_of(self).loads
    }
}

/// Returns the words that a tool takes: flags, options and operands.
pub fn syntax_of(tool: Tool) -> &'static Syntax
    ensures { syntax_view result.now ≡ syntax_of tool }
{
    &row_of(tool).syntax
}

/// A line of a script, but for its text.
#[derive(Drop)]
pub(crate) enum ToolLine<'a> {
    Load(load::LoadLine),
    Getfacl(getfacl::GetfaclLine<'a>),
    Setfacl(setfacl::SetfaclLine<'a>),
    Chacl(chacl::ChaclLine<'a>),
    Chmod(chmod::ChmodLine<'a>),
    Creat(creat::CreatLine<'a>),
    Rm(rm::RmLine<'a>),
    Gpasswd(gpasswd::GpasswdLine<'a>),
    Usermod(usermod::UsermodLine<'a>),
    Attr(attr::AttrLine<'a>),
    Setattr(setattr::SetattrLine<'a>),
    Can(can::CanLine<'a>),
    Who(who::WhoLine<'a>),
    May(may::MayLine<'a>),
    Below(below::BelowLine<'a>),
    Why(why::WhyLine<'a>),
    Index,
    Changes(changes::ChangesLine),
    Gains(gains::GainsLine),
    Useradd(useradd::UseraddLine<'a>),
    Userdel(userdel::UserdelLine<'a>),
}

/// Reads the line of `load`, which borrows nothing from its words.
fn load_line(words: &Words) -> Option<ToolLine<'_>>
    ensures { result ≡ read_line Tool.Load words.now }
{
    let line = load::read(words)?;
    Some(ToolLine::Load(line))
}

/// Reads the line of a tool. `None` if its words are usage.
fn read_line(alloc: Global, tool: Tool, words: &Words) -> Result<Option<ToolLine<'_>>, AllocError>
    ensures { IfOk result (λ line. line ≡ read_line tool words.now) }
{
    match tool {
        Tool::Load => Ok(load_line(words)),
        Tool::Getfacl => Ok(getfacl::read(words).map(ToolLine::Getfacl)),
        Tool::Setfacl => Ok(setfacl::read(words).map(ToolLine::Setfacl)),
        Tool::Chacl => Ok(chacl::read(words).map(ToolLine::Chacl)),
        Tool::Chmod => Ok(chmod::read(words).map(ToolLine::Chmod)),
        Tool::Creat => Ok(creat::read(words).map(ToolLine::Creat)),
        Tool::Rm => Ok(rm::read(words).map(ToolLine::Rm)),
        Tool::Gpasswd => Ok(gpasswd::read(words).map(ToolLine::Gpasswd)),
        Tool::Usermod => Ok(usermod::read(words).map(ToolLine::Usermod)),
        Tool::Attr => Ok(attr::read(words).map(ToolLine::Attr)),
        Tool::Setattr => Ok(setattr::read(words).map(ToolLine::Setattr)),
        Tool::Can => Ok(can::read(words).map(ToolLine::Can)),
        Tool::Who => Ok(who::read(words).map(ToolLine::Who)),
        Tool::May => Ok(may::read(words).map(ToolLine::May)),
        Tool::Below => Ok(below::read(words).map(ToolLine::Below)),
        Tool::Why => Ok(why::read(words).map(ToolLine::Why)),
        Tool::Index => Ok(Some(ToolLine::Index)),
        Tool::Changes => Ok(Some(ToolLine::Changes(changes::read(words)))),
        Tool::Gains => Ok(Some(ToolLine::Gains(gains::read(words)))),
        Tool::Useradd => Ok(useradd::read(alloc, words)?.map(ToolLine::Useradd)),
        Tool::Userdel => Ok(Some(ToolLine::Userdel(userdel::read(words)))),
    }
}

/// Reads the line of a tool, or returns usage.
#[tactic(auto, unfolding(crate::specs::ToolLines::line_of))]
fn line_of(alloc: Global, tool: Tool, words: &Words) -> Result<ToolLine<'_>, LineFault>
    ensures { Gives (λ line. line) result (line_of tool words.now) }
{
    match read_line(alloc, tool, words)? {
        Some(line) => Ok(line),
        None => Err(LineFault::Usage),
    }
}

/// Reads the words after a tool's name by its syntax.
#[tactic(auto, unfolding(crate::specs::Tools::row_for, crate::specs::Tools::row_of, crate::specs::Tools::words_of))]
fn words_of(alloc: Global, tool: Tool, words: &[String]) -> Result<Words, LineFault>
    ensures { Gives (λ w. w) result (words_of tool (map string_bytes words.now)) }
{
    Ok(read_by(alloc, syntax_of(tool), words)?)
}

/// Reads the words after a tool's name as flags, the values of options and operands, each in the order of the tool's
/// syntax.
///
/// # Errors
///
/// `Usage` if `clap` or the tool's own rules refuse the words; `NoMemory` only if memory runs out.
pub fn read_words(alloc: Global, tool: Tool, words: &[String]) -> Result<Words, LineFault>
    ensures { Gives (λ w. w) result (words_taken tool (map string_bytes words.now)) }
{
    let words = words_of(alloc, tool, words)?;
    line_of(alloc, tool, &words)?;
    Ok(words)
}

/// Does what a line does at a state. Questions of who may do what are answered from the index of the state.
#[tactic(auto, unfolding(crate::specs::ToolLines::answered))]
fn answer<J: Judge>(
    alloc: Global,
    indexed_states: &IndexedStates<J>,
    line: ToolLine<'_>,
    text: &[u8],
) -> Result<Effect, LineFault>
    ensures { Replies indexed_states.now.state result (answered (judging J.verdict_of J.decider_of) (loaded_state indexed_states.now) indexed_states.now.state line.entry text.now) }
{
    let indexed = indexed_states.state();
    let state = indexed.state();
    match line {
        ToolLine::Load(line) => load::answer(alloc, state, line, text),
        ToolLine::Getfacl(line) => getfacl::answer(alloc, state, line),
        ToolLine::Setfacl(line) => setfacl::answer(alloc, state, line, text),
        ToolLine::Chacl(line) => chacl::answer(alloc, state, line),
        ToolLine::Chmod(line) => chmod::answer(alloc, state, line),
        ToolLine::Creat(line) => creat::answer(alloc, state, line),
        ToolLine::Rm(line) => rm::answer(alloc, state, line),
        ToolLine::Gpasswd(line) => gpasswd::answer(alloc, state, line),
        ToolLine::Usermod(line) => usermod::answer(alloc, state, line),
        ToolLine::Attr(line) => attr::answer(alloc, state, line),
        ToolLine::Setattr(line) => setattr::answer(alloc, state, line),
        ToolLine::Can(line) => can::answer(alloc, indexed, line),
        ToolLine::Who(line) => who::answer(alloc, indexed, line),
        ToolLine::May(line) => may::answer(alloc, indexed, line),
        ToolLine::Below(line) => below::answer(alloc, indexed, line),
        ToolLine::Why(line) => why::answer(alloc, indexed, line),
        ToolLine::Index => index::answer(alloc, indexed),
        ToolLine::Changes(line) => changes::answer(alloc, indexed_states, line),
        ToolLine::Gains(line) => gains::answer(alloc, indexed_states, line),
        ToolLine::Useradd(line) => useradd::answer(alloc, state, line),
        ToolLine::Userdel(line) => userdel::answer(alloc, state, line),
    }
}

/// Does what the line of these words does at a state.
fn line_answer<J: Judge>(
    alloc: Global,
    indexed_states: &IndexedStates<J>,
    tool: Tool,
    words: &Words,
    text: &[u8],
) -> Result<Effect, LineFault>
    ensures { Replies indexed_states.now.state result (line_answered (judging J.verdict_of J.decider_of) (loaded_state indexed_states.now) indexed_states.now.state tool words.now text.now) }
{
    let line = line_of(alloc, tool, words)?;
    answer(alloc, indexed_states, line, text)
}

/// Does what a tool does at a state, by the words after its name and the text after the line. `changes` and `gains`
/// alone look at the state after the texts were loaded.
pub(crate) fn tool_line<J: Judge>(
    alloc: Global,
    indexed_states: &IndexedStates<J>,
    tool: Tool,
    words: &[String],
    text: &[u8],
) -> Result<Effect, LineFault>
    ensures { Replies indexed_states.now.state result (tool_line (judging J.verdict_of J.decider_of) (loaded_state indexed_states.now) indexed_states.now.state tool (map string_bytes words.now) text.now) }
{
    let words = words_of(alloc, tool, words)?;
    let effect = line_answer(alloc, indexed_states, tool, &words, text);
    drop(words);
    effect
}
