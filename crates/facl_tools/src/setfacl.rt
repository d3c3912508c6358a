//! The tool setfacl(1): its words, the line that they give, and what it does.
ghost use Rattle.facl_tools.specs.Replies.{Replies, Gives};
ghost use Rattle.facl_tools.specs.Setfacl.{answered, change_files, change_line, edit_of, records_of, restore_line};
ghost use Rattle.std.specs.Prelude.{◌≡◌};
ghost use Rattle.facl_tools.specs.SetfaclLine.{change_of, changes_entries, contradicts_itself, entries_from, flags_of, has_edit_flag, read, read_change, read_restore, replaces_lists};

use crate::effect::Effect;
use crate::operands::paths_of;
use crate::setfacl_entries::{ChangeEntries, both_at, drops, entries_of_line};
use crate::syntax::{any, both, by_name};
use crate::tested::{edit_or_test, restore_or_test};
use acl_edit::Edit;
use acl_people::People;
use acl_text::{DumpUse, read_dump};
use acl_tree::{DumpRecords, State};
use facl_output::{LineFault, Source};
use facl_script::{LineFiles, OperandRow, OptionRow, Syntax, WordRef, Words};
use std::alloc::Global;

/// Makes the edit of a line's options and entries.
fn edit_of(flags: ChangeFlags, entries: ChangeEntries) -> Edit
    ensures { result ≡ edit_of flags entries }
{
    let ChangeEntries {
        remove,
        set,
        modify,
    } = entries;
    Edit::Change {
        strip: flags.strip,
        drop_default: flags.drop_default,
        as_default: flags.as_default,
        no_mask: flags.no_mask,
        remask: flags.remask,
        remove,
        set,
        modify,
    }
}

/// Changes the lists of the files of a line.
fn change_files(
    alloc: Global,
    state: &State,
    line: &ChangeLine<'_>,
    entries: ChangeEntries,
) -> Result<Effect, LineFault>
    ensures { Replies state.now result (change_files state.now line.now entries) }
{
    let paths = paths_of(alloc, line.files.as_slice())?;
    let warns = drops(line.flags.as_default, &entries);
    let edit = edit_of(line.flags, entries);
    let effect = edit_or_test(alloc, state, line, paths, edit)?;
    Ok(effect.warning(warns))
}

/// Changes the lists of files.
fn change(
    alloc: Global,
    state: &State,
    line: &ChangeLine<'_>,
    text: &[u8],
) -> Result<Effect, LineFault>
    ensures { Replies state.now result (change_line state.now line.now text.now) }
{
    let entries = entries_of_line(alloc, state.people(), line, text)?;
    match both_at(alloc, line.flags.as_default, &entries)? {
        Some(at) => Err(LineFault::Both { at }),
        None => change_files(alloc, state, line, entries),
    }
}

/// Reads the records of a dump that is restored.
#[tactic(auto, unfolding(crate::specs::Setfacl::records_of))]
fn records_of(alloc: Global, people: &People, dump: &[u8]) -> Result<DumpRecords, LineFault>
    ensures { Gives (λ records. records) result (records_of people.now dump.now) }
{
    match read_dump(alloc, dump, DumpUse::Restore, people) {
        Ok(records) => Ok(DumpRecords::new(records)),
        Err(fault) => Err(LineFault::of_text(Source::TextLine, fault)),
    }
}

/// Restores the files of a dump.
fn restore(alloc: Global, state: &State, dump: &[u8], is_test: bool) -> Result<Effect, LineFault>
    ensures { Replies state.now result (restore_line state.now is_test dump.now) }
{
    let records = records_of(alloc, state.people(), dump)?;
    restore_or_test(alloc, state, records, is_test)
}

/// Changes lists, or restores those of a dump.
pub fn answer(
    alloc: Global,
    state: &State,
    line: SetfaclLine<'_>,
    text: &[u8],
) -> Result<Effect, LineFault>
    ensures { Replies state.now result (answered state.now line.entry text.now) }
{
    match line {
        SetfaclLine::Change(line) => change(alloc, state, &line, text),
        SetfaclLine::Restore { test } => restore(alloc, state, text, test),
    }
}

/// The words of the tool.
pub const SYNTAX: Syntax = Syntax {
    flags: &[
        both!('b', "remove-all"),
        both!('k', "remove-default"),
        both!('n', "no-mask"),
        by_name!("mask"),
        both!('d', "default"),
        both!('R', "recursive"),
        by_name!("test"),
    ],
    options: &[
        both!('m', "modify"),
        both!('M', "modify-file", of_text),
        both!('x', "remove"),
        both!('X', "remove-file", of_text),
        by_name!("set"),
        by_name!("set-file", of_text),
        by_name!("restore", of_text),
    ],
    operands: &[any!("file")],
};

/// Where the entries of an option are.
#[derive(Debug, Drop)]
pub enum EntrySource<'a> {
    /// In its word, with a comma between each two.
    InWord(WordRef<'a>),
    /// In the text after the line, each on a line.
    InText,
}

/// The flags of a line that say how it changes a list.
#[derive(Clone, Copy, Debug)]
pub struct ChangeFlags {
    /// `-b`: the access list keeps its base entries with what they grant, and the default list goes.
    pub strip: bool,
    /// `-k`: the default list goes.
    pub drop_default: bool,
    /// `-d`: plain entries are entries of the default list, and default entries are dropped.
    pub as_default: bool,
    /// `-n`: no mask is recalculated.
    pub no_mask: bool,
    /// `--mask`: the mask is recalculated even if one was given.
    pub remask: bool,
}

/// A line of setfacl(1) that changes lists.
#[derive(Debug, Drop)]
pub struct ChangeLine<'a> {
    pub flags: ChangeFlags,
    /// `-R`: with all files below the operands.
    pub recursive: bool,
    /// `--test`: the lists are printed, and nothing changes.
    pub test: bool,
    /// `-x`, `-X`: the entries that are removed.
    pub removed: Option<EntrySource<'a>>,
    /// `-m`, `-M`: the entries that are modified or added.
    pub modified: Option<EntrySource<'a>>,
    /// `--set`, `--set-file`: the entries that replace a list.
    pub set: Option<EntrySource<'a>>,
    pub files: LineFiles<'a>,
}

/// A line of setfacl(1), but for its text.
#[derive(Debug, Drop)]
pub enum SetfaclLine<'a> {
    /// The lists of files are changed or replaced.
    Change(ChangeLine<'a>),
    /// `--restore`: a dump, which is the text, is put back; with `--test` it is only tried.
    Restore { test: bool },
}

/// Returns where the entries of an option are: in its word, or in the text after the line.
fn entries_from<'a>(word: Option<WordRef<'a>>, in_text: bool) -> Option<EntrySource<'a>>
    ensures { result ≡ entries_from word.entry in_text }
{
    match word {
        Some(word) => Some(EntrySource::InWord(word)),
        None if in_text => Some(EntrySource::InText),
        None => None,
    }
}

/// Tells whether entries are removed or modified.
fn changes_entries(words: &Words) -> bool
    ensures { result ≡ changes_entries words.now }
{
    let syntax = &SYNTAX;
    words.has(syntax, "remove-all")
        || words.has(syntax, "remove-default")
        || words.gives(syntax, "modify")
        || words.gives(syntax, "modify-file")
        || words.gives(syntax, "remove")
        || words.gives(syntax, "remove-file")
}

fn replaces_lists(words: &Words) -> bool
    ensures { result ≡ replaces_lists words.now }
{
    let syntax = &SYNTAX;
    words.gives(syntax, "set") || words.gives(syntax, "set-file")
}

/// Tells whether one thing is given in two ways.
fn contradicts_itself(words: &Words) -> bool
    ensures { result ≡ contradicts_itself words.now }
{
    let syntax = &SYNTAX;
    (words.gives(syntax, "modify") && words.gives(syntax, "modify-file"))
        || (words.gives(syntax, "remove") && words.gives(syntax, "remove-file"))
        || (words.gives(syntax, "set") && words.gives(syntax, "set-file"))
        || (words.has(syntax, "no-mask") && words.has(syntax, "mask"))
}

/// Tells whether a flag determines how lists are changed.
fn has_edit_flag(words: &Words) -> bool
    ensures { result ≡ has_edit_flag words.now }
{
    let syntax = &SYNTAX;
    words.has(syntax, "no-mask")
        || words.has(syntax, "mask")
        || words.has(syntax, "default")
        || words.has(syntax, "recursive")
}

/// Returns the flags that say how lists are changed.
fn flags_of(words: &Words) -> ChangeFlags
    ensures { result ≡ flags_of words.now }
{
    let syntax = &SYNTAX;
    ChangeFlags {
        strip: words.has(syntax, "remove-all"),
        drop_default: words.has(syntax, "remove-default"),
        as_default: words.has(syntax, "default"),
        no_mask: words.has(syntax, "no-mask"),
        remask: words.has(syntax, "mask"),
    }
}

/// Makes the line that changes these files.
fn change_of<'a>(words: &'a Words, files: LineFiles<'a>) -> ChangeLine<'a>
    ensures { result ≡ change_of words.now files.entry }
{
    let syntax = &SYNTAX;
    ChangeLine {
        flags: flags_of(words),
        recursive: words.has(syntax, "recursive"),
        test: words.has(syntax, "test"),
        removed: entries_from(
            words.value(syntax, "remove"),
            words.gives(syntax, "remove-file"),
        ),
        modified: entries_from(
            words.value(syntax, "modify"),
            words.gives(syntax, "modify-file"),
        ),
        set: entries_from(words.value(syntax, "set"), words.gives(syntax, "set-file")),
        files,
    }
}

/// Reads a line that restores a dump, with nothing else but `--test`.
fn read_restore(words: &Words) -> Option<SetfaclLine<'_>>
    ensures { result ≡ read_restore words.now }
{
    let syntax = &SYNTAX;
    if changes_entries(words)
        || replaces_lists(words)
        || has_edit_flag(words)
        || !words.operands_from(syntax, "file").is_empty()
    {
        None
    } else {
        Some(SetfaclLine::Restore {
            test: words.has(syntax, "test"),
        })
    }
}

/// Reads a line that changes entries or replaces whole lists.
fn read_change(words: &Words) -> Option<SetfaclLine<'_>>
    ensures { result ≡ read_change words.now }
{
    if contradicts_itself(words) || changes_entries(words) == replaces_lists(words) {
        None
    } else {
        let files = words.files(&SYNTAX, "file")?;
        Some(SetfaclLine::Change(change_of(words, files)))
    }
}

/// Reads the line of words. `None` if they are usage.
pub fn read(words: &Words) -> Option<SetfaclLine<'_>>
    ensures { result ≡ read words.now }
{
    if words.gives(&SYNTAX, "restore") {
        read_restore(words)
    } else {
        read_change(words)
    }
}
