//! The tool chacl(1).

ghost use Rattle.std.specs.Prelude.{◌≡◌};
ghost use Rattle.facl_tools.specs.Chacl.{answered, list_files, on_files, put_access, put_both, put_default, read, read_access, read_both, read_default, task_of, tasks_given};
ghost use Rattle.facl_tools.specs.Replies.{Replies};

use crate::edits::{NamedFiles, edit_files};
use crate::effect::Effect;
use crate::lists::list_of_text;
use crate::operands::paths_of;
use crate::syntax::{by_letter, some};
use acl_edit::Edit;
use acl_text::Which;
use acl_tree::{Selection, State};
use facl_output::{LineFault, Source, write_chacl_listing};
use facl_script::{LineFiles, OperandRow, OptionRow, Syntax, Word, WordRef, Words};
use std::alloc::Global;

/// The words of the tool: lists, unless a flag does without them, and then files.
pub const SYNTAX: Syntax = Syntax {
    flags: &[
        by_letter!('b', "b"),
        by_letter!('d', "d"),
        by_letter!('R', "R"),
        by_letter!('D', "D"),
        by_letter!('B', "B"),
        by_letter!('l', "l"),
        by_letter!('r', "r"),
    ],
    options: &[],
    operands: &[some!("word")],
};

/// What a line does with its files.
#[derive(Drop)]
pub enum Task<'a> {
    /// Puts the access list that the word names.
    PutAccess(WordRef<'a>),
    /// `-d`: puts the default list that the word names.
    PutDefault(WordRef<'a>),
    /// `-b`: puts the access list and the default list that the words name.
    PutBoth(WordRef<'a>, WordRef<'a>),
    /// `-R`: leaves the access list with what the mode shows.
    RemoveAccess,
    /// `-D`: removes the default list.
    RemoveDefault,
    /// `-B`: both of these.
    RemoveBoth,
    /// `-l`: prints the lists.
    List,
}

/// A line of chacl(1).
#[derive(Drop)]
pub struct ChaclLine<'a> {
    pub task: Task<'a>,
    /// `-r`: with all below.
    pub recursive: bool,
    pub files: LineFiles<'a>,
}

/// Counts the given flags that select what is done.
fn tasks_given(words: &Words) -> usize
    ensures { result ≡ tasks_given words.now }
{
    let syntax = &SYNTAX;
    usize::from(words.has(syntax, "b"))
        + usize::from(words.has(syntax, "d"))
        + usize::from(words.has(syntax, "R"))
        + usize::from(words.has(syntax, "D"))
        + usize::from(words.has(syntax, "B"))
        + usize::from(words.has(syntax, "l"))
}

/// Joins a task and these files.
fn on_files<'a>(task: Task<'a>, words: &'a [Word]) -> Option<(Task<'a>, LineFiles<'a>)>
    ensures { result ≡ on_files task.entry words.now }
{
    let files = LineFiles::of(words)?;
    Some((task, files))
}

/// Reads an access list, which is put into the files after it.
fn read_access(words: &[Word]) -> Option<(Task<'_>, LineFiles<'_>)>
    ensures { result ≡ read_access words.now }
{
    let [access, files @ ..] = words else {
        return None;
    };
    let task = Task::PutAccess(WordRef::new(access.as_bytes()));
    on_files(task, files)
}

/// Reads a default list, which is put into the files after it.
fn read_default(words: &[Word]) -> Option<(Task<'_>, LineFiles<'_>)>
    ensures { result ≡ read_default words.now }
{
    let [default, files @ ..] = words else {
        return None;
    };
    let task = Task::PutDefault(WordRef::new(default.as_bytes()));
    on_files(task, files)
}

/// Reads both lists, which are put into the files after them.
fn read_both(words: &[Word]) -> Option<(Task<'_>, LineFiles<'_>)>
    ensures { result ≡ read_both words.now }
{
    let [access, default, files @ ..] = words else {
        return None;
    };
    let task = Task::PutBoth(
        WordRef::new(access.as_bytes()),
        WordRef::new(default.as_bytes()),
    );
    on_files(task, files)
}

/// Returns the task of the flag that selects what is done.
fn task_of<'a>(words: &Words, operands: &'a [Word]) -> Option<(Task<'a>, LineFiles<'a>)>
    ensures { result ≡ task_of words.now operands.now }
{
    let syntax = &SYNTAX;
    if words.has(syntax, "b") {
        read_both(operands)
    } else if words.has(syntax, "d") {
        read_default(operands)
    } else if words.has(syntax, "R") {
        on_files(Task::RemoveAccess, operands)
    } else if words.has(syntax, "D") {
        on_files(Task::RemoveDefault, operands)
    } else if words.has(syntax, "B") {
        on_files(Task::RemoveBoth, operands)
    } else if words.has(syntax, "l") {
        on_files(Task::List, operands)
    } else {
        read_access(operands)
    }
}

/// Reads the line of words. `None` if they are usage: two tasks, too few words, or a FILE that is `-`.
pub fn read(words: &Words) -> Option<ChaclLine<'_>>
    ensures { result ≡ read words.now }
{
    let syntax = &SYNTAX;
    if tasks_given(words) <= 1 {
        let operands = words.operands_from(syntax, "word");
        let (task, files) = task_of(words, operands)?;
        Some(ChaclLine {
            task,
            recursive: words.has(syntax, "r"),
            files,
        })
    } else {
        None
    }
}

fn put_access(
    alloc: Global,
    state: &State,
    files: &NamedFiles<'_>,
    text: &[u8],
) -> Result<Effect, LineFault>
    ensures { Replies state.now result (put_access state.now files.now.recursive text.now files.now.words.now) }
{
    let people = state.people();
    let access = list_of_text(alloc, people, Source::Entry, Which::Access, text)?;
    let edit = Edit::Put {
        access: Some(access),
        dacl: None,
    };
    edit_files(alloc, state, files, edit)
}

fn put_default(
    alloc: Global,
    state: &State,
    files: &NamedFiles<'_>,
    text: &[u8],
) -> Result<Effect, LineFault>
    ensures { Replies state.now result (put_default state.now files.now.recursive text.now files.now.words.now) }
{
    let people = state.people();
    let dacl = list_of_text(alloc, people, Source::DefaultEntry, Which::Default, text)?;
    let edit = Edit::Put {
        access: None,
        dacl: Some(dacl),
    };
    edit_files(alloc, state, files, edit)
}

/// Puts an access list and a default list, read in this order.
fn put_both(
    alloc: Global,
    state: &State,
    files: &NamedFiles<'_>,
    text: &[u8],
    default_text: &[u8],
) -> Result<Effect, LineFault>
    ensures { Replies state.now result (put_both state.now files.now.recursive text.now default_text.now files.now.words.now) }
{
    let people = state.people();
    let access = list_of_text(alloc, people, Source::Entry, Which::Access, text)?;
    let dacl = list_of_text(
        alloc,
        people,
        Source::DefaultEntry,
        Which::Default,
        default_text,
    )?;
    let edit = Edit::Put {
        access: Some(access),
        dacl: Some(dacl),
    };
    edit_files(alloc, state, files, edit)
}

fn list_files(alloc: Global, state: &State, files: &NamedFiles<'_>) -> Result<Effect, LineFault>
    ensures { Replies state.now result (list_files state.now files.now.recursive files.now.words.now) }
{
    let paths = paths_of(alloc, files.words)?;
    let selection = Selection {
        operands: &paths,
        recursive: files.recursive,
    };
    let files = state.tree().files(alloc, &selection)?;
    let out = write_chacl_listing(alloc, state.people(), &files)?;
    Ok(Effect::prints(out))
}

/// Puts or removes lists of files, or prints them.
pub fn answer(alloc: Global, state: &State, line: ChaclLine<'_>) -> Result<Effect, LineFault>
    ensures { Replies state.now result (answered state.now line.entry) }
{
    let ChaclLine {
        task,
        recursive,
        files,
    } = line;
    let files = NamedFiles {
        words: files.as_slice(),
        recursive,
    };
    let (access, dacl) = match task {
        Task::PutAccess(text) => return put_access(alloc, state, &files, text.as_bytes()),
        Task::PutDefault(text) => return put_default(alloc, state, &files, text.as_bytes()),
        Task::PutBoth(access, default) => {
            let (access, default) = (access.as_bytes(), default.as_bytes());
            return put_both(alloc, state, &files, access, default);
        }
        Task::List => return list_files(alloc, state, &files),
        Task::RemoveAccess => (true, false),
        Task::RemoveDefault => (false, true),
        Task::RemoveBoth => (true, true),
    };
    edit_files(alloc, state, &files, Edit::Flatten { access, dacl })
}
