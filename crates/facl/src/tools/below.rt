//! The tool `below`: the users who may do something with a file at or below some paths, or these files of one user, or
//! how many there are folder by folder.

ghost use Rattle.std.specs.Prelude.{◌≡◌};
ghost use Rattle.acl_text.specs.Ids.{id_of};
ghost use Rattle.facl.specs.Below.{answered, counts_answered, folders_answered, kind_for, listed_answered, place_of, read, shown_for};
ghost use Rattle.facl_tools.specs.Replies.{Gives, Replies};

use acl_edit::Kind;
use acl_people::People;
use acl_rights::{IndexedState, Judge};
use acl_text::{read_id, read_perms};
use facl_counts::{Asked, Folders, Listing, write_below, write_folders, write_listed};
use facl_output::LineFault;
use facl_script::{LineFiles, OperandRow, OptionRow, Syntax, WordRef, Words};
use facl_tools::{Effect, by_name, one, paths_of, some, user_at};
use std::alloc::Global;

/// The words of the tool.
pub(crate) const SYNTAX: Syntax = Syntax {
    flags: &[
        by_name!("reach"),
        by_name!("plain"),
        by_name!("directories"),
    ],
    options: &[by_name!("user"), by_name!("list"), by_name!("depth")],
    operands: &[one!("perms"), some!("file")],
};

/// What is printed of the files that count.
#[derive(Drop)]
pub(crate) enum Shown<'a> {
    /// For each user how many there are, and the first of them.
    Counts,
    /// `--user`, `--list`: the first ones of one user.
    Listed {
        user: WordRef<'a>,
        most: usize,
    },
    /// `--depth`: how many there are in each folder down to a depth, of all users, or of one with `--user`.
    Folders {
        user: Option<WordRef<'a>>,
        depth: usize,
    },
}

/// A line of `below`.
#[derive(Drop)]
pub(crate) struct BelowLine<'a> {
    /// `--reach`: search on the directories above is required too.
    pub reach: bool,
    /// The permissions in question, and which files count.
    pub asked: Asked,
    pub shown: Shown<'a>,
    pub files: LineFiles<'a>,
}

/// Returns the kind of files that count, or none if all do: `--plain` and `--directories` exclude each other.
fn kind_for(plain: bool, directories: bool) -> Option<Option<Kind>>
    ensures { result ≡ kind_for plain directories }
{
    match (plain, directories) {
        (true, true) => None,
        (true, false) => Some(Some(Kind::Plain)),
        (false, true) => Some(Some(Kind::Directory)),
        (false, false) => Some(None),
    }
}

/// Reads the number of an option: digits alone, at most 4294967294.
fn number_of(word: &WordRef<'_>) -> Option<usize>
    ensures { result ≡ id_of word.now }
{
    let number = read_id(word.as_bytes())?;
    Some(number.number() as usize)
}

/// Returns what is printed: `--list` comes with `--user`, `--user` with `--list` or `--depth`, and these two exclude
/// each other.
fn shown_for<'a>(
    user: Option<WordRef<'a>>,
    list: Option<WordRef<'a>>,
    depth: Option<WordRef<'a>>,
) -> Option<Shown<'a>>
    ensures { result ≡ shown_for user.entry list.entry depth.entry }
{
    match (user, list, depth) {
        (None, None, None) => Some(Shown::Counts),
        (Some(user), Some(list), None) => Some(Shown::Listed {
            user,
            most: number_of(&list)?,
        }),
        (user, None, Some(depth)) => Some(Shown::Folders {
            user,
            depth: number_of(&depth)?,
        }),
        _ => None,
    }
}

/// Reads the line of words. `None` if they are usage.
pub(crate) fn read(words: &Words) -> Option<BelowLine<'_>>
    ensures { result ≡ read words.now }
{
    let syntax = &SYNTAX;
    let kind = kind_for(words.has(syntax, "plain"), words.has(syntax, "directories"))?;
    let shown = shown_for(
        words.value(syntax, "user"),
        words.value(syntax, "list"),
        words.value(syntax, "depth"),
    )?;
    let request = read_perms(words.operand(syntax, "perms").as_bytes())?;
    let files = words.files(syntax, "file")?;
    Some(BelowLine {
        reach: words.has(syntax, "reach"),
        asked: Asked { request, kind },
        shown,
        files,
    })
}

/// Prints the users who may do something with a file at or below some paths, each with the number of these files and
/// the first of them.
fn answer_counts<J: Judge>(
    alloc: Global,
    indexed: &IndexedState<J>,
    line: &BelowLine<'_>,
) -> Result<Effect, LineFault>
    ensures { Replies indexed.now result (counts_answered J.verdict_of indexed.now line.now) }
{
    let paths = paths_of(alloc, line.files.as_slice())?;
    let verdicts = indexed.verdicts(line.reach);
    let out = write_below(alloc, &verdicts, &line.asked, &paths)?;
    Ok(Effect::prints(out))
}

/// Prints the first of the files at or below some paths with which a user may do something.
fn answer_listed<J: Judge>(
    alloc: Global,
    indexed: &IndexedState<J>,
    line: &BelowLine<'_>,
    user: &WordRef<'_>,
    most: usize,
) -> Result<Effect, LineFault>
    ensures { Replies indexed.now result (listed_answered J.verdict_of indexed.now line.now user.now most) }
{
    let paths = paths_of(alloc, line.files.as_slice())?;
    let user = user_at(alloc, indexed.state().people(), user)?;
    let verdicts = indexed.verdicts(line.reach);
    let listing = Listing {
        asked: line.asked,
        user,
        most,
    };
    let out = write_listed(alloc, &verdicts, &listing, &paths)?;
    Ok(Effect::prints(out))
}

/// Returns the place of the user whom a word means, if there is a word.
fn place_of(
    alloc: Global,
    people: &People,
    user: &Option<WordRef<'_>>,
) -> Result<Option<usize>, LineFault>
    ensures { Gives (λ place. place) result (place_of people.now user.now) }
{
    match user {
        Some(word) => Ok(Some(user_at(alloc, people, word)?)),
        None => Ok(None),
    }
}

/// Prints the users who may do something with a file in a folder, for each folder at or below some paths, each with the
/// number of these files.
fn answer_folders<J: Judge>(
    alloc: Global,
    indexed: &IndexedState<J>,
    line: &BelowLine<'_>,
    user: &Option<WordRef<'_>>,
    depth: usize,
) -> Result<Effect, LineFault>
    ensures { Replies indexed.now result (folders_answered J.verdict_of indexed.now line.now user.now depth) }
{
    let paths = paths_of(alloc, line.files.as_slice())?;
    let user = place_of(alloc, indexed.state().people(), user)?;
    let verdicts = indexed.verdicts(line.reach);
    let which = Folders {
        asked: line.asked,
        user,
        depth,
    };
    let out = write_folders(alloc, &verdicts, &which, &paths)?;
    Ok(Effect::prints(out))
}

/// Answers a line; with `--reach` a file counts only if the user can search each recorded directory above it, with
/// `--plain` and `--directories` only if it is of this kind.
pub(crate) fn answer<J: Judge>(
    alloc: Global,
    indexed: &IndexedState<J>,
    line: BelowLine<'_>,
) -> Result<Effect, LineFault>
    ensures { Replies indexed.now result (answered J.verdict_of indexed.now line.entry) }
{
    match &line.shown {
        Shown::Counts => answer_counts(alloc, indexed, &line),
        Shown::Listed { user, most } => answer_listed(alloc, indexed, &line, user, *most),
        Shown::Folders { user, depth } => answer_folders(alloc, indexed, &line, user, *depth),
    }
}
