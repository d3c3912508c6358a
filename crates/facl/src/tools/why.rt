//! The tool `why`: the entries by which the judge decides on a user.

ghost use Rattle.std.specs.Prelude.{◌≡◌};
ghost use Rattle.std.specs.Option.{option_copied};
ghost use Rattle.facl_tools.specs.Replies.{Replies};
ghost use Rattle.facl.specs.Why.{answered, person_named, read};

use acl_entry::Subject;
use acl_names::Name;
use acl_people::People;
use acl_rights::{IndexedState, Judge};
use acl_tree::TreeFault;
use facl_answers::{files_asked, write_why};
use facl_output::LineFault;
use facl_script::{LineFiles, OperandRow, OptionRow, Syntax, WordRef, Words};
use facl_tools::{Effect, by_name, name_meant, one, paths_of, some};
use std::alloc::Global;

/// The words of the tool.
pub(crate) const SYNTAX: Syntax = Syntax {
    flags: &[by_name!("reach")],
    options: &[],
    operands: &[one!("user"), some!("file")],
};

/// A line of `why`.
#[derive(Drop)]
pub(crate) struct WhyLine<'a> {
    /// `--reach`: the directories above are printed too.
    pub reach: bool,
    pub user: WordRef<'a>,
    pub files: LineFiles<'a>,
}

/// Reads the line of words. `None` if they are usage.
pub(crate) fn read(words: &Words) -> Option<WhyLine<'_>>
    ensures { result ≡ read words.now }
{
    let syntax = &SYNTAX;
    let files = words.files(syntax, "file")?;
    Some(WhyLine {
        reach: words.has(syntax, "reach"),
        user: words.operand(syntax, "user"),
        files,
    })
}

/// Returns the user of a name, as the check sees one, if there is one.
fn subject_named<'a>(people: &'a People, name: &Name) -> Option<&'a Subject>
    ensures { option_copied result ≡ person_named people.now name.now }
{
    let user = people.find_user(name.as_bytes())?;
    people.subject_at(user)
}

/// Prints the entries that decide on a user, on files; with `--reach` on the recorded directories above them too.
pub(crate) fn answer<J: Judge>(
    alloc: Global,
    indexed: &IndexedState<J>,
    line: WhyLine<'_>,
) -> Result<Effect, LineFault>
    ensures { Replies indexed.now result (answered J.decider_of indexed.now line.entry) }
{
    let paths = paths_of(alloc, line.files.as_slice())?;
    let name = name_meant(alloc, &line.user)?;
    let Some(subject) = subject_named(indexed.state().people(), &name) else {
        return Err(LineFault::Tree(TreeFault::NoSuchUser { name }));
    };
    let files = files_asked(alloc, indexed.state().tree(), paths, line.reach)?;
    let out = write_why(alloc, indexed, subject, &files)?;
    Ok(Effect::prints(out))
}
