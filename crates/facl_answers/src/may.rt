//! What `may` prints: the files on which a user is granted a request.

ghost use Rattle.std.specs.Prelude.{◌≡◌, ◌<◌, [], if◌then◌else◌, false, length, IfOk, OnOk, option_map};
ghost use Rattle.std.specs.Option.{option_map_or};
ghost use Rattle.std.specs.List.{flat_map};
ghost use Rattle.acl_entry.specs.Check.{has};
ghost use Rattle.acl_names.specs.Appends.{Appends};
ghost use Rattle.facl_answers.specs.Answers.{file_line, may_text};
ghost use Rattle.facl_answers.specs.Inner.{AreGranted, IsGranted, files_left, granted_text, rowed_file, walked};

use crate::file_walk::{FileInClass, Walk};
use acl_entry::{Perm, Requests};
use acl_rights::{FileClasses, Judge, Verdicts};
use acl_tree::FoundFile;
use facl_output::push_path_shown;
use std::alloc::{AllocError, Global};

/// Adds the line of a file.
pub fn push_file(text: &mut Vec<u8>, file: &FoundFile<'_>) -> Result<(), AllocError>
    ensures { Appends result text.old text.new (file_line file.now) }
{
    push_path_shown(text, file)?;
    text.push(b'\n')?;
    Ok(())
}

/// Tells whether a verdict, if there is one, contains a request.
fn contains(verdict: Option<Requests>, request: Perm) -> bool
    ensures { result ≡ option_map_or (λ c. has c request) verdict false }
{
    match verdict {
        Some(granted) => granted.has(request),
        None => false,
    }
}

/// Tells whether a user is granted a request on the files of a class, by a table of the first classes, which grows if
/// it does not have the class.
fn is_granted(
    table: &mut Vec<bool>,
    classes: &FileClasses<'_>,
    class: usize,
    user: usize,
    request: Perm,
) -> Result<bool, AllocError>
    requires there { class < length classes.now.0 }
    requires known { AreGranted request user classes.now.0 table.old.items }
    ensures known { OnOk result (AreGranted request user classes.now.0 table.new.items) }
    ensures granted { IfOk result (λ granted. IsGranted request user classes.now.0 class granted) }
{
    while table.len() <= class {
        let granted = contains(classes.cell(table.len(), user), request);
        table.push(granted)?;
    }
    Ok(table[class])
}

/// Adds the line of a file before those of `rest`, if a request is granted on it.
fn push_granted(
    text: &mut Vec<u8>,
    granted: bool,
    file: &FileInClass<'_>,
    rest: &Walk<'_>,
) -> Result<(), AllocError>
    ensures { Appends result text.old text.new (if granted then file_line (rowed_file (walked rest.now) file.now).0 else []) }
{
    if granted {
        push_file(text, &file.found(rest))
    } else {
        Ok(())
    }
}

/// Adds the lines of the files that are left of a walk, if their classes grant a user a request.
fn push_files(
    alloc: Global,
    text: &mut Vec<u8>,
    rest: &mut Walk<'_>,
    user: usize,
    request: Perm,
) -> Result<(), AllocError>
    ensures { Appends result text.old text.new (flat_map (granted_text request user) (files_left (walked rest.old))) }
{
    let mut table = Vec::new(alloc);
    while let Some(file) = rest.next(alloc)? {
        let granted = is_granted(&mut table, &rest.classes, file.class, user, request)?;
        push_granted(text, granted, &file, rest)?;
    }
    Ok(())
}

/// Writes what `may` prints: the files on which a user is granted a request, a line each, in path order. `None` past
/// the last user.
pub fn write_may<J: Judge>(
    alloc: Global,
    verdicts: &Verdicts<'_, J>,
    user: usize,
    request: Perm,
) -> Result<Option<Vec<u8>>, AllocError>
    ensures { IfOk result (λ text. option_map (λ t. t.items) text ≡ may_text J.verdict_of verdicts.now.along verdicts.now.state.now request user) }
{
    let Some(_row) = verdicts.state.state().people().user_row(user) else {
        return Ok(None);
    };
    let mut text = Vec::new(alloc);
    let mut files = Walk::of_verdicts(alloc, verdicts);
    files.classes.keep_apart();
    push_files(alloc, &mut text, &mut files, user, request)?;
    Ok(Some(text))
}
