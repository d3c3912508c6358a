//! What `who` prints: the users who are granted a request on a file.

ghost use Rattle.std.specs.Prelude.{◌≡◌, IfOk, option_map};
ghost use Rattle.acl_names.specs.Appends.{Appends};
ghost use Rattle.std.specs.List.{flat_map};
ghost use Rattle.facl_answers.specs.Answers.{who_text};
ghost use Rattle.facl_answers.specs.Inner.{line_at};

use acl_entry::Perm;
use acl_names::{Path, append_name};
use acl_people::People;
use acl_rights::{Judge, Verdicts};
use std::alloc::{AllocError, Global};

fn push_user(text: &mut Vec<u8>, people: &People, user: usize) -> Result<(), AllocError>
    ensures { Appends result text.old text.new (line_at people.now user) }
{
    if let Some(row) = people.user_row(user) {
        append_name(text, row.name.as_bytes())?;
        text.push(b'\n')?;
    }
    Ok(())
}

fn push_users(text: &mut Vec<u8>, people: &People, users: &[usize]) -> Result<(), AllocError>
    ensures { Appends result text.old text.new (flat_map (line_at people.now) users.now) }
{
    for user in users {
        push_user(text, people, *user)?;
    }
    Ok(())
}

/// Writes what `who` prints: the users who are granted a request on a file, a line each, in the order of their rows.
/// `None` if the path is not recorded.
pub fn write_who<J: Judge>(
    alloc: Global,
    verdicts: &Verdicts<'_, J>,
    path: &Path,
    request: Perm,
) -> Result<Option<Vec<u8>>, AllocError>
    ensures { IfOk result (λ text. option_map (λ t. t.items) text ≡ who_text J.verdict_of verdicts.now.along verdicts.now.state.now request path.now) }
{
    let Some(users) = verdicts.who(alloc, path, request)? else {
        return Ok(None);
    };
    let mut text = Vec::new(alloc);
    push_users(&mut text, verdicts.state.state().people(), &users)?;
    Ok(Some(text))
}
