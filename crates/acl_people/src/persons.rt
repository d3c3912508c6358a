//! Users as the check of access sees them.

ghost use Rattle.std.specs.Prelude.{◌∷◌, [], map};
ghost use Rattle.acl_people.specs.Members.{person_among};
ghost use Rattle.acl_people.specs.KnownPeople.{person};
ghost use Rattle.acl_names.specs.Made.{values, Makes, MakesOne, MakesShared, AddsShared};

use crate::each_shared::push_shared;
use crate::groups::{Group, Groups};
use crate::memberships::members_of;
use acl_entry::{Id, Subject};
use acl_text::PasswdRow;
use std::alloc::{AllocError, Global};
use std::collections::BTreeMap;
use std::rc::Rc;

/// Makes the user of a row, as the check sees one.
fn subject_of(
    alloc: Global,
    members: &BTreeMap<&[u8], Vec<Id>>,
    row: &PasswdRow,
) -> Result<Subject, AllocError>
    ensures { Makes result (person_among members.now row.now) }
{
    let mut gids = Vec::new(alloc);
    gids.push(row.gid)?;
    if let Some(more) = members.get(row.name.as_bytes()) {
        gids.extend_from_slice(more)?;
    }
    Subject::from_groups(alloc, row.uid, &gids)
}

/// Adds the user of a row.
fn push_subject(
    alloc: Global,
    subjects: &mut Vec<Rc<Subject>>,
    members: &BTreeMap<&[u8], Vec<Id>>,
    row: &PasswdRow,
) -> Result<(), AllocError>
    ensures { AddsShared result subjects.old subjects.new (person_among members.now row.now ∷ []) }
{
    let subject = subject_of(alloc, members, row)?;
    push_shared(alloc, subjects, subject)
}

/// Collects every user's id and groups, in the order of the users' rows: one pass over the group rows, and one over
/// the users.
pub(crate) fn subjects_of(
    alloc: Global,
    users: &[Rc<PasswdRow>],
    groups: &[Rc<Group>],
) -> Result<Vec<Rc<Subject>>, AllocError>
    ensures { MakesShared result (map (person (values groups.now)) (values users.now)) }
{
    let members = members_of(alloc, groups)?;
    let mut subjects = Vec::with_capacity(alloc, users.len())?;
    for row in users {
        push_subject(alloc, &mut subjects, &members, row)?;
    }
    Ok(subjects)
}

/// Collects one user's id and groups: a pass over the group rows.
fn person_of(alloc: Global, groups: &[Rc<Group>], user: &PasswdRow) -> Result<Subject, AllocError>
    ensures { Makes result (person (values groups.now) user.now) }
{
    let mut gids = Vec::new(alloc);
    gids.push(user.gid)?;
    for group in groups {
        if group.names_user(user.name.as_bytes()) {
            gids.push(group.gid())?;
        }
    }
    let subject = Subject::from_groups(alloc, user.uid, &gids)?;
    Ok(subject)
}

/// Collects one user's id and groups, for those that share them.
pub(crate) fn shared_person(
    alloc: Global,
    groups: &Groups,
    user: &PasswdRow,
) -> Result<Rc<Subject>, AllocError>
    ensures { MakesOne result (person groups.now user.now) }
{
    let subject = person_of(alloc, groups.rows(), user)?;
    Ok(Rc::new(alloc, subject)?)
}
