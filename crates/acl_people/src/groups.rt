//! The rows of group(5), looked up by name and by id.

ghost use Rattle.std.specs.Prelude.{◌≡◌, ◌<◌, ◌∷◌, [], map, length, slice_set, List};
ghost use Rattle.acl_text.specs.InTurn.{Gives};
ghost use Rattle.acl_text.specs.Rows.{group_of};
ghost use Rattle.acl_text.specs.declared.rows.GroupRow.{GroupRow};
ghost use Rattle.acl_people.specs.Entries.{group_entry, AreGroups, IsTableOf};
ghost use Rattle.acl_people.specs.KnownPeople.{names_user};
ghost use Rattle.acl_people.specs.Changes.{change_at, name_added, name_removed, names_but};
ghost use Rattle.acl_names.specs.Made.{values, Makes, MakesShared, AddsShared};

use crate::each_shared::{each_but_one, each_shared, push_shared};
use crate::name_table::{NameTable, NamedRow};
use acl_entry::Id;
use acl_names::Name;
use acl_text::{GroupRow, TextFault, read_group};
use std::alloc::{AllocError, Global};
use std::marker::Model;
use std::rc::Rc;

/// The counted rows of group(5), in their order. The rows are shared among copies.
#[derive(Drop)]
pub(crate) struct Groups {
    rows: Vec<Rc<Group>>,
    name_table: Rc<NameTable>,
}

impl Model for Groups {
    ghost Value = { List GroupRow };

    ghost view = { λ g. values g.rows.items };

    ghost invariant = { λ g. IsTableOf group_entry g.name_table.value (values g.rows.items) };
}

impl NamedRow for GroupRow {
    ghost named = { group_entry };

    fn name(&self) -> &[u8] {
        self.name.as_bytes()
    }

    fn id(&self) -> Id {
        self.gid
    }
}

fn push_row(alloc: Global, groups: &mut Vec<Rc<Group>>, row: GroupRow) -> Result<(), AllocError>
    ensures { AddsShared result groups.old groups.new (row ∷ []) }
{
    let group = Group::new(alloc, row)?;
    push_shared(alloc, groups, group)
}

/// Returns the rows, shared among copies.
fn shared_rows(alloc: Global, rows: Vec<GroupRow>) -> Result<Vec<Rc<Group>>, AllocError>
    ensures { MakesShared result rows.items }
{
    let mut groups = Vec::with_capacity(alloc, rows.len())?;
    for row in rows {
        push_row(alloc, &mut groups, row)?;
    }
    Ok(groups)
}

/// Adds the row without a name. A row that does not contain it is shared.
fn push_without(
    alloc: Global,
    groups: &mut Vec<Rc<Group>>,
    row: &Rc<Group>,
    name: &[u8],
) -> Result<(), AllocError>
    ensures { AddsShared result groups.old groups.new (name_removed name.now row.now.value ∷ []) }
{
    if row.names_user(name) {
        push_shared(alloc, groups, row.without_name(alloc, name)?)
    } else {
        groups.push(row.clone()?)?;
        Ok(())
    }
}

/// Removes a name from the rows.
fn rows_without(
    alloc: Global,
    rows: &[Rc<Group>],
    name: &[u8],
) -> Result<Vec<Rc<Group>>, AllocError>
    ensures { MakesShared result (map (name_removed name.now) (values rows.now)) }
{
    let mut groups = Vec::with_capacity(alloc, rows.len())?;
    for row in rows {
        push_without(alloc, &mut groups, row, name)?;
    }
    Ok(groups)
}

impl Groups {
    pub fn new(alloc: Global) -> Result<Groups, AllocError>
        ensures { Makes result [] }
    {
        Groups::of(alloc, Vec::new(alloc))
    }

    fn of(alloc: Global, rows: Vec<GroupRow>) -> Result<Groups, AllocError>
        requires { AreGroups rows.items }
        ensures { Makes result rows.items }
    {
        let name_table = NameTable::shared(alloc, &rows)?;
        let rows = shared_rows(alloc, rows)?;
        Ok(Groups { rows, name_table })
    }

    /// Reads the groups of a group text.
    pub fn read(alloc: Global, bytes: &[u8]) -> Result<Groups, TextFault>
        ensures { Gives (λ groups. groups) result (group_of bytes.now) }
    {
        let rows = read_group(alloc, bytes)?;
        let groups = Groups::of(alloc, rows)?;
        Ok(groups)
    }

    pub fn rows(&self) -> &[Rc<Group>]
        ensures { values result.now ≡ self.now }
    {
        &self.rows
    }

    pub fn name_table(&self) -> &NameTable
        ensures { IsTableOf group_entry result.now self.now }
    {
        &self.name_table
    }
    /// Replaces the row at a place by one of the same name and id.
    fn with_row(&self, alloc: Global, at: usize, row: Group) -> Result<Groups, AllocError>
        requires within { at < length self.now }
        requires entry { map group_entry (slice_set self.now at row) ≡ map group_entry self.now }
        ensures { Makes result (slice_set self.now at row) }
    {
        let rows = each_but_one(alloc, &self.rows, at, row)?;
        Ok(Groups {
            rows,
            name_table: self.name_table.clone()?,
        })
    }

    /// Adds a name to a row, the last.
    pub fn with_name(&self, alloc: Global, at: usize, name: &[u8]) -> Result<Groups, AllocError>
        requires { at < length self.now }
        ensures { Makes result (change_at at (name_added name.now) self.now) }
    {
        let row = self.rows[at].with_name(alloc, name)?;
        self.with_row(alloc, at, row)
    }

    /// Removes a name from a row.
    pub fn without_name(&self, alloc: Global, at: usize, name: &[u8]) -> Result<Groups, AllocError>
        requires { at < length self.now }
        ensures { Makes result (change_at at (name_removed name.now) self.now) }
    {
        let row = self.rows[at].without_name(alloc, name)?;
        self.with_row(alloc, at, row)
    }

    /// Removes a name from all rows.
    pub fn without_user(&self, alloc: Global, name: &[u8]) -> Result<Groups, AllocError>
        ensures { Makes result (map (name_removed name.now) self.now) }
    {
        let rows = rows_without(alloc, &self.rows, name)?;
        Ok(Groups {
            rows,
            name_table: self.name_table.clone()?,
        })
    }
}

/// A counted row of group(5). Its names are shared among copies.
#[derive(Drop)]
pub(crate) struct Group {
    name: Rc<Name>,
    gid: Id,
    members: Vec<Rc<Name>>,
}

impl Model for Group {
    ghost Value = { GroupRow };

    ghost view = { λ g. record { name = g.name.value; gid = g.gid; names = values g.members.items } };
}

/// Adds a name, unless it is this one.
fn push_other(members: &mut Vec<Rc<Name>>, member: &Rc<Name>, name: &[u8]) -> Result<(), AllocError>
    ensures { AddsShared result members.old members.new (names_but name.now (member.now.value ∷ [])) }
{
    if member.as_bytes() != name {
        members.push(member.clone()?)?;
    }
    Ok(())
}

impl Group {
    /// Makes a row, with its names behind pointers.
    pub fn new(alloc: Global, row: GroupRow) -> Result<Group, AllocError>
        ensures { Makes result row }
    {
        Ok(Group {
            name: Rc::new(alloc, row.name)?,
            gid: row.gid,
            members: each_shared(alloc, row.names.into_names())?,
        })
    }

    /// Returns the group's name.
    pub fn name(&self) -> &[u8]
        ensures { result.now ≡ self.now.name }
    {
        self.name.as_bytes()
    }

    /// Returns the group's id.
    pub fn gid(&self) -> Id
        ensures { result ≡ self.now.gid }
    {
        self.gid
    }

    /// Returns the names in the row, in their order.
    pub fn members(&self) -> &[Rc<Name>]
        ensures { values result.now ≡ self.now.names }
    {
        &self.members
    }

    /// Tells whether the row names the user.
    pub fn names_user(&self, name: &[u8]) -> bool
        ensures { result ≡ names_user name.now self.now }
    {
        self.members.iter().any(|member| member.as_bytes() == name)
    }
    /// Adds a name, the last.
    pub fn with_name(&self, alloc: Global, name: &[u8]) -> Result<Group, AllocError>
        ensures { Makes result (name_added name.now self.now) }
    {
        let mut members = self.members.clone()?;
        members.push(Rc::new(alloc, Name::from_bytes(alloc, name)?)?)?;
        Ok(Group {
            name: self.name.clone()?,
            gid: self.gid,
            members,
        })
    }

    /// Removes a name, however often it occurs.
    pub fn without_name(&self, alloc: Global, name: &[u8]) -> Result<Group, AllocError>
        ensures { Makes result (name_removed name.now self.now) }
    {
        let mut members = Vec::with_capacity(alloc, self.members.len())?;
        for member in &self.members {
            push_other(&mut members, member, name)?;
        }
        Ok(Group {
            name: self.name.clone()?,
            gid: self.gid,
            members,
        })
    }
}
