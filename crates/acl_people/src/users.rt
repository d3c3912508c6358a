//! The rows of passwd(5), looked up by name and by id.

ghost use Rattle.std.specs.Prelude.{◌≡◌, ◌<◌, ◌++◌, ◌∷◌, [], length, List};
ghost use Rattle.std.specs.List.{remove};
ghost use Rattle.acl_text.specs.InTurn.{Gives};
ghost use Rattle.acl_text.specs.Rows.{passwd_of};
ghost use Rattle.acl_text.specs.declared.rows.PasswdRow.{PasswdRow};
ghost use Rattle.acl_people.specs.Entries.{user_entry, AreUsers, IsTableOf};
ghost use Rattle.acl_people.specs.Changes.{change_at, with_gid};
ghost use Rattle.acl_names.specs.Made.{values, Makes};

use crate::each_shared::{each_but_one, each_shared};
use crate::name_table::{NameTable, NamedRow};
use acl_entry::Id;
use acl_text::{PasswdRow, TextFault, read_passwd};
use std::alloc::{AllocError, Global};
use std::marker::Model;
use std::rc::Rc;

/// The counted rows of passwd(5), in their order. The rows are shared among copies.
#[derive(Drop)]
pub(crate) struct Users {
    rows: Vec<Rc<PasswdRow>>,
    name_table: Rc<NameTable>,
}

impl Model for Users {
    ghost Value = { List PasswdRow };

    ghost view = { λ u. values u.rows.items };

    ghost invariant = { λ u. IsTableOf user_entry u.name_table.value (values u.rows.items) };
}

impl NamedRow for Rc<PasswdRow> {
    ghost named = { λ row. user_entry row.value };

    fn name(&self) -> &[u8] {
        self.name.as_bytes()
    }

    fn id(&self) -> Id {
        self.uid
    }
}

impl Users {
    pub fn new(alloc: Global) -> Result<Users, AllocError>
        ensures { Makes result [] }
    {
        Users::of(alloc, Vec::new(alloc))
    }

    /// Makes users of rows.
    pub fn of(alloc: Global, rows: Vec<Rc<PasswdRow>>) -> Result<Users, AllocError>
        requires { AreUsers (values rows.items) }
        ensures { Makes result (values rows.items) }
    {
        let name_table = NameTable::shared(alloc, &rows)?;
        Ok(Users { rows, name_table })
    }

    /// Reads the users of a passwd text.
    pub fn read(alloc: Global, bytes: &[u8]) -> Result<Users, TextFault>
        ensures { Gives (λ users. users) result (passwd_of bytes.now) }
    {
        let rows = read_passwd(alloc, bytes)?;
        let users = Users::of(alloc, each_shared(alloc, rows)?)?;
        Ok(users)
    }

    pub fn rows(&self) -> &[Rc<PasswdRow>]
        ensures { values result.now ≡ self.now }
    {
        &self.rows
    }

    pub fn name_table(&self) -> &NameTable
        ensures { IsTableOf user_entry result.now self.now }
    {
        &self.name_table
    }
    /// Gives a user another primary group.
    pub fn with_gid(&self, alloc: Global, user: usize, gid: Id) -> Result<Users, AllocError>
        requires { user < length self.now }
        ensures { Makes result (change_at user (with_gid gid) self.now) }
    {
        let row = &self.rows[user];
        let changed = PasswdRow {
            name: row.name.try_clone(alloc)?,
            uid: row.uid,
            gid,
        };
        let rows = each_but_one(alloc, &self.rows, user, changed)?;
        Ok(Users {
            rows,
            name_table: self.name_table.clone()?,
        })
    }

    /// Adds a user, the last.
    pub fn with_row(&self, alloc: Global, row: PasswdRow) -> Result<Users, AllocError>
        requires { AreUsers (self.now ++ row ∷ []) }
        ensures { Makes result (self.now ++ row ∷ []) }
    {
        let row = Rc::new(alloc, row)?;
        let mut rows = self.rows.clone()?;
        rows.push(row.clone()?)?;
        let name_table = self.name_table.with_row(alloc, &rows, &row)?;
        Ok(Users { rows, name_table })
    }

    /// Removes a user.
    pub fn without_row(&self, alloc: Global, user: usize) -> Result<Users, AllocError>
        requires { user < length self.now }
        ensures { Makes result (remove self.now user) }
    {
        let name_table = Rc::new(alloc, self.name_table.without(alloc, user)?)?;
        let mut rows = self.rows.clone()?;
        let _gone = rows.remove(user);
        Ok(Users { rows, name_table })
    }
}
