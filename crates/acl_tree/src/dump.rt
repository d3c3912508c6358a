//! A dump as a tree.

ghost use Rattle.std.specs.Prelude.{◌≡◌, ◌≢◌, [], IfOk};
ghost use Rattle.acl_tree.specs.Sound.{IsSoundTree};
ghost use Rattle.acl_tree.specs.InnerCommands.{whole};
ghost use Rattle.acl_tree.specs.Loads.{load_dump};
ghost use Rattle.acl_tree.specs.Step.{Stages};
ghost use Rattle.acl_tree.specs.Reports.{Reports};
ghost use Rattle.acl_tree.specs.declared.user_change.UserChange.{UserChange};

use crate::fault::TreeFault;
use crate::files::Files;
use crate::records::files_of;
use crate::region::Region;
use crate::state::BorrowedState;
use crate::step::Staged;
use acl_text::{DumpUse, FaultKind, TextFault, read_dump};
use std::alloc::Global;

/// The largest number of files of a tree.
pub(crate) const MAX_FILES: usize = 1048576;

/// Turns a text's fault into that of the command; `NoMemory` stays itself.
fn text_fault(fault: TextFault) -> TreeFault
    ensures text { fault.kind ≢ FaultKind.NoMemory → result ≡ TreeFault.Text fault }
    ensures memory { fault.kind ≡ FaultKind.NoMemory → result ≡ TreeFault.NoMemory }
{
    if fault.kind == FaultKind::NoMemory {
        TreeFault::NoMemory
    } else {
        TreeFault::Text(fault)
    }
}

/// Loads the files of a dump. None is loaded yet.
pub(crate) fn prepare_dump(
    alloc: Global,
    state: &BorrowedState<'_>,
    bytes: &[u8],
) -> Result<Staged, TreeFault>
    ensures made { Stages (λ s. s.state) result (load_dump (whole state.now) bytes.now) }
    ensures sound { IfOk result (λ staged. IsSoundTree staged.state.tree) }
    ensures reports { IfOk result (λ staged. state.now.tree.now.files ≡ [] → Reports (whole state.now) staged) }
    ensures moved { IfOk result (λ staged. staged.user_change ≡ UserChange.Unchanged) }
{
    let records = match read_dump(alloc, bytes, DumpUse::Load, state.people) {
        Ok(records) => records,
        Err(fault) => return Err(text_fault(fault)),
    };
    if records.len() > MAX_FILES {
        return Err(TreeFault::TooMany);
    }
    let touched = Region::everything(alloc)?;
    let files = Files::of(files_of(alloc, records)?, true);
    let staged = Staged::with_files(state, files, touched)?;
    Ok(staged)
}
