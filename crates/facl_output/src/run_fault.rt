//! What the program prints of a run that ended early.

ghost use Rattle.std.specs.Prelude.{◌≡◌};
ghost use Rattle.acl_names.specs.Appends.{Appends};
ghost use Rattle.facl_output.specs.Messages.{run_fault_text, setup_text, table_name};

use crate::fault::RunFault;
use crate::message::push_tree_fault;
use acl_tree::{Table, TreeFault};
use std::alloc::AllocError;

/// Returns the name of a text of the setup.
fn table_name(which: Table) -> &'static [u8]
    ensures { result.now ≡ table_name which }
{
    match which {
        Table::Passwd => b"passwd",
        Table::Group => b"group",
        Table::Dump => b"dump",
    }
}

/// Adds why the setup is refused.
fn push_setup(text: &mut Vec<u8>, which: Table, fault: &TreeFault) -> Result<(), AllocError>
    ensures { Appends result text.old text.new (setup_text which fault.now) }
{
    text.extend_from_slice(b"setup: ")?;
    text.extend_from_slice(table_name(which))?;
    text.extend_from_slice(b": ")?;
    push_tree_fault(text, fault)?;
    Ok(())
}

/// Adds what the program prints after `facl: ` of a run that ended early, without a line feed. If memory runs out for
/// it, what was before is kept.
pub fn push_run_fault(text: &mut Vec<u8>, fault: &RunFault) -> Result<(), AllocError>
    ensures { Appends result text.old text.new (run_fault_text fault.now) }
{
    match fault {
        RunFault::Read => text.extend_from_slice(b"read fault"),
        RunFault::Write => text.extend_from_slice(b"write fault"),
        RunFault::Setup { which, fault } => push_setup(text, *which, fault),
        RunFault::ScriptTooLong => text.extend_from_slice(b"script too long"),
        RunFault::NoMemory => text.extend_from_slice(b"no memory"),
    }
}
