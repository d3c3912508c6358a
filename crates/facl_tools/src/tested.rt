//! What a line of setfacl(1) does to files, which it tries out with `--test`.

ghost use Rattle.std.specs.Prelude.{◌≡◌, true, None, Ok, IfOk};
ghost use Rattle.facl_tools.specs.Replies.{Replies, Gives};
ghost use Rattle.facl_tools.specs.Setfacl.{edited_or_tested, named_test_listing, restored_or_tested, tested};
ghost use Rattle.acl_tree.specs.Found.{files_found};
ghost use Rattle.acl_tree.specs.Operands.{first_missing};
ghost use Rattle.acl_tree.specs.Restoring.{paths_of};
ghost use Rattle.acl_tree.specs.State.{State};
ghost use Rattle.acl_tree.specs.Step.{step};

use crate::effect::{Effect, effect_of};
use crate::setfacl::ChangeLine;
use acl_edit::Edit;
use acl_names::Path;
use acl_text::DumpRecord;
use acl_tree::{Command, DumpRecords, Paths, Selection, Staged, State, each_file_is_edited};
use facl_output::{LineFault, append_test_listing};
use std::alloc::{AllocError, Global};

fn copies_of(alloc: Global, paths: &[Path]) -> Result<Vec<Path>, AllocError>
    ensures { IfOk result (λ copies. copies.items ≡ paths.now) }
{
    let mut copies = Vec::with_capacity(alloc, paths.len())?;
    for path in paths {
        copies.push(path.try_clone(alloc)?)?;
    }
    Ok(copies)
}

fn paths_of(alloc: Global, records: &[DumpRecord]) -> Result<Vec<Path>, AllocError>
    ensures { IfOk result (λ paths. paths.items ≡ paths_of records.now) }
{
    let mut paths = Vec::with_capacity(alloc, records.len())?;
    for record in records {
        paths.push(record.path.try_clone(alloc)?)?;
    }
    Ok(paths)
}

/// Prints the lists of the files that a command leaves, of operands that are recorded after it.
fn listed(alloc: Global, staged: &Staged, selection: &Selection<'_>) -> Result<Vec<u8>, LineFault>
    requires { first_missing selection.now.operands.now staged.now.state.tree.files ≡ None }
    ensures { Gives (λ out. out.items) result (Ok (named_test_listing staged.now.state.people
        (files_found selection.now.recursive selection.now.operands.now staged.now.state.tree.files))) }
{
    let files = staged.tree().files(alloc, selection)?;
    let mut out = Vec::new(alloc);
    append_test_listing(&mut out, staged.people(), &files)?;
    Ok(out)
}

/// Prints what a command would leave of files that are recorded after it. The state stays.
fn test(
    alloc: Global,
    state: &State,
    command: &Command<'_>,
    selection: &Selection<'_>,
) -> Result<Effect, LineFault>
    requires { (new : State) → step state.now command.now ≡ Ok new → first_missing selection.now.operands.now new.tree.files ≡ None }
    ensures { Replies state.now result (tested state.now (files_found selection.now.recursive selection.now.operands.now) (step state.now command.now)) }
{
    let staged = state.prepare(alloc, command)?;
    let listed = listed(alloc, &staged, selection);
    staged.give_up();
    Ok(Effect::prints(listed?))
}

/// What an edit would leave of files. The state stays.
fn test_edit(
    alloc: Global,
    state: &State,
    paths: Paths,
    edit: Edit,
    recursive: bool,
) -> Result<Effect, LineFault>
    ensures { Replies state.now result (edited_or_tested true state.now recursive paths edit) }
{
    each_file_is_edited();
    state.tree().soundness_law();
    let operands = Paths::new(copies_of(alloc, paths.as_slice())?);
    let command = Command::Edit {
        paths,
        edit,
        recursive,
    };
    let selection = Selection {
        operands: &operands,
        recursive,
    };
    let outcome = test(alloc, state, &command, &selection);
    drop(command);
    outcome
}

/// Edits the files of a line, or tries it out.
pub(crate) fn edit_or_test(
    alloc: Global,
    state: &State,
    line: &ChangeLine<'_>,
    paths: Paths,
    edit: Edit,
) -> Result<Effect, LineFault>
    ensures { Replies state.now result (edited_or_tested line.now.test state.now line.now.recursive paths edit) }
{
    if line.test {
        return test_edit(alloc, state, paths, edit, line.recursive);
    }
    let command = Command::Edit {
        paths,
        edit,
        recursive: line.recursive,
    };
    effect_of(alloc, state, command)
}

/// What a restore would leave of the files of records. The state stays.
fn test_restore(alloc: Global, state: &State, records: DumpRecords) -> Result<Effect, LineFault>
    ensures { Replies state.now result (restored_or_tested true state.now records) }
{
    each_file_is_edited();
    state.tree().soundness_law();
    let operands = Paths::new(paths_of(alloc, records.as_slice())?);
    let command = Command::Restore { records };
    let selection = Selection {
        operands: &operands,
        recursive: false,
    };
    let outcome = test(alloc, state, &command, &selection);
    drop(command);
    outcome
}

/// Restores the files of records, or tries it out.
pub(crate) fn restore_or_test(
    alloc: Global,
    state: &State,
    records: DumpRecords,
    is_test: bool,
) -> Result<Effect, LineFault>
    ensures { Replies state.now result (restored_or_tested is_test state.now records) }
{
    if is_test {
        return test_restore(alloc, state, records);
    }
    effect_of(alloc, state, Command::Restore { records })
}
