//! Laws of the definitions, each proved as the contract of a function that does nothing.
ghost use Rattle.acl_edit.specs.Laws.{OfEach, RefusesMisplaced, RefusesOfLine, RefusesNoList, NeedsNoMemory};

/// Proof only: what an edit is refused for, and that it is refused for nothing else: entries of a default list, or a
/// default list, that are put on a file that is not a directory, and not in a recursion; else the first fault
/// of the access list that a line leaves, key by key; else that of the default list. Edits that put whole
/// lists are refused for no list. Running out of memory is not part of the definition.
pub fn edits_are_refused_for_their_lists()
    ensures misplaced { OfEach RefusesMisplaced }
    ensures lists { OfEach RefusesOfLine }
    ensures whole { OfEach RefusesNoList }
    ensures memory { OfEach NeedsNoMemory }
{}
