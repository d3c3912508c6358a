//! Laws of names, rows and entry texts, each proved as the contract of a function that does nothing.

ghost use Rattle.acl_text.specs.Laws.{PasswdRowsAreFirstOfTheirNames, GroupRowsAreFirstOfTheirNames, EntryMeansWhatIsRead, EntriesAreReadInOrder, PasswdFaultIsFirst, GroupFaultIsFirst, EntriesFaultIsFirst, EntryFaultIsLowest, PieceFaultIsLowest, PasswdLineFaultIsLowest, GroupLineFaultIsLowest};

/// Proof only: a passwd text has these counted rows exactly if each line that is not ignored is a row, they are the
/// rows whose name no earlier row has, in the order of the text, and they are at most `MAX_ROWS`.
pub fn passwd_rows_are_first_of_their_names()
    ensures { PasswdRowsAreFirstOfTheirNames }
{}

/// Proof only: a group text has these counted rows exactly if each line that is not ignored is a row, they are the
/// rows whose name no earlier row has, in the order of the text, and they are at most `MAX_ROWS`.
pub fn group_rows_are_first_of_their_names()
    ensures { GroupRowsAreFirstOfTheirNames }
{}

/// Proof only: an entry is read as a spec exactly if it is written as in setfacl(1) and means that spec: of which
/// list, whom it is for, and which permissions it has, by the rules of any use.
pub fn entry_means_what_is_read()
    ensures { EntryMeansWhatIsRead }
{}

/// Proof only: a text is read as these specs exactly if they are those of its entries, one each, in their order and
/// at their numbers, which count empty entries too, and there are at most `MAX_TEXT_ENTRIES`.
pub fn entries_are_read_in_order()
    ensures { EntriesAreReadInOrder }
{}

/// Proof only: the fault of a passwd text is the lowest kind of fault of the first line that has one.
pub fn passwd_fault_is_first()
    ensures { PasswdFaultIsFirst }
{}

/// Proof only: the fault of a group text is the lowest kind of fault of the first line that has one.
pub fn group_fault_is_first()
    ensures { GroupFaultIsFirst }
{}

/// Proof only: the fault of an entry text is the lowest kind of fault of the first entry that has one.
pub fn entries_fault_is_first()
    ensures { EntriesFaultIsFirst }
{}

/// Proof only: the fault of an entry is the lowest of the kinds that it has in itself, each defined on its own, by
/// the rules of any use; if it has none, the entry is read.
pub fn entry_fault_is_lowest()
    ensures { EntryFaultIsLowest }
{}

/// Proof only: the fault of a piece of a text that is not empty is the lowest of the kinds that its entry has in
/// itself and by its place after as many entries as there may be; if it has none, the entry is read.
pub fn piece_fault_is_lowest()
    ensures { PieceFaultIsLowest }
{}

/// Proof only: the fault of a passwd line that is not ignored is the lowest of the kinds that it has, each defined by
/// itself; if it has none, the line is read.
pub fn passwd_line_fault_is_lowest()
    ensures { PasswdLineFaultIsLowest }
{}

/// Proof only: the fault of a group line that is not ignored is the lowest of the kinds that it has, each defined by
/// itself; if it has none, the line is read.
pub fn group_line_fault_is_lowest()
    ensures { GroupLineFaultIsLowest }
{}
