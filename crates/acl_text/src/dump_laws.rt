//! Laws of dumps, each proved as the contract of a function that does nothing.

ghost use Rattle.acl_text.specs.DumpLaws.{DumpFaultIsFirst, DumpFileFaultIsLowest, DumpLineFaultIsLowest, RecordsAreReadAgain};

/// Proof only: the fault of a dump is that of the first faulty record: the lines before the record are a dump without a
/// fault. Where its `# file:` line is not faulty, it is that of the record's first faulty line, and where
/// no line is faulty that of the record as a whole, at its `# file:` line, whatever comes after the
/// record. A fault of a line before the first record goes before all these.
pub fn dump_fault_is_first()
    ensures { DumpFaultIsFirst }
{}

/// Proof only: the fault of a `# file:` line is the lowest of the kinds that it has, each defined on its own: an
/// empty value, a value that is not a path, and the path of an earlier record. Without a fault, the line begins a
/// record.
pub fn dump_file_fault_is_lowest()
    ensures { DumpFileFaultIsLowest }
{}

/// Proof only: the fault of a line that begins no record is the lowest of the kinds that it has, each defined on its
/// own: what an entry has by the rules of a dump, a value that names nobody, is empty or is not three flags, a line
/// before the first record, and a header that comes twice or after an entry. Without a fault, the line is read.
pub fn dump_line_fault_is_lowest()
    ensures { DumpLineFaultIsLowest }
{}

/// Proof only: the texts of records, put one after another, are read as those records, each at its line: where their
/// names are found again under the ids that they are written for, no path is twice, and records that
/// are loaded have owners and groups.
pub fn records_are_read_again()
    ensures { RecordsAreReadAgain }
{}
