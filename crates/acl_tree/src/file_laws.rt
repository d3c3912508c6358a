//! A law of the definitions, proved as the contract of a function that does nothing.

ghost use Rattle.acl_tree.specs.FileLaws.{EachRecordIsAFile};

/// Proof only: the files of a dump are a map of its records: a path has the file of its last record, and where no
/// record has the path there is no file.
#[tactic(auto, using(crate::proofs::Mapped::loaded_found))]
pub fn each_record_is_a_file()
    ensures { EachRecordIsAFile }
{}
