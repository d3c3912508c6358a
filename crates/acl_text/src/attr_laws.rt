//! Laws of attributes, each proved as the contract of a function that does nothing.

ghost use Rattle.acl_text.specs.AttrLaws.{AttributeEncodesItsEntries, AttributeFaultIsFirst};

/// Proof only: an attribute is read as a list exactly if, after the number 2, each eight bytes are an entry: a tag,
/// permissions of three bits, and the id that the tag names, if it names one; where the tags never fall, no key comes
/// twice, there are at most `MAX_ENTRIES` entries, and the entries are the list, which is valid.
pub fn attribute_encodes_its_entries()
    ensures { AttributeEncodesItsEntries }
{}

/// Proof only: the fault of an attribute is at 0 where it does not begin with the number 2; else at its first
/// faulty entry, where those before it are read and no entry can be with it; else after the last, where
/// all entries are read and are not a valid list.
pub fn attribute_fault_is_first()
    ensures { AttributeFaultIsFirst }
{}
