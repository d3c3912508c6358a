//! Path classes: what files have in common that have one label and lie below directories of one class.

use crate::searchers::Searchers;
use kinds::KindNumber;

/// The number of a class.
pub type ClassNumber = usize;

/// What files have in common that have one label, and whose nearest recorded directories above are of one class.
#[derive(Drop)]
pub struct PathClass {
    /// The number of the label.
    pub kind: KindNumber,
    /// The class of the nearest recorded directory above, if there is one.
    pub above: Option<ClassNumber>,
    /// How many recorded directories are above.
    pub depth: usize,
    /// Who can search all directories down to here: kept as soon as a file lies below.
    pub search: Option<Searchers>,
}
