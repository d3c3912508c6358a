//! Effective permissions beside the entries of a list.

/// Where a listing shows the effective permissions of the entries of the group class, in a list that has
/// a mask (getfacl(1)).
#[derive(Clone, Copy, PartialEq, Eq)]
pub enum Effective {
    /// Where an entry has a permission that the mask has not.
    WhereMasked,
    /// At each such entry (`-e`).
    Always,
    /// Nowhere (`-E`).
    Never,
}
