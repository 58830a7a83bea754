//! What a matroid of any kind keeps where a union of unions is one union.

use crate::any_kept::AnyKept;
use mat_union::KeptParts;

/// What a matroid keeps of an independent set, as `Matroid` asks for it.
#[derive(Drop)]
pub enum FlatKept {
    /// What its own kind keeps.
    Own(AnyKept),
    /// Of a union of unions: parts for all matroids of its unions, and what each of these keeps of its part.
    Flat(KeptParts<AnyKept>),
}
