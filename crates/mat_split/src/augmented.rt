//! What follows a heaviest common independent set.

use crate::ladder::Rung;
use mat_sets::ElemSet;

/// The heaviest common independent set of one more element, or the proof that there is none.
#[derive(Debug, Drop)]
pub(crate) enum Augmented {
    /// A rung of one more element.
    Larger(Rung),
    /// The set was the last: a cut that proves it.
    Last(ElemSet),
}
