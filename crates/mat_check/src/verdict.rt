//! What the checker says of an answer.

ghost use Rattle.std.specs.Prelude.{◌≡◌};
ghost use Rattle.mat_check.specs.Views.{failure_in};

use crate::reason::{Failure, Reason};

/// Whether an answer is right.
#[derive(Clone, Copy, Debug, PartialEq, Eq)]
pub enum Verdict {
    /// It is right.
    Yes,
    /// It isn't: the first clause that fails, and its two places.
    No {
        /// Which clause fails.
        reason: Reason,
        /// The first place.
        a: u32,
        /// The second place.
        b: u32,
    },
}

impl From<Option<Failure>> for Verdict {
    ghost from_gives = { λ found verdict. failure_in verdict ≡ found };

    fn from(found: Option<Failure>) -> Verdict {
        match found {
            Some(failure) => Verdict::No {
                reason: failure.reason,
                a: failure.first_place,
                b: failure.second_place,
            },
            None => Verdict::Yes,
        }
    }
}
