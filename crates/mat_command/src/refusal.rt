//! Why the bytes of a list give no jobs.

ghost use Rattle.std.specs.Prelude.{◌≡◌};
ghost use Rattle.mat_command.specs.declared.refusal.ListRefusal.TheVariants.{Memory};

use std::alloc::AllocError;
use thiserror::Error;

/// Why the bytes of a list give no jobs.
#[derive(Clone, Copy, Debug, Error)]
pub enum ListRefusal {
    /// The first line that is not the needed one, by its number.
    #[error("line {0} of the list is not the needed one")]
    Line(u32),
    /// There was not enough memory.
    #[error("memory ran out")]
    Memory,
}

impl From<AllocError> for ListRefusal {
    ghost from_gives = { λ _ e. e ≡ Memory };

    fn from(_error: AllocError) -> ListRefusal {
        ListRefusal::Memory
    }
}
