//! Why sets are no laminar family.

ghost use Rattle.std.specs.Prelude.{◌≡◌};
ghost use Rattle.mat_count.specs.declared.laminar_fault.LaminarFault.TheVariants.{Memory};

use std::alloc::AllocError;
use thiserror::Error;

/// What is wrong with the sets of a laminar family, or want of memory.
#[derive(Debug, Drop, Error)]
pub enum LaminarFault {
    /// A member of a set is no element.
    #[error("a member is out of range")]
    OutOfRange,
    /// The sets at these places share a member, and neither contains the other: `b` is the least place of a set that an
    /// earlier one crosses, and `a` the least place of a set that crosses it.
    #[error("the sets {a} and {b} cross")]
    Crossing { a: u32, b: u32 },
    /// Memory ran out.
    #[error("memory ran out")]
    Memory,
}

impl From<AllocError> for LaminarFault {
    ghost from_gives = { λ _ e. e ≡ Memory };

    fn from(_error: AllocError) -> LaminarFault {
        LaminarFault::Memory
    }
}
