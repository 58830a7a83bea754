//! Which sizes a reason speaks of.

ghost use Rattle.std.specs.Prelude.{◌≡◌, ◌<◌, ◌^◌};
ghost use Rattle.mat_facts.specs.{Reasons.{told_sizes}, Views.{is_told}};

/// Of an answer that has a set of each size, the sizes of which it is told why no set weighs more.
#[derive(Clone, Copy)]
pub enum ToldSizes {
    /// Each size.
    Each,
    /// One size and those beside it, and the last. Where the first is that of a heaviest set of all, this suffices to show that it is.
    Beside {
        /// The one size.
        heaviest: u32,
        /// The last size.
        last: u32,
    },
}

// Whether a size is one of these, or one beside the first.
fn is_beside(heaviest: usize, last: usize, k: usize) -> bool
    requires few { heaviest < 2 ^ 32 }
    requires small { k < 2 ^ 32 }
    ensures { result ≡ told_sizes heaviest last k }
{
    (k == heaviest || (k + 1 == heaviest || k == heaviest + 1)) || k == last
}

impl ToldSizes {
    /// Whether a size is told.
    pub(crate) fn holds(self, k: usize) -> bool
        requires { k < 2 ^ 32 }
        ensures { result ≡ is_told self k }
    {
        match self {
            ToldSizes::Each => true,
            ToldSizes::Beside { heaviest, last } => is_beside(heaviest as usize, last as usize, k),
        }
    }
}
