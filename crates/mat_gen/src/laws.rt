//! What holds of the states.

ghost use Rattle.std.specs.Prelude.{◌≡◌};
ghost use Rattle.mat_gen.specs.Draws.{state_after};

/// The first states from the seed 1.
#[tactic(auto, unfolding(crate::specs::Draws::state_after))]
pub fn first_states()
    ensures first { state_after 1 1 ≡ 48271 }
    ensures second { state_after 1 2 ≡ 182605794 }
    ensures third { state_after 1 3 ≡ 1291394886 }
    ensures fourth { state_after 1 4 ≡ 1914720637 }
{}
