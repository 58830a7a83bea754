//! How a reached set grows next.
ghost use Rattle.std.specs.Prelude.{◌≡◌, ℕ, true};
ghost use Rattle.mat_sets.specs.{
  Limits.{largest_number},
  Sets.{is_member},
  Weights.{weight_at, IsWeightWithin},
};
ghost use Rattle.mat_exchange.specs.Growing.{IsNextStep, IsBefore};

use crate::fringe::Fringe;
use mat_sets::Weight;

/// What the next change of the weights does to the reached set.
#[derive(Drop)]
pub(crate) enum NextStep {
    /// This element enters once the weights have changed by this number in all.
    Enter(u32, Weight),
    /// An element of the reached set is a sink once the weights have changed by this number in all.
    Sink(Weight),
    /// No change lets an element enter or makes one a sink.
    Nothing,
}

/// The slack of a sink, where it is at most `step`; else none.
fn is_before(slack: Option<Weight>, step: Weight) -> Option<Weight>
    ensures { IsBefore slack step result }
{
    match slack {
        Some(earlier) if earlier <= step => Some(earlier),
        _ => None,
    }
}

/// The step of least change: an element of the fringe, which enters once its gain has risen to 0, or a sink of this slack. So Dijkstra's
/// algorithm takes the vertex of least key out of its frontier.
pub(crate) fn next_step(fringe: &Fringe, slack: Option<Weight>) -> NextStep
    requires { (x : ℕ) → is_member x fringe.now.members ≡ true → IsWeightWithin largest_number (weight_at fringe.now.gains x) }
    ensures { IsNextStep fringe.now.members (weight_at fringe.now.gains) slack result }
{
    let Some(x) = fringe.heaviest() else {
        return match slack {
            Some(step) => NextStep::Sink(step),
            None => NextStep::Nothing,
        };
    };
    let step = -fringe.gain(x);
    match is_before(slack, step) {
        Some(earlier) => NextStep::Sink(earlier),
        None => NextStep::Enter(x, step),
    }
}
