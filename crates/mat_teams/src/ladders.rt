//! Best teams: of one matroid that the crates below do not know, and of it and a second one.

ghost use Rattle.std.specs.Prelude.{◌≡◌, ◌≢◌, ◌<◌, ◌≤◌, ℕ, List, Some, true, length, slice_get, IfOk};
ghost use Rattle.mat_sets.specs.{Limits.{most_elements, largest_weight}, Sets.{IsSet}, Weights.{◌≼◌, weight, weight_at, AreWeightsWithin}};
ghost use Rattle.mat_laws.specs.CommonSets.{IsHeaviestCommon};
ghost use Rattle.mat_greedy.specs.Greedy.{AreHeaviestEach};
ghost use Rattle.mat_split.specs.{Ladders.{IsLadder}, declared.ladder.Rung.{Rung}};
ghost use Rattle.mat_teams.specs.{Exceptions.{is_uniform_except}, Teams.{AreTeams, AreTeamsOfRungs}};

use crate::uniform_except::{UniformExcept, uniform_except_means};
use mat_greedy::heaviest_each;
use mat_laws::Matroid;
use mat_sets::{SetList, Weight};
use mat_split::laws::ladder_is_best;
use mat_split::{Ladder, intersect_all};
use std::alloc::{AllocError, Global};
use std::thread::Threads;

/// A heaviest team of each size among those that may go: teams of at most as many people as the circuit, other than the circuit itself, which
/// went last. The only error is want of memory.
pub(crate) fn best_teams(
    alloc: Global,
    last: &UniformExcept,
    weights: &[Weight],
) -> Result<SetList, AllocError>
    requires last_sound { 0 < length last.now.circuit }
    requires lengths { length weights.now ≡ last.now.count }
    ensures heaviest { IfOk result (AreHeaviestEach last.now.count (is_uniform_except last.now.count last.now.circuit) (weight_at weights.now)) }
    ensures sets { IfOk result (AreTeams last.now.count) }
{
    last.lawful();
    let teams = heaviest_each(alloc, last, weights)?;
    Ok(teams)
}

/// A heaviest set of each size among those that two matroids allow, from the empty set to a largest one, with a split of the weights that
/// proves it. No set at all that both allow is heavier than the rung of its size, or has more elements than the last rung. The only error is
/// want of memory.
pub(crate) fn best_ladder<R: Threads + Sync, A: Matroid, B: Matroid>(
    rt: &R,
    alloc: Global,
    first: &A,
    second: &B,
    weights: &[Weight],
) -> Result<Ladder, AllocError>
    requires first_sound { A.sound first.now }
    requires second_sound { B.sound second.now }
    requires elements { B.ground_size second.now ≡ A.ground_size first.now }
    requires few { A.ground_size first.now ≤ most_elements }
    requires lengths { length weights.now ≡ A.ground_size first.now }
    requires small { AreWeightsWithin largest_weight weights.now }
    ensures proved { IfOk result (λ l. IsLadder (A.ground_size first.now) (A.indep first.now) (B.indep second.now) weights.now
        l.rungs.items l.cut) }
    ensures heaviest { IfOk result (λ l. (k : ℕ) (rung : Rung) → slice_get l.rungs.items k ≡ Some rung
        → IsHeaviestCommon (A.indep first.now) (B.indep second.now) weights.now k rung.set) }
    ensures largest { IfOk result (λ l. (other : List ℕ) → A.indep first.now other ≡ true → B.indep second.now other ≡ true
        → length other < length l.rungs.items) }
{
    first.lawful();
    second.lawful();
    ladder_is_best();
    let ladder = intersect_all(rt, alloc, first, second, weights, 1)?;
    Ok(ladder)
}

/// A heaviest team of each size for which a second rule holds, but not the circuit, which went last: each rung is such a team, no other
/// such team of its size weighs more, and none has more people than the last rung. The only error is want of memory.
pub(crate) fn next_teams<R: Threads + Sync, B: Matroid>(
    rt: &R,
    alloc: Global,
    last: &UniformExcept,
    rule: &B,
    weights: &[Weight],
) -> Result<Ladder, AllocError>
    requires last_sound { 0 < length last.now.circuit }
    requires rule_sound { B.sound rule.now }
    requires elements { B.ground_size rule.now ≡ last.now.count }
    requires few { last.now.count ≤ most_elements }
    requires lengths { length weights.now ≡ last.now.count }
    requires small { AreWeightsWithin largest_weight weights.now }
    ensures team { IfOk result (λ l. (k : ℕ) (rung : Rung) → slice_get l.rungs.items k ≡ Some rung
        → (length rung.set ≡ k) × (rung.set ≢ last.now.circuit) × (B.indep rule.now rung.set ≡ true)) }
    ensures heaviest { IfOk result (λ l. (k : ℕ) (rung : Rung) → slice_get l.rungs.items k ≡ Some rung
        → (other : List ℕ) → IsSet last.now.count other → length other ≡ k → other ≢ last.now.circuit → B.indep rule.now other ≡ true
        → weight weights.now other ≼ weight weights.now rung.set) }
    ensures largest { IfOk result (λ l. (other : List ℕ) → IsSet last.now.count other → length other ≤ length last.now.circuit
        → other ≢ last.now.circuit → B.indep rule.now other ≡ true → length other < length l.rungs.items) }
    ensures sets { IfOk result (λ l. AreTeamsOfRungs last.now.count l.rungs.items) }
{
    last.lawful();
    uniform_except_means();
    let ladder = best_ladder(rt, alloc, last, rule, weights)?;
    Ok(ladder)
}
