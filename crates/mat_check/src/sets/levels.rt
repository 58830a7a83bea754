//! The clauses of the levels of a union.

ghost use Rattle.std.specs.Prelude.{◌≡◌, ◌<◌, ◌≤◌, ◌+◌, ◌*◌, ◌^◌, ◌==◌, All, length, map, IfOk};
ghost use Rattle.mat_sets.specs.{
  FallingWeights.{falling_weights, heavy},
  Limits.{most_elements, most_matroids},
  Families.{family_union},
  Sets.{AllBelow, intersection, minus},
  Weights.{is_same, weight_at},
};
ghost use Rattle.mat_union.specs.{GrownParts.{AreSound}, Unions.{ranks_sum}};
ghost use Rattle.mat_cert.specs.Certificates.{IsRangedLevel};
ghost use Rattle.mat_check.specs.{Clauses.{first_failure, numbered_clauses}, SetClauses.{level_clauses, outside_clause}};

use crate::reason::{Failure, Reason};
use mat_cert::LevelLine;
use mat_laws::{Matroid, rank_of};
use mat_sets::{ElemSet, Weight, falling_weights, heavy_elements, is_lighter};
use std::alloc::{AllocError, Global};

/// The parts of a union of matroids, with the weights of the elements and the members of all parts.
#[derive(Drop)]
pub(crate) struct Joined<'a, M: Matroid> {
    pub(crate) matroids: &'a [M],
    pub(crate) weights: &'a [Weight],
    pub(crate) parts: &'a [ElemSet],
    pub(crate) all: &'a ElemSet,
}

// Whether the weight at this place is this one.
fn is_at(falling: &[Weight], j: u32, at: Weight) -> bool
    requires { j < length falling.now }
    ensures { result ≡ is_same at (weight_at falling.now j) }
{
    at == falling[j as usize]
}

// The sum of the ranks of a set in all matroids.
fn sum_of_ranks<M: Matroid>(
    alloc: Global,
    matroids: &[M],
    _size: u32,
    set: &ElemSet,
) -> Result<usize, AllocError>
    requires sound { AreSound M.ground_size M.sound _size matroids.now }
    requires few { length matroids.now ≤ most_matroids }
    requires below { AllBelow _size set.now }
    ensures sum { IfOk result (λ sum. sum ≡ ranks_sum (map M.indep matroids.now) set.now) }
    ensures small { IfOk result (λ sum. sum ≤ most_matroids * 2 ^ 32) }
{
    let mut sum = 0;
    for i in 0..matroids.len() {
        sum += rank_of(alloc, &matroids[i], set)? as usize;
    }
    Ok(sum)
}

// The first member of the cut of level j that weighs less than the level, as the failure that it is.
fn outside_failure(weights: &[Weight], j: u32, level: &LevelLine) -> Option<Failure>
    requires { AllBelow (length weights.now) level.now.cut }
    ensures { result ≡ first_failure (map (outside_clause weights.now j level.now) level.now.cut) }
{
    for e in level.cut.as_slice() {
        if is_lighter(weights, *e, level.at) {
            return Some(Reason::Outside.at(j, *e));
        }
    }
    None
}

// Whether the parts hold as many elements of at least the level's weight as its cut allows.
fn is_cut_filled<M: Matroid>(
    alloc: Global,
    joined: &Joined<M>,
    level: &LevelLine,
) -> Result<bool, AllocError>
    requires sound { AreSound M.ground_size M.sound (length joined.now.weights.now) joined.now.matroids.now }
    requires few { length joined.now.weights.now ≤ most_elements }
    requires few_matroids { length joined.now.matroids.now ≤ most_matroids }
    requires cut { AllBelow (length joined.now.weights.now) level.now.cut }
    ensures { IfOk result (λ filled. filled
        ≡ (length (intersection joined.now.all.now (heavy (length joined.now.weights.now) joined.now.weights.now level.now.at))
        == length (minus (heavy (length joined.now.weights.now) joined.now.weights.now level.now.at) level.now.cut)
        + ranks_sum (map M.indep joined.now.matroids.now) level.now.cut)) }
{
    let heavy = heavy_elements(alloc, joined.weights, level.at)?;
    let held = joined.all.among(alloc, &heavy.to_bits(alloc)?)?;
    let rest = heavy.minus(alloc, &level.cut)?;
    let ranks = sum_of_ranks(
        alloc,
        joined.matroids,
        joined.weights.len() as u32,
        &level.cut,
    )?;
    Ok(held.len() == rest.len() + ranks)
}

// The first clause of level j that fails.
fn level_failure<M: Matroid>(
    alloc: Global,
    joined: &Joined<M>,
    falling: &[Weight],
    j: u32,
    level: &LevelLine,
) -> Result<Option<Failure>, AllocError>
    requires sound { AreSound M.ground_size M.sound (length joined.now.weights.now) joined.now.matroids.now }
    requires few { length joined.now.weights.now ≤ most_elements }
    requires few_matroids { length joined.now.matroids.now ≤ most_matroids }
    requires all { joined.now.all.now ≡ family_union joined.now.parts.now }
    requires falling { falling.now ≡ falling_weights joined.now.weights.now }
    requires below { j < length falling.now }
    requires ranged { IsRangedLevel (length joined.now.weights.now) level.now }
    ensures { IfOk result (λ found. found ≡ first_failure (level_clauses (length joined.now.weights.now) (map M.indep joined.now.matroids.now)
        joined.now.weights.now joined.now.parts.now j level.now)) }
{
    if !is_at(falling, j, level.at) {
        return Ok(Some(Reason::Level.at(j, 0)));
    }
    if let Some(failure) = outside_failure(joined.weights, j, level) {
        return Ok(Some(failure));
    }
    if !is_cut_filled(alloc, joined, level)? {
        return Ok(Some(Reason::Cut.at(j, 0)));
    }
    Ok(None)
}

/// The first clause of the levels of a union that fails: for each level a rank in each matroid. The only error is want of memory.
pub(crate) fn levels_failure<M: Matroid>(
    alloc: Global,
    joined: &Joined<M>,
    levels: &[LevelLine],
) -> Result<Option<Failure>, AllocError>
    requires sound { AreSound M.ground_size M.sound (length joined.now.weights.now) joined.now.matroids.now }
    requires few { length joined.now.weights.now ≤ most_elements }
    requires few_matroids { length joined.now.matroids.now ≤ most_matroids }
    requires all { joined.now.all.now ≡ family_union joined.now.parts.now }
    requires few_levels { length levels.now ≤ most_elements }
    requires one_each { length levels.now ≡ length (falling_weights joined.now.weights.now) }
    requires ranged { All (IsRangedLevel (length joined.now.weights.now)) levels.now }
    ensures { IfOk result (λ found. found ≡ first_failure (numbered_clauses (level_clauses (length joined.now.weights.now)
        (map M.indep joined.now.matroids.now) joined.now.weights.now joined.now.parts.now) 0 levels.now)) }
{
    let falling = falling_weights(alloc, joined.weights)?;
    for j in 0..levels.len() {
        if let Some(failure) = level_failure(alloc, joined, &falling, j as u32, &levels[j])? {
            return Ok(Some(failure));
        }
    }
    Ok(None)
}
