//! The reason that parts give, each of which its own matroid allows.

ghost use Rattle.std.specs.Prelude.{◌≡◌, ◌≤◌, ◌++◌, ◌∷◌, length, map, flat_map, All, IfOk, OnOk};
ghost use Rattle.mat_sets.specs.{
  FallingWeights.{heavy},
  Families.{family_union},
  Limits.{most_elements, most_matroids},
  Sets.{intersection, AllBelow},
};
ghost use Rattle.mat_union.specs.GrownParts.{AreSound};
ghost use Rattle.mat_cert.specs.Certificates.{IsRangedLevel};
ghost use Rattle.mat_facts.specs.{Facts.{allowed}, Reasons.{level_facts, level_most_facts}, Views.{facts_of}};

use crate::fact::Fact;
use crate::ladders::put_most;
use crate::sizes::put;
use mat_cert::LevelLine;
use mat_laws::Matroid;
use mat_sets::{ElemSet, Weight, heavy_elements};
use mat_union::members_of;
use std::alloc::{AllocError, Global};

// Adds for each matroid that it allows few of a set.
fn put_each_most<'a, M: Matroid>(
    alloc: Global,
    facts: &mut Vec<Fact<'a>>,
    matroids: &[M],
    set: &ElemSet,
    _size: u32,
) -> Result<(), AllocError>
    requires sound { AreSound M.ground_size M.sound _size matroids.now }
    requires few { length matroids.now ≤ most_matroids }
    requires below { AllBelow _size set.now }
    ensures { OnOk result (facts_of facts.new.items ≡ facts_of facts.old.items ++ level_most_facts 0 (map M.indep matroids.now) set.now) }
{
    for i in 0..matroids.len() {
        put_most(alloc, facts, i as u32, &matroids[i], set)?;
    }
    Ok(())
}

// How many of these elements weigh this or more.
fn heavy_count(
    alloc: Global,
    weights: &[Weight],
    members: &ElemSet,
    at: Weight,
) -> Result<usize, AllocError>
    requires { length weights.now ≤ most_elements }
    ensures { IfOk result (λ count. count ≡ length (intersection members.now (heavy (length weights.now) weights.now at))) }
{
    let heavy = heavy_elements(alloc, weights, at)?;
    let held = members.among(alloc, &heavy.to_bits(alloc)?)?;
    Ok(held.len())
}

// Parts on elements with these weights, and the members of all parts.
#[derive(Clone, Copy)]
struct Joined<'b> {
    weights: &'b [Weight],
    parts: &'b [ElemSet],
    members: &'b ElemSet,
}

// Adds that no parts hold more elements of a level.
fn put_level<'a, M: Matroid>(
    alloc: Global,
    facts: &mut Vec<Fact<'a>>,
    matroids: &[M],
    joined: &Joined<'_>,
    level: &LevelLine,
) -> Result<(), AllocError>
    requires sound { AreSound M.ground_size M.sound (length joined.now.weights.now) matroids.now }
    requires few { length joined.now.weights.now ≤ most_elements }
    requires few_matroids { length matroids.now ≤ most_matroids }
    requires members { joined.now.members.now ≡ family_union joined.now.parts.now }
    requires cut { AllBelow (length joined.now.weights.now) level.now.cut }
    ensures { OnOk result (facts_of facts.new.items ≡ facts_of facts.old.items
        ++ level_facts (map M.indep matroids.now) joined.now.weights.now joined.now.parts.now level.now) }
{
    let count = heavy_count(alloc, joined.weights, joined.members, level.at)?;
    put(
        facts,
        Fact::InParts {
            at: level.at,
            count,
        },
    )?;
    let size = joined.weights.len() as u32;
    put_each_most(alloc, facts, matroids, &level.cut, size)?;
    Ok(())
}

// Adds that no parts hold more elements of each of these levels.
fn put_levels<'a, M: Matroid>(
    alloc: Global,
    facts: &mut Vec<Fact<'a>>,
    matroids: &[M],
    joined: &Joined<'_>,
    levels: &[LevelLine],
) -> Result<(), AllocError>
    requires sound { AreSound M.ground_size M.sound (length joined.now.weights.now) matroids.now }
    requires few { length joined.now.weights.now ≤ most_elements }
    requires few_matroids { length matroids.now ≤ most_matroids }
    requires members { joined.now.members.now ≡ family_union joined.now.parts.now }
    requires ranged { All (IsRangedLevel (length joined.now.weights.now)) levels.now }
    ensures { OnOk result (facts_of facts.new.items ≡ facts_of facts.old.items
        ++ flat_map (level_facts (map M.indep matroids.now) joined.now.weights.now joined.now.parts.now) levels.now) }
{
    for j in 0..levels.len() {
        put_level(alloc, facts, matroids, joined, &levels[j])?;
    }
    Ok(())
}

/// The facts that parts give, with a cut for each level. The only error is want of memory.
pub(crate) fn union_reason<'a, M: Matroid>(
    alloc: Global,
    matroids: &[M],
    weights: &[Weight],
    parts: &[ElemSet],
    levels: &[LevelLine],
) -> Result<Vec<Fact<'a>>, AllocError>
    requires sound { AreSound M.ground_size M.sound (length weights.now) matroids.now }
    requires few { length weights.now ≤ most_elements }
    requires few_matroids { length matroids.now ≤ most_matroids }
    requires ranged { All (IsRangedLevel (length weights.now)) levels.now }
    ensures { IfOk result (λ facts. facts_of facts.items
        ≡ allowed ∷ flat_map (level_facts (map M.indep matroids.now) weights.now parts.now) levels.now) }
{
    let members = members_of(alloc, parts)?;
    let joined = Joined {
        weights,
        parts,
        members: &members,
    };
    let mut facts = Vec::new(alloc);
    put(&mut facts, Fact::Allowed)?;
    put_levels(alloc, &mut facts, matroids, &joined, levels)?;
    Ok(facts)
}
