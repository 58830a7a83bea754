//! Parts of the elements, each of which its own matroid allows.

ghost use Rattle.std.specs.Prelude.{◌≤◌, length, All};
ghost use Rattle.mat_sets.specs.{Limits.{most_elements}, Sets.{AllBelow}};
ghost use Rattle.mat_union.specs.GrownParts.{AreSound};
ghost use Rattle.mat_any.specs.{Trees.{element_count, IsSound}, Views.{tree_of}};
ghost use Rattle.mat_cert.specs.Certificates.{IsRangedLevel};

use mat_any::AnyMatroid;
use mat_cert::LevelLine;
use mat_laws::rank_of;
use mat_reasons::{FEW, have_tie, state_rule, tell_ties};
use mat_sets::{ElemSet, Weight, heavy_elements};
use mat_text::{Called, Noun, Spelled, Text, many, outside, tell_left, tell_parts};
use std::alloc::{AllocError, Global};

// The most levels that are told in full.
const LEVELS: usize = 8;

/// Matroids on the same elements, and the weights of these.
#[derive(Clone, Copy)]
pub(crate) struct Rules<'a> {
    pub(crate) weights: &'a [Weight],
    pub(crate) matroids: &'a [AnyMatroid],
}

// The elements of at least a weight, how many of them are in parts, and those that are not in the cut.
#[derive(Drop)]
struct Heavy {
    count: usize,
    held: usize,
    rest: ElemSet,
}

// What a level says of its elements.
fn heavy_at(
    alloc: Global,
    weights: &[Weight],
    left: &ElemSet,
    level: &LevelLine,
) -> Result<Heavy, AllocError>
    requires { length weights.now ≤ most_elements }
{
    let all = heavy_elements(alloc, weights, level.at)?;
    let held = all.minus(alloc, left)?;
    Ok(Heavy {
        count: all.len(),
        held: held.len(),
        rest: all.minus(alloc, &level.cut)?,
    })
}

// The ranks of a set in all matroids, as one number where they are many.
#[derive(Drop)]
struct Ranks {
    words: String,
    are_several: bool,
}

// The rank of a set in each matroid.
fn rank_list(alloc: Global, rules: &Rules<'_>, set: &ElemSet) -> Result<Vec<u32>, AllocError>
    requires sound { AreSound (λ m. element_count (tree_of m)) (λ m. IsSound (tree_of m)) (length rules.now.weights.now) rules.now.matroids.now }
    requires below { AllBelow (length rules.now.weights.now) set.now }
{
    let mut ranks = Vec::new(alloc);
    for i in 0..rules.matroids.len() {
        ranks.push(rank_of(alloc, &rules.matroids[i], set)?)?;
    }
    Ok(ranks)
}

// The sum of ranks, of which there are few.
fn rank_sum(ranks: &[u32]) -> u64 {
    let mut sum: u64 = 0;
    for rank in ranks {
        sum = sum.saturating_add(u64::from(*rank));
    }
    sum
}

// Ranks with ` + ` between them.
fn rank_terms(alloc: Global, ranks: &[u32]) -> Result<String, AllocError> {
    let mut words = String::new(alloc);
    for (i, rank) in ranks.iter().enumerate() {
        let plus = if i == 0 { "" } else { " + " };
        write!(words, "{plus}{rank}")?;
    }
    Ok(words)
}

// The ranks of a set.
fn ranks_of(alloc: Global, rules: &Rules<'_>, set: &ElemSet) -> Result<Ranks, AllocError>
    requires sound { AreSound (λ m. element_count (tree_of m)) (λ m. IsSound (tree_of m)) (length rules.now.weights.now) rules.now.matroids.now }
    requires below { AllBelow (length rules.now.weights.now) set.now }
{
    let ranks = rank_list(alloc, rules, set)?;
    let are_several = 1 < ranks.len() && ranks.len() <= FEW;
    let words = if ranks.len() > FEW {
        format!(in alloc; "{}", rank_sum(&ranks))?
    } else {
        rank_terms(alloc, &ranks)?
    };
    Ok(Ranks { words, are_several })
}

// Tells what the rules allow of all elements of a level, which are in its cut.
fn tell_whole(text: &mut Text, head: &str, heavy: &Heavy, ranks: &Ranks) -> Result<(), AllocError> {
    let held = heavy.held;
    let words = &ranks.words;
    if ranks.are_several {
        text.detail(format_args!("{head} Of all the rules allow at most {words} = {held}."))
    } else {
        text.detail(format_args!("{head} Of all the rules allow at most {words}."))
    }
}

// Tells what the rules allow of the elements of a level that are in its cut, which are those listed, or all but those.
fn tell_listed(
    text: &mut Text,
    called: &Called<'_>,
    head: &str,
    heavy: &Heavy,
    ranks: &Ranks,
    cut: &ElemSet,
) -> Result<(), AllocError> {
    let (all_but, listed) = if cut.len() <= heavy.rest.len() {
        ("", cut)
    } else {
        ("all but ", &heavy.rest)
    };
    let names = called.elements_of(text.alloc(), listed)?;
    text.list(
        format_args!(
            "{head} Of {all_but}the {} listed here the rules allow at most {}, and {} + {} = {}",
            listed.len(),
            ranks.words,
            heavy.rest.len(),
            ranks.words,
            heavy.held
        ),
        &names,
    )
}

// Tells why the parts hold no more elements of a level's weight or more.
fn tell_level(
    text: &mut Text,
    called: &Called<'_>,
    rules: &Rules<'_>,
    level: &LevelLine,
    heavy: &Heavy,
) -> Result<(), AllocError>
    requires sound { AreSound (λ m. element_count (tree_of m)) (λ m. IsSound (tree_of m)) (length rules.now.weights.now) rules.now.matroids.now }
    requires below { AllBelow (length rules.now.weights.now) level.now.cut }
{
    let head = format!(in text.alloc();
        "Weight {} or more: {}, {} in parts.",
        Spelled(level.at),
        many(heavy.count, Noun::Element),
        heavy.held
    )?;
    let ranks = ranks_of(text.alloc(), rules, &level.cut)?;
    if heavy.rest.is_empty() {
        tell_whole(text, &head, heavy, &ranks)
    } else {
        tell_listed(text, called, &head, heavy, &ranks, &level.cut)
    }
}

// Whether all these elements weigh less than this.
fn are_lighter(weights: &[Weight], set: &ElemSet, at: Weight) -> bool {
    for e in set.as_slice() {
        if let Some(weight) = weights.get(*e as usize)
            && at <= *weight
        {
            return false;
        }
    }
    true
}

// How many of the levels, from the heaviest on, have all their elements in parts, where `left` are those that are in none.
fn full_levels(weights: &[Weight], left: &ElemSet, levels: &[LevelLine]) -> usize
    ensures { result ≤ length levels.now }
{
    for i in 0..levels.len() {
        if !are_lighter(weights, left, levels[i].at) {
            return i;
        }
    }
    levels.len()
}

// Tells of the levels whose elements are all in parts the last one.
fn tell_full(text: &mut Text, at: Weight, count: usize) -> Result<(), AllocError> {
    text.detail(format_args!(
        "Weight {} or more: {}, all in parts.",
        Spelled(at),
        many(count, Noun::Element)
    ))
}

// Tells these levels.
fn tell_levels(
    text: &mut Text,
    called: &Called<'_>,
    rules: &Rules<'_>,
    left: &ElemSet,
    levels: &[LevelLine],
) -> Result<(), AllocError>
    requires sound { AreSound (λ m. element_count (tree_of m)) (λ m. IsSound (tree_of m)) (length rules.now.weights.now) rules.now.matroids.now }
    requires few { length rules.now.weights.now ≤ most_elements }
    requires ranged { All (IsRangedLevel (length rules.now.weights.now)) levels.now }
{
    for i in 0..levels.len() {
        let heavy = heavy_at(text.alloc(), rules.weights, left, &levels[i])?;
        tell_level(text, called, rules, &levels[i], &heavy)?;
    }
    Ok(())
}

// Tells the levels that are not full, of many only the first and the last.
fn tell_some_levels(
    text: &mut Text,
    called: &Called<'_>,
    rules: &Rules<'_>,
    left: &ElemSet,
    levels: &[LevelLine],
) -> Result<(), AllocError>
    requires sound { AreSound (λ m. element_count (tree_of m)) (λ m. IsSound (tree_of m)) (length rules.now.weights.now) rules.now.matroids.now }
    requires few { length rules.now.weights.now ≤ most_elements }
    requires ranged { All (IsRangedLevel (length rules.now.weights.now)) levels.now }
{
    if levels.len() <= LEVELS {
        return tell_levels(text, called, rules, left, levels);
    }
    let others = many(levels.len() - LEVELS, Noun::OtherWeight);
    tell_levels(text, called, rules, left, &levels[..LEVELS / 2])?;
    text.detail(format_args!(".. and so for {others}, for which see the certificate .."))?;
    tell_levels(
        text,
        called,
        rules,
        left,
        &levels[levels.len() - LEVELS / 2..],
    )
}

// Tells why no parts are better.
fn tell_reason(
    text: &mut Text,
    called: &Called<'_>,
    rules: &Rules<'_>,
    left: &ElemSet,
    levels: &[LevelLine],
) -> Result<(), AllocError>
    requires sound { AreSound (λ m. element_count (tree_of m)) (λ m. IsSound (tree_of m)) (length rules.now.weights.now) rules.now.matroids.now }
    requires few { length rules.now.weights.now ≤ most_elements }
    requires ranged { All (IsRangedLevel (length rules.now.weights.now)) levels.now }
{
    text.say("Why no parts hold more elements, and none that hold as many weigh more:")?;
    let full = full_levels(rules.weights, left, levels);
    if full > 0 {
        let last = &levels[full - 1];
        let heavy = heavy_at(text.alloc(), rules.weights, left, last)?;
        tell_full(text, last.at, heavy.count)?;
    }
    tell_some_levels(text, called, rules, left, &levels[full..])?;
    text.detail(
        "So at each weight the parts hold as many elements of this weight or more as any parts can.",
    )
}

// Tells what is wanted.
fn tell_wanted(text: &mut Text, called: &Called<'_>, rules: &Rules<'_>) -> Result<(), AllocError> {
    text.say(format_args!(
        "Wanted: of {} as many as can be in {} that keep their rules.",
        many(rules.weights.len(), Noun::Element),
        many(rules.matroids.len(), Noun::Part)
    ))?;
    for (i, matroid) in rules.matroids.iter().enumerate() {
        state_rule(text, called, format_args!("rule {}", i + 1), matroid)?;
    }
    tell_ties(text, have_tie(rules.weights))
}

/// Tells parts of the most elements, and of these of the greatest weight, with a cut for each weight. The only error is want of memory.
pub(crate) fn tell_union(
    text: &mut Text,
    called: &Called<'_>,
    rules: &Rules<'_>,
    weight: Weight,
    parts: &[ElemSet],
    levels: &[LevelLine],
) -> Result<(), AllocError>
    requires sound { AreSound (λ m. element_count (tree_of m)) (λ m. IsSound (tree_of m)) (length rules.now.weights.now) rules.now.matroids.now }
    requires few { length rules.now.weights.now ≤ most_elements }
    requires ranged { All (IsRangedLevel (length rules.now.weights.now)) levels.now }
{
    tell_wanted(text, called, rules)?;
    let left = outside(text.alloc(), rules.weights.len() as u32, parts)?;
    text.say(format_args!(
        "BEST: {} in parts, weight {}.",
        many(
            rules.weights.len().saturating_sub(left.len()),
            Noun::Element
        ),
        Spelled(weight)
    ))?;
    tell_parts(text, called, Noun::Part, parts)?;
    tell_left(text, called, Noun::Part, &left)?;
    tell_reason(text, called, rules, &left, levels)
}
