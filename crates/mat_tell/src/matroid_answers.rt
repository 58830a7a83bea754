//! Answers about matroids: about a pair, about a list, and about a list of one.

ghost use Rattle.std.specs.Prelude.{◌≡◌, ◌≤◌, ◌∷◌, [], false, length, map};
ghost use Rattle.mat_sets.specs.Limits.{most_elements};
ghost use Rattle.mat_any.specs.{Views.{tree_of}};
ghost use Rattle.mat_cert.specs.{Certificates.{IsRanged}, Views.{certificate_of}};
ghost use Rattle.mat_problem.specs.{Instances.{pair, list}, Soundness.{IsSoundInstance}};
ghost use Rattle.mat_right.specs.Right.{IsRight};
ghost use Rattle.mat_tell.specs.Forms.{is_union};

use crate::best::tell_best;
use crate::covering::{tell_cover, tell_never};
use crate::intersection::{Pair, tell_intersection};
use crate::packing::{tell_any_bases, tell_bases};
use crate::unions::{Rules, tell_union};
use mat_any::AnyMatroid;
use mat_cert::Answer;
use mat_sets::Weight;
use mat_text::{Called, Text};
use std::alloc::AllocError;

/// Tells a right answer about a pair of matroids. The only error is want of memory.
pub(crate) fn tell_pair(
    text: &mut Text,
    called: &Called<'_>,
    both: &Pair<'_>,
    answer: &Answer,
) -> Result<(), AllocError>
    requires sound { IsSoundInstance (pair both.now.weights.now (tree_of both.now.first.now) (tree_of both.now.second.now)) }
    requires ranged { IsRanged (certificate_of answer.now) }
    requires right { IsRight (pair both.now.weights.now (tree_of both.now.first.now) (tree_of both.now.second.now)) (certificate_of answer.now) }
{
    match answer {
        Answer::Intersect { rungs, cut, .. } => tell_intersection(text, called, both, rungs, cut),
        _ => unreachable!(),
    }
}

// Tells a right answer about one matroid.
fn tell_single(
    text: &mut Text,
    called: &Called<'_>,
    weights: &[Weight],
    matroid: &AnyMatroid,
    answer: &Answer,
) -> Result<(), AllocError>
    requires sound { IsSoundInstance (list weights.now (tree_of matroid.now ∷ [])) }
    requires ranged { IsRanged (certificate_of answer.now) }
    requires right { IsRight (list weights.now (tree_of matroid.now ∷ [])) (certificate_of answer.now) }
    requires one { is_union (certificate_of answer.now) ≡ false }
{
    match answer {
        Answer::Best { rungs, .. } => tell_best(text, called, weights, matroid, rungs),
        Answer::PackAny { .. } => tell_any_bases(text, called, matroid),
        Answer::Pack { bases, cut, .. } => tell_bases(text, called, matroid, bases, cut),
        Answer::CoverNever { loop_at, .. } => tell_never(text, called, matroid, *loop_at),
        Answer::Cover { sets, cut, .. } => tell_cover(text, called, matroid, sets, cut),
        _ => unreachable!(),
    }
}

/// Tells a right answer about a list of matroids. The only error is want of memory.
pub(crate) fn tell_list(
    text: &mut Text,
    called: &Called<'_>,
    rules: &Rules<'_>,
    answer: &Answer,
) -> Result<(), AllocError>
    requires few { length rules.now.weights.now ≤ most_elements }
    requires sound { IsSoundInstance (list rules.now.weights.now (map tree_of rules.now.matroids.now)) }
    requires ranged { IsRanged (certificate_of answer.now) }
    requires right { IsRight (list rules.now.weights.now (map tree_of rules.now.matroids.now)) (certificate_of answer.now) }
{
    match answer {
        Answer::UnionOf {
            weight,
            parts,
            levels,
            ..
        } => tell_union(text, called, rules, *weight, parts.as_slice(), levels),
        _ => match rules.matroids {
            [matroid] => tell_single(text, called, rules.weights, matroid, answer),
            _ => Ok(()),
        },
    }
}
