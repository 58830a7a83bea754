//! Writing a witness.

ghost use Rattle.std.specs.Prelude.{◌≡◌, ◌≤◌, ◌++◌, true, length, map, IfOk, OnOk};
ghost use Rattle.mat_sets.specs.Limits.{most_elements};
ghost use Rattle.mat_words.specs.Lines.{text_of};
ghost use Rattle.mat_any.specs.Views.{tree_of};
ghost use Rattle.mat_cert.specs.{Certificates.{IsRanged}, Views.{certificate_of}};
ghost use Rattle.mat_problem.specs.{Validity.{IsValid}, Views.{instance_of}};
ghost use Rattle.mat_witness.specs.{
  Kinds.{has_rung, is_witnessed_pair},
  Lines.{bounds_lines, witness_lines, witness_text},
  Shown.{IsWitnessFor, bounded_trees},
  Views.{bound_part, witness_parts},
};

use super::write_parts::{put_free, put_row};
use crate::bound_rows::bound_counts;
use crate::witness::{Most, Witness};
use mat_any::AnyMatroid;
use mat_cert::{Answer, PricedRung, put_end_line};
use mat_problem::Problem;
use mat_words::put_numbers_line;
use std::alloc::{AllocError, Global};

// Appends the lines of the bounds of rung k.
fn put_rung_bounds(
    alloc: Global,
    out: &mut Vec<u8>,
    first: &AnyMatroid,
    second: &AnyMatroid,
    k: u32,
    rung: &PricedRung,
    bounds: &[Most],
) -> Result<(), AllocError>
    requires first_half { length rung.now.first ≤ most_elements }
    requires second_half { length rung.now.second ≤ most_elements }
    requires bounds { length bounds.now ≡ length (bounded_trees (tree_of first.now) (tree_of second.now) k rung.now) }
    ensures { OnOk result (out.new.items ≡ out.old.items
        ++ text_of (bounds_lines (bounded_trees (tree_of first.now) (tree_of second.now) k rung.now) (map bound_part bounds.now))) }
{
    let (firsts, seconds) = bound_counts(alloc, k, rung)?;
    put_row(out, first, second, firsts, seconds, bounds)
}

// The text of a witness for rung k of two matroids.
fn witness_text(
    alloc: Global,
    witness: &Witness,
    first: &AnyMatroid,
    second: &AnyMatroid,
    k: u32,
    rung: &PricedRung,
) -> Result<Vec<u8>, AllocError>
    requires first_half { length rung.now.first ≤ most_elements }
    requires second_half { length rung.now.second ≤ most_elements }
    requires bounds { length witness.now.bounds.items ≡ length (bounded_trees (tree_of first.now) (tree_of second.now) k rung.now) }
    ensures { IfOk result (λ text. text.items ≡ text_of (witness_lines (tree_of first.now) (tree_of second.now)
        (bounded_trees (tree_of first.now) (tree_of second.now) k rung.now) (witness_parts witness.now))) }
{
    let mut out = Vec::new(alloc);
    out.extend_from_slice(b"witness 1\n")?;
    put_numbers_line(&mut out, b"rung", &[i128::from(witness.k)])?;
    put_free(&mut out, first, &witness.first)?;
    put_free(&mut out, second, &witness.second)?;
    put_rung_bounds(
        alloc,
        &mut out,
        first,
        second,
        k,
        rung,
        witness.bounds.as_slice(),
    )?;
    put_end_line(&mut out)?;
    Ok(out)
}

/// The one text of a witness for rung k of an answer to a problem. The only error is want of memory.
pub fn write_witness(
    alloc: Global,
    witness: &Witness,
    problem: &Problem,
    answer: &Answer,
    k: u32,
) -> Result<Vec<u8>, AllocError>
    requires valid { IsValid (instance_of problem.now) }
    requires witnessed { is_witnessed_pair (instance_of problem.now) ≡ true }
    requires ranged { IsRanged (certificate_of answer.now) }
    requires rung { has_rung (certificate_of answer.now) k ≡ true }
    requires witness { IsWitnessFor (instance_of problem.now) (certificate_of answer.now) k (witness_parts witness.now) }
    ensures { IfOk result (λ text. text.items ≡ witness_text (instance_of problem.now) (certificate_of answer.now) k (witness_parts witness.now)) }
{
    match (problem, answer) {
        (Problem::Pair { first, second, .. }, Answer::Intersect { rungs, .. }) => {
            witness_text(alloc, witness, first, second, k, &rungs[k as usize])
        }
        _ => Ok(Vec::new(alloc)),
    }
}
