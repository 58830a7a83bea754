//! The text of an answer.

ghost use Rattle.std.specs.Prelude.{◌≡◌, IfOk};
ghost use Rattle.mat_cert.specs.{Certificates.{IsRanged, certificate_text}, Views.{certificate_of}};

use crate::answer::Answer;
use crate::write::answers::{
    arbor_text, assign_text, best_text, classes_text, cover_text, disjoint_text, entered_text,
    intersect_text, never_text, pack_any_text, pack_text, rainbow_text, trees_text, union_text,
    unreached_text,
};
use std::alloc::{AllocError, Global};

/// The one text of an answer whose numbers and lists are in range. It takes memory for the text and for two of its lines.
pub fn write_answer(alloc: Global, answer: &Answer) -> Result<Vec<u8>, AllocError>
    requires { IsRanged (certificate_of answer.now) }
    ensures { IfOk result (λ v. v.items ≡ certificate_text (certificate_of answer.now)) }
{
    match answer {
        Answer::Intersect { count, rungs, cut } => intersect_text(alloc, *count, rungs, cut),
        Answer::Best { count, rungs } => best_text(alloc, *count, rungs),
        Answer::UnionOf {
            count,
            weight,
            parts,
            levels,
        } => union_text(alloc, *count, *weight, parts, levels),
        Answer::PackAny { count } => pack_any_text(alloc, *count),
        Answer::Pack { count, bases, cut } => pack_text(alloc, *count, bases, cut),
        Answer::CoverNever { count, loop_at } => never_text(alloc, *count, *loop_at),
        Answer::Cover { count, sets, cut } => cover_text(alloc, *count, sets, cut),
        Answer::Trees { count, trees } => trees_text(alloc, *count, trees),
        Answer::TreesNone {
            count,
            k,
            vertices,
            classes,
        } => classes_text(alloc, *count, *k, *vertices, classes),
        Answer::Arbor {
            count,
            cost,
            arcs,
            first,
            second,
        } => arbor_text(alloc, *count, *cost, arcs, first, second),
        Answer::Unreached {
            count,
            vertices,
            set,
        } => unreached_text(alloc, *count, *vertices, set),
        Answer::Disjoint { count, trees } => disjoint_text(alloc, *count, trees),
        Answer::DisjointNone {
            count,
            k,
            vertices,
            set,
        } => entered_text(alloc, *count, *k, *vertices, set),
        Answer::Rainbow {
            count,
            vertices,
            colours,
            rungs,
            cut,
            missing,
        } => rainbow_text(alloc, *count, *vertices, *colours, rungs, cut, missing),
        Answer::Assign {
            count,
            rows,
            columns,
            rungs,
            cut,
        } => assign_text(alloc, *count, *rows, *columns, rungs, cut),
    }
}
