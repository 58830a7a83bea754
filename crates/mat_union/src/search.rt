//! The search for moves.
ghost use Rattle.std.specs.Prelude.{◌≡◌, ◌<◌, ◌^◌, true, length, slice_index_or, [], IfOk};
ghost use Rattle.mat_sets.specs.Walks.{IsShortestWalk};
ghost use Rattle.mat_union.specs.{
  MoveGraphs.{AreLong, AreMovable},
  Moves.{can_enter, can_push, exchanges_of, is_free, IsMoves, IsShortestMovePath},
};

use crate::exchange_list::ExchangeList;
use crate::move_graph::{MoveGraph, push_table};
use crate::move_search::moves_to;
use crate::moves::{Move, Moves};
use mat_sets::{ElemSet, SetList, WalkSearch, shortest_walk};
use std::alloc::{AllocError, Global};

/// The number of a part to which u can be added.
fn entered_part(rows: &[ExchangeList], u: u32) -> u32
    requires few { length rows.now < 2 ^ 32 }
    requires long { AreLong u rows.now }
    requires some { can_enter (length rows.now) (exchanges_of rows.now) u ≡ true }
    ensures below { result < length rows.now }
    ensures found { (exchanges_of rows.now result).adds u ≡ true }
{
    for i in 0..rows.len() {
        if rows[i].get(u as usize).addable {
            return i as u32;
        }
    }
    0
}

/// A move path with fewest moves from an element of `within` that is in no part, or, where there is none, all that these elements reach
/// (Schrijver, chapter 42). List i of `rows` has a row for each element, its exchanges at part i. The arcs of all rows are gone through once, to
/// make a table of them, and then those from the elements that are reached. The only error is want of memory.
pub fn union_search(
    alloc: Global,
    rows: &[ExchangeList],
    parts: &SetList,
    within: &ElemSet,
) -> Result<Moves, AllocError>
    requires some { 0 < length rows.now }
    requires few { length rows.now < 2 ^ 32 }
    requires size { length (slice_index_or rows.now 0 []) < 2 ^ 32 }
    requires movable { AreMovable (length (slice_index_or rows.now 0 [])) rows.now parts.now within.now }
    ensures { IfOk result (IsMoves (length (slice_index_or rows.now 0 [])) (length rows.now) (exchanges_of rows.now) (is_free parts.now within.now)) }
{
    let n = rows[0].len() as u32;
    let table = push_table(alloc, rows, n)?;
    let graph = MoveGraph {
        rows,
        parts,
        within,
        table: &table,
    };
    match shortest_walk(alloc, &graph)? {
        WalkSearch::Walk(walk) => Ok(Moves::Path(moves_along(
            alloc, rows, parts, within, n, &walk,
        )?)),
        WalkSearch::Reached(reach) => Ok(Moves::Stuck(reach)),
    }
}

/// The moves along a walk: each element moves into the part of the next, whose place it can take there, and the last is added to one.
fn moves_along(
    alloc: Global,
    rows: &[ExchangeList],
    parts: &SetList,
    within: &ElemSet,
    n: u32,
    walk: &[u32],
) -> Result<Vec<Move>, AllocError>
    requires few { length rows.now < 2 ^ 32 }
    requires movable { AreMovable n rows.now parts.now within.now }
    requires walk { IsShortestWalk n (can_push (length rows.now) (exchanges_of rows.now)) (is_free parts.now within.now) (can_enter (length rows.now) (exchanges_of rows.now)) walk.now }
    ensures { IfOk result (λ moves. IsShortestMovePath (length rows.now) (exchanges_of rows.now) (is_free parts.now within.now) moves.items) }
{
    let last = walk.len() - 1;
    let part = entered_part(rows, walk[last]);
    moves_to(alloc, parts.as_slice(), walk, part)
}
