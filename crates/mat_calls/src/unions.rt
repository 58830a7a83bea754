//! Unions of two matroids in which single elements are independent, a best union of them, the union of two graphs, and both ends of a search
//! for moves. What is printed was worked out by hand from the independent sets, and of the two graphs by `kinds.py`.
ghost use Rattle.std.specs.Prelude.{◌≡◌, ◌<◌, ℕ, [], length, IfOk};
ghost use Rattle.mat_sets.specs.{Graphs.{IsGraph}, Sets.{AllBelow, IsSubset, intersection}};
ghost use Rattle.mat_laws.specs.TightPaths.{row_in};

use crate::known::{told, told_set};
use crate::routes::set_below;
use mat_count::Uniform;
use mat_graphic::Graphic;
use mat_laws::{Exchange, Matroid, rank_of};
use mat_sets::{ElemSet, Pairs, SetList, Weight};
use mat_union::{ExchangeList, Moves, UnionAnswer, UnionOf, best_union, union_search};
use std::alloc::{AllocError, Global};

// The rank of the union of two matroids on four elements, in each of which at most one element is independent.
fn told_rank(alloc: Global) -> Result<String, AllocError> {
    let matroids = vec![in alloc; Uniform::new(4, 1), Uniform::new(4, 1)]?;
    let union = UnionOf::new(matroids);
    let rank = rank_of(alloc, &union, &ElemSet::all_below(alloc, 4)?)?;
    format!(in alloc; "union rank {rank}\n")
}

// The parts of a best union of the two: they hold the two heaviest elements.
fn told_best(alloc: Global) -> Result<String, AllocError> {
    let matroids = vec![in alloc; Uniform::new(4, 1), Uniform::new(4, 1)]?;
    let weights = [
        Weight { main: 3, tie: 0 },
        Weight { main: 9, tie: 0 },
        Weight { main: 1, tie: 0 },
        Weight { main: 5, tie: 0 },
    ];
    let UnionAnswer { parts, levels } = best_union(alloc, &matroids, &weights)?;
    let (part_count, level_count) = (parts.len(), levels.len());
    let mut together = ElemSet::new(alloc);
    for part in parts.as_slice() {
        together = together.union(alloc, part)?;
    }
    let set = told_set(alloc, &together)?;
    format!(in alloc; "best union parts {part_count} levels {level_count} {set}\n")
}

// The graph of three vertices in which edges 0 and 1 are parallel, and edges 2 and 4; edge 3 is a loop.
fn two_pairs(alloc: Global) -> Result<Graphic, AllocError>
    ensures edges { IfOk result (λ g. length g.edges ≡ 5) }
    ensures sound { IfOk result (λ g. IsGraph g.vertices g.edges) }
{
    let edges = vec![in alloc; (0, 1), (0, 1), (1, 2), (1, 1), (1, 2)]?;
    Graphic::new(alloc, 3, Pairs::new(edges))
}

// The graph of two vertices in which edges 0 and 3 are parallel, and the others are loops.
fn one_pair(alloc: Global) -> Result<Graphic, AllocError>
    ensures edges { IfOk result (λ g. length g.edges ≡ 5) }
    ensures sound { IfOk result (λ g. IsGraph g.vertices g.edges) }
{
    let edges = vec![in alloc; (0, 1), (0, 0), (0, 0), (0, 1), (0, 0)]?;
    Graphic::new(alloc, 2, Pairs::new(edges))
}

// Runs of their union along two orders. Of edges 2 and 4 it takes one, and of edges 0, 1 and 3 two: so the first run moves edge 0 to the
// second graph, for edge 1.
fn told_graphs(alloc: Global) -> Result<String, AllocError> {
    let union = UnionOf::new(vec![in alloc; two_pairs(alloc)?, one_pair(alloc)?]?);
    let first = told(alloc, "union", &union, &[0, 1, 4, 3, 2])?;
    let second = told(alloc, "union", &union, &[2, 3, 0, 1, 4])?;
    format!(in alloc; "{first}{second}")
}

// The row of an element of three at a part, of the matroid in which at most one element is independent; an element of the part has none.
fn row_at(alloc: Global, part: &ElemSet, x: u32) -> Result<Exchange, AllocError>
    requires part { AllBelow 3 part.now }
    requires below { x < 3 }
    ensures { IfOk result (λ e. IsSubset e.with part.now) }
{
    let matroid = Uniform::new(3, 1);
    if part.contains(x) || !matroid.independent(alloc, part)? {
        return Ok(Exchange {
            addable: false,
            with: ElemSet::new(alloc),
        });
    }
    matroid.circuit(alloc, part, x)
}

// The rows of the three elements at a part.
fn rows_at(alloc: Global, part: &ElemSet) -> Result<ExchangeList, AllocError>
    requires { AllBelow 3 part.now }
    ensures long { IfOk result (λ rows. length rows ≡ 3) }
    ensures inside { IfOk result (λ rows. (x : ℕ) → IsSubset (row_in rows x).with part.now) }
{
    let rows = vec![in alloc;
        row_at(alloc, part, 0)?,
        row_at(alloc, part, 1)?,
        row_at(alloc, part, 2)?,
    ]?;
    Ok(ExchangeList::new(rows))
}

// How many moves a search has found, or what is reached.
fn told_moves(alloc: Global, moves: &Moves) -> Result<String, AllocError> {
    match moves {
        Moves::Path(path) => {
            let count = path.len();
            format!(in alloc; "union search moves {count}\n")
        }
        Moves::Stuck(reach) => {
            let reached = told_set(alloc, reach)?;
            format!(in alloc; "union search stuck {reached}\n")
        }
    }
}

// What a search for moves finds among three elements at two parts that share none.
fn moves_at(alloc: Global, first: ElemSet, second: ElemSet) -> Result<Moves, AllocError>
    requires first { AllBelow 3 first }
    requires second { AllBelow 3 second }
    requires apart { intersection first second ≡ [] }
{
    let rows = vec![in alloc; rows_at(alloc, &first)?, rows_at(alloc, &second)?]?;
    let parts = SetList::new(vec![in alloc; first, second]?);
    let within = ElemSet::all_below(alloc, 3)?;
    union_search(alloc, rows.as_slice(), &parts, &within)
}

// What is told of the search at the parts with these members.
fn told_search(alloc: Global, first: &[u32], second: &[u32]) -> Result<String, AllocError>
    requires first { AllBelow 3 first.now }
    requires second { AllBelow 3 second.now }
{
    let first = set_below(alloc, 3, first)?;
    let second = set_below(alloc, 3, second)?;
    if !first.is_disjoint(&second) {
        return String::from_str(alloc, "union search of parts that meet\n");
    }
    let moves = moves_at(alloc, first, second)?;
    told_moves(alloc, &moves)
}

/// What is told of unions.
pub(crate) fn unions_report(alloc: Global) -> Result<String, AllocError> {
    let rank = told_rank(alloc)?;
    let best = told_best(alloc)?;
    let graphs = told_graphs(alloc)?;
    let path = told_search(alloc, &[0], &[])?;
    let stuck = told_search(alloc, &[0], &[1])?;
    format!(in alloc; "{rank}{best}{graphs}{path}{stuck}")
}
