//! A problem of each kind that is made from a number.

ghost use Rattle.std.specs.Prelude.{◌≡◌, ◌<◌, ◌≤◌, ◌∷◌, [], map, IfOk};
ghost use Rattle.mat_sets.specs.{Limits.{most_elements}, Graphs.{IsGraph}};
ghost use Rattle.mat_any.specs.{Trees.{graphic}, Views.{tree_of}};
ghost use Rattle.mat_problem.specs.{Validity.{IsValid}, Views.{instance_of}};
ghost use Rattle.mat_gen.specs.Samples.{sample_of};
ghost use Rattle.mat_gen.specs.declared.kind.SampleKind.TheVariants as kinds;

use crate::generator::{COSTS, NO_WEIGHT, WEIGHTS, numbers, pairs, weights};
use crate::kind::SampleKind;
use mat_any::AnyMatroid;
use mat_count::Partition;
use mat_graphic::Graphic;
use mat_problem::Problem;
use mat_sets::Pairs;
use std::alloc::{AllocError, Global};

/// The pair with so many elements: the ends, the class and the weight of each, in four draws. The only error is want of memory.
fn pair_sample(alloc: Global, count: u32, seed: u64) -> Result<Problem, AllocError>
    requires few { count ≤ most_elements }
    requires seeded { seed < 2147483647 }
    ensures { IfOk result (λ p. instance_of p ≡ sample_of kinds.Pair count seed) }
{
    let vertices = count / 4 + 2;
    let classes = count / 5 + 1;
    let edges = pairs(alloc, seed, count, 4, 0, vertices)?;
    let class_of = numbers(alloc, seed, count, 4, 2, classes)?;
    let weights = weights(alloc, seed, count, 4, 3, WEIGHTS, NO_WEIGHT)?;
    let first = Graphic::new(alloc, vertices, edges)?;
    let caps = vec![in alloc; 1; classes as usize]?;
    let second = Partition::by_labels(alloc, &class_of, caps)?;
    Ok(Problem::Pair {
        weights,
        first: AnyMatroid::Graphic(first),
        second: AnyMatroid::Partition(second),
    })
}

/// The two graphic matroids of two graphs with so many vertices.
fn two_graphic(
    alloc: Global,
    vertices: u32,
    first: Pairs,
    second: Pairs,
) -> Result<Vec<AnyMatroid>, AllocError>
    requires first { IsGraph vertices first }
    requires second { IsGraph vertices second }
    ensures { IfOk result (λ v. map tree_of v.items ≡ graphic vertices first ∷ graphic vertices second ∷ []) }
{
    let first = AnyMatroid::Graphic(Graphic::new(alloc, vertices, first)?);
    let second = AnyMatroid::Graphic(Graphic::new(alloc, vertices, second)?);
    let mut matroids = Vec::new(alloc);
    matroids.push(first)?;
    matroids.push(second)?;
    Ok(matroids)
}

/// The list of two graphic matroids with so many elements: the ends of each in the first graph and in the second, and its weight, in five
/// draws. The only error is want of memory.
fn list_sample(alloc: Global, count: u32, seed: u64) -> Result<Problem, AllocError>
    requires few { count ≤ most_elements }
    requires seeded { seed < 2147483647 }
    ensures { IfOk result (λ p. instance_of p ≡ sample_of kinds.List count seed) }
{
    let vertices = count / 4 + 2;
    let first = pairs(alloc, seed, count, 5, 0, vertices)?;
    let second = pairs(alloc, seed, count, 5, 2, vertices)?;
    let weights = weights(alloc, seed, count, 5, 4, WEIGHTS, NO_WEIGHT)?;
    let matroids = two_graphic(alloc, vertices, first, second)?;
    Ok(Problem::List { weights, matroids })
}

/// The graph with so many edges, two draws each. The only error is want of memory.
fn graph_sample(alloc: Global, count: u32, seed: u64) -> Result<Problem, AllocError>
    requires few { count ≤ most_elements }
    requires seeded { seed < 2147483647 }
    ensures { IfOk result (λ p. instance_of p ≡ sample_of kinds.Graph count seed) }
{
    let vertices = count / 8 + 2;
    let edges = pairs(alloc, seed, count, 2, 0, vertices)?;
    Ok(Problem::Graph { vertices, edges })
}

/// The directed graph with so many arcs, whose root is vertex 0: the tail, the head and the cost of each arc, in three draws. The
/// only error is want of memory.
fn rooted_sample(alloc: Global, count: u32, seed: u64) -> Result<Problem, AllocError>
    requires few { count ≤ most_elements }
    requires seeded { seed < 2147483647 }
    ensures { IfOk result (λ p. instance_of p ≡ sample_of kinds.Rooted count seed) }
{
    let vertices = count / 4 + 2;
    let arcs = pairs(alloc, seed, count, 3, 0, vertices)?;
    let costs = weights(alloc, seed, count, 3, 2, COSTS, 0)?;
    Ok(Problem::Rooted {
        vertices,
        root: 0,
        arcs,
        costs,
    })
}

/// The table with so many cells, and as many rows as columns: the row, the column and the weight of each cell, in three draws.
/// The only error is want of memory.
fn table_sample(alloc: Global, count: u32, seed: u64) -> Result<Problem, AllocError>
    requires few { count ≤ most_elements }
    requires seeded { seed < 2147483647 }
    ensures { IfOk result (λ p. instance_of p ≡ sample_of kinds.Table count seed) }
{
    let rows = count / 4 + 1;
    let cells = pairs(alloc, seed, count, 3, 0, rows)?;
    let weights = weights(alloc, seed, count, 3, 2, WEIGHTS, NO_WEIGHT)?;
    Ok(Problem::Table {
        rows,
        columns: rows,
        cells,
        weights,
    })
}

/// The problem of this kind.
fn drawn(alloc: Global, kind: SampleKind, size: u32, seed: u64) -> Result<Problem, AllocError>
    requires few { size ≤ most_elements }
    requires seeded { seed < 2147483647 }
    ensures { IfOk result (λ p. instance_of p ≡ sample_of kind size seed) }
{
    match kind {
        SampleKind::Pair => pair_sample(alloc, size, seed),
        SampleKind::List => list_sample(alloc, size, seed),
        SampleKind::Graph => graph_sample(alloc, size, seed),
        SampleKind::Rooted => rooted_sample(alloc, size, seed),
        SampleKind::Table => table_sample(alloc, size, seed),
    }
}

/// The problem of this kind with `size` elements, edges, arcs or cells, from 1 to 500, that is drawn from the seed, which is from 1 to
/// 2147483646. One number, one problem. The only error is want of memory.
pub fn sample(alloc: Global, kind: SampleKind, size: u32, seed: u64) -> Result<Problem, AllocError>
    requires some { 1 ≤ size }
    requires few { size ≤ most_elements }
    requires seed_least { 1 ≤ seed }
    requires seed_most { seed ≤ 2147483646 }

    // The problem is the one that the draws from the seed make.
    ensures problem { IfOk result (λ p. instance_of p ≡ sample_of kind size seed) }

    // It is in range, and so its matroids are sound and on the elements that the weights are of.
    ensures valid { IfOk result (λ p. IsValid (instance_of p)) }
{
    drawn(alloc, kind, size, seed)
}
