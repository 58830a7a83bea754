//! Cheapest arborescences with the weighted vertex sets that prove them: graphs worked out by hand, and large drawn ones.
ghost use Rattle.std.specs.Prelude.{◌≡◌, ◌<◌, ◌≤◌, ◌^◌, length, All, IfOk};
ghost use Rattle.mat_sets.specs.Graphs.{IsGraph};
ghost use Rattle.mat_cuts.specs.{Costs.{IsCost}, Limits.{vertex_bound, arc_bound}};

use crate::known::{followed, told_set};
use mat_cuts::{Cuts, cheapest, right_cuts};
use mat_sets::{ElemSet, Pairs};
use std::alloc::{AllocError, Global};

// A graph with a cost for each arc.
#[derive(Drop)]
struct Network {
    arcs: Pairs,
    costs: Vec<i128>,
}

// The graph of these arcs, each a tail, a head and a cost. An end that is no vertex is taken modulo the number of vertices.
fn graph_of(alloc: Global, vertices: u32, arcs: &[(u32, u32, u32)]) -> Result<Network, AllocError>
    requires some { 0 < vertices }
    requires few { length arcs.now ≤ arc_bound }
    ensures graph { IfOk result (λ n. IsGraph vertices n.arcs) }
    ensures arcs { IfOk result (λ n. length n.arcs ≡ length arcs.now) }
    ensures costs { IfOk result (λ n. length n.costs.items ≡ length arcs.now) }
    ensures range { IfOk result (λ n. All IsCost n.costs.items) }
{
    let mut ends = Vec::new(alloc);
    let mut costs = Vec::new(alloc);
    for (tail, head, cost) in arcs {
        ends.push((*tail % vertices, *head % vertices))?;
        costs.push(i128::from(*cost))?;
    }
    Ok(Network {
        arcs: Pairs::new(ends),
        costs,
    })
}

// The next state of a generator, and from it a number below m.
fn draw(state: &mut u64, m: u64) -> u32
    requires some { 0 < m }
    requires small { m < 2 ^ 32 }
    requires state { state.old < 2 ^ 31 }
    ensures { state.new < 2 ^ 31 }
{
    *state = *state * 48_271 % 2_147_483_647;
    (*state % m) as u32
}

// So many drawn arcs, with costs from 0 to 1000.
fn drawn(
    alloc: Global,
    vertices: u32,
    count: u32,
    seed: u32,
) -> Result<Vec<(u32, u32, u32)>, AllocError>
    requires some { 0 < vertices }
    requires seed { seed < 2 ^ 31 }
    ensures { IfOk result (λ arcs. length arcs.items ≡ count) }
{
    let mut state = u64::from(seed);
    let mut arcs = Vec::new(alloc);
    for _ in 0..count {
        let tail = draw(&mut state, u64::from(vertices));
        let head = draw(&mut state, u64::from(vertices));
        let cost = draw(&mut state, 1001);
        arcs.push((tail, head, cost))?;
    }
    Ok(arcs)
}

// The sum of the costs of these arcs.
fn cost_of(costs: &[i128], arcs: &ElemSet) -> i128 {
    let mut cost = 0_i128;
    for a in arcs.as_slice() {
        cost = cost.saturating_add(*costs.get(*a as usize).unwrap_or(&0));
    }
    cost
}

// The cost of a cheapest arborescence, or the vertices that are not reached.
fn told_cuts(alloc: Global, costs: &[i128], answer: &Cuts) -> Result<String, AllocError> {
    match answer {
        Cuts::Tree { arcs, .. } => {
            let cost = cost_of(costs, arcs);
            format!(in alloc; "cost {cost}")
        }
        Cuts::Unreached(set) => {
            let set = told_set(alloc, set)?;
            format!(in alloc; "unreached {set}")
        }
    }
}

// The cost of a cheapest arborescence from vertex 0, or the vertices that are not reached; whether the vertex sets prove it, and whether
// they prove it of another graph with as many arcs.
fn told_network(
    alloc: Global,
    vertices: u32,
    network: &Network,
    other: &Network,
) -> Result<String, AllocError>
    requires some { 0 < vertices }
    requires few { vertices ≤ vertex_bound }
    requires graph { IsGraph vertices network.now.arcs }
    requires arcs { length network.now.arcs ≤ arc_bound }
    requires costs { length network.now.costs.items ≡ length network.now.arcs }
    requires range { All IsCost network.now.costs.items }
    requires other_graph { IsGraph vertices other.now.arcs }
    requires other_arcs { length other.now.arcs ≡ length network.now.arcs }
    requires other_costs { length other.now.costs.items ≡ length other.now.arcs }
    requires other_range { All IsCost other.now.costs.items }
{
    let answer = cheapest(alloc, vertices, &network.arcs, &network.costs, 0)?;
    let right = right_cuts(alloc, vertices, &network.arcs, &network.costs, 0, &answer)?;
    let right_there = right_cuts(alloc, vertices, &other.arcs, &other.costs, 0, &answer)?;
    let told = told_cuts(alloc, &network.costs, &answer)?;
    format!(in alloc; "network {told} {right} {right_there}\n")
}

// What is told of a graph with so many arcs that is drawn from this number.
fn told_drawn(alloc: Global, vertices: u32, count: u32, seed: u32) -> Result<String, AllocError>
    requires some { 0 < vertices }
    requires few { vertices ≤ vertex_bound }
    requires arcs { count ≤ arc_bound }
    requires seed { seed < 2 ^ 31 }
{
    let arcs = drawn(alloc, vertices, count, seed)?;
    let large = graph_of(alloc, vertices, &arcs)?;
    told_network(alloc, vertices, &large, &large)
}

// What is told of a graph, and of its vertex sets in another one with as many arcs.
fn told_beside(
    alloc: Global,
    vertices: u32,
    arcs: &[(u32, u32, u32)],
    others: &[(u32, u32, u32)],
) -> Result<String, AllocError>
    requires some { 0 < vertices }
    requires few { vertices ≤ vertex_bound }
    requires arcs { length arcs.now ≤ arc_bound }
    requires as_many { length others.now ≡ length arcs.now }
{
    let network = graph_of(alloc, vertices, arcs)?;
    let other = graph_of(alloc, vertices, others)?;
    told_network(alloc, vertices, &network, &other)
}

/// What is told of a graph of four arcs beside a dearer one, of one with a vertex that no arc enters beside one where it is entered, and
/// of two large drawn ones.
pub(crate) fn networks_report(alloc: Global) -> Result<String, AllocError> {
    let cheap = [(0, 1, 5), (0, 2, 2), (2, 1, 1), (1, 2, 0)];
    let dearer = [(0, 1, 5), (0, 2, 3), (2, 1, 1), (1, 2, 0)];
    let text = told_beside(alloc, 3, &cheap, &dearer)?;
    let text = followed(text, told_beside(alloc, 2, &[(1, 0, 4)], &[(0, 1, 4)]))?;
    let text = followed(text, told_drawn(alloc, 2000, 20_000, 7))?;
    followed(text, told_drawn(alloc, 2000, 20_000, 1))
}
