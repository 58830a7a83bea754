//! Small matroids of known structure: of each the run along an order and all independent sets, as `kinds.py` finds them by trying all sets.
//! What else is printed was worked out by hand from closed walks, lines and bases.

ghost use Rattle.std.specs.Prelude.{◌≡◌, ◌<◌, true, false, length, IfOk};
ghost use Rattle.mat_sets.specs.{Graphs.{IsGraph}, Sets.{AllBelow, AreDistinct, is_member}};
ghost use Rattle.mat_gf2.specs.Columns.{IsBinaryMatrix};
ghost use Rattle.mat_any.specs.{Trees.{element_count, IsSound}, Views.{tree_of}};

use crate::routes::{set_below, set_of_bits};
use mat_any::AnyMatroid;
use mat_count::{Laminar, LaminarFault};
use mat_flow::{Digraph, Linking, linked};
use mat_gf2::Gf2;
use mat_graphic::Graphic;
use mat_greedy::heaviest_of;
use mat_laws::{Exchange, Matroid, grow_base, rank_of};
use mat_minors::{Contraction, Dual, Restriction, Truncation};
use mat_sets::{ElemSet, Pairs, SetList, Weight};
use std::alloc::{AllocError, Global};

// The most elements of a matroid of which each set is asked.
const FEW: u32 = 5;

// A weight without a tie.
fn plain(main: i128) -> Weight {
    Weight { main, tie: 0 }
}

// The graph of an edge with both ends at one vertex, edge 0, and of two parallel edges, 1 and 2.
fn loop_and_parallel_edges(alloc: Global) -> Result<Graphic, AllocError>
    ensures edges { IfOk result (λ g. length g.edges ≡ 3) }
    ensures sound { IfOk result (λ g. IsGraph g.vertices g.edges) }
{
    let edges = vec![in alloc; (0, 0), (0, 1), (0, 1)]?;
    Graphic::new(alloc, 2, Pairs::new(edges))
}

// All columns of three bits but zero: the numbers from 1 to 7.
fn seven_columns(alloc: Global) -> Result<Gf2, AllocError>
    ensures columns { IfOk result (λ g. length g.columns ≡ 7) }
    ensures sound { IfOk result (λ g. IsBinaryMatrix g.dim g.columns) }
{
    Gf2::new(alloc, 3, vec![in alloc; 1, 2, 3, 4, 5, 6, 7]?)
}

/// A word and the numbers of a list.
pub(crate) fn told_numbers(
    alloc: Global,
    word: &str,
    numbers: &[u32],
) -> Result<String, AllocError> {
    let mut text = String::from_str(alloc, word)?;
    for x in numbers {
        write!(text, " {x}")?;
    }
    Ok(text)
}

/// The members of a set.
pub(crate) fn told_set(alloc: Global, set: &ElemSet) -> Result<String, AllocError> {
    told_numbers(alloc, "set", set.as_slice())
}

// Whether an exchange, what is answered of adding alone, and the members of a circuit are those of a row.
fn are_of_row(row: Exchange, asked: &Exchange, adds: bool, members: &Option<ElemSet>) -> bool {
    let same = asked.addable == row.addable && asked.with == row.with && adds == row.addable;
    let circuit = row.circuit_members();
    same && *members == circuit
}

// The row of an element, and whether what is asked for by itself is the same.
fn told_exchanges(
    alloc: Global,
    x: u32,
    row: Exchange,
    asked: &Exchange,
    adds: bool,
    members: &Option<ElemSet>,
) -> Result<String, AllocError> {
    let addable = row.addable;
    let with = told_set(alloc, &row.with)?;
    let same = are_of_row(row, asked, adds, members);
    format!(in alloc; "{x} {addable} {with} {same}")
}

// The row of an element outside an independent set, from what is kept of the set, and whether `circuit`, `adds` and `circuit_members` answer the
// same of the element.
fn told_row<M: Matroid>(
    alloc: Global,
    m: &M,
    base: &ElemSet,
    kept: &M::Kept,
    x: u32,
) -> Result<String, AllocError>
    requires sound { M.sound m.now }
    requires base { M.indep m.now base.now ≡ true }
    requires kept { M.keeps m.now base.now kept.now }
    requires below { x < M.ground_size m.now }
    requires outside { is_member x base.now ≡ false }
{
    let adds = m.adds(alloc, base, kept, x)?;
    let members = m.circuit_members(alloc, base, kept, x)?;
    let asked = m.circuit(alloc, base, x)?;
    let row = m.row(alloc, base, kept, x)?;
    told_exchanges(alloc, x, row, &asked, adds, &members)
}

// What is kept of an independent set where something is kept of another one.
fn kept_after<M: Matroid>(
    alloc: Global,
    m: &M,
    other: &ElemSet,
    base: &ElemSet,
) -> Result<M::Kept, AllocError>
    requires sound { M.sound m.now }
    requires other { M.indep m.now other.now ≡ true }
    requires base { M.indep m.now base.now ≡ true }
    ensures { IfOk result (λ kept. M.keeps m.now base.now kept) }
{
    let before = m.keep(alloc, other)?;
    m.keep_next(alloc, other, &before, base)
}

// An independent set and the exchanges of each element outside it, by what is kept of it where something is kept of another one.
fn told_rows<M: Matroid>(
    alloc: Global,
    m: &M,
    other: &ElemSet,
    base: &ElemSet,
) -> Result<String, AllocError>
    requires sound { M.sound m.now }
    requires other { M.indep m.now other.now ≡ true }
    requires base { M.indep m.now base.now ≡ true }
{
    let kept = kept_after(alloc, m, other, base)?;
    let mut text = told_set(alloc, base)?;
    for x in 0..m.size() {
        if !base.contains(x) {
            let row = told_row(alloc, m, base, &kept, x)?;
            write!(text, ", {row}")?;
        }
    }
    Ok(text)
}

// The heading of a matroid: its name, and what a run takes.
fn heading(alloc: Global, name: &str, taken: &ElemSet) -> Result<String, AllocError> {
    let set = told_set(alloc, taken)?;
    format!(in alloc; "{name} run {set}\n")
}

// What a run takes, and the independent sets of a matroid of few elements, a line each, with their exchanges.
fn told_sets<M: Matroid>(
    alloc: Global,
    name: &str,
    m: &M,
    taken: &ElemSet,
) -> Result<String, AllocError>
    requires sound { M.sound m.now }
    requires taken { M.indep m.now taken.now ≡ true }
{
    let mut text = heading(alloc, name, taken)?;
    let size = m.size();
    for bits in 0..1_u32 << size.min(FEW) {
        let set = set_of_bits(alloc, size, bits)?;
        if m.independent(alloc, &set)? {
            let rows = told_rows(alloc, m, taken, &set)?;
            writeln!(text, "{rows}")?;
        }
    }
    Ok(text)
}

/// What a run takes along this order, and then each independent set with the exchanges of each element outside it.
pub(crate) fn told<M: Matroid>(
    alloc: Global,
    name: &str,
    m: &M,
    order: &[u32],
) -> Result<String, AllocError>
    requires sound { M.sound m.now }
    requires below { AllBelow (M.ground_size m.now) order.now }
    requires distinct { AreDistinct order.now }
{
    m.lawful();
    let base = m.run(alloc, order)?;
    told_sets(alloc, name, m, &base)
}

// What is told of a matroid of three elements.
fn told_three<M: Matroid>(alloc: Global, name: &str, m: &M) -> Result<String, AllocError>
    requires sound { M.sound m.now }
    requires three { M.ground_size m.now ≡ 3 }
{
    told(alloc, name, m, &[2, 1, 0])
}

// The graph.
fn told_graph(alloc: Global) -> Result<String, AllocError> {
    let graph = loop_and_parallel_edges(alloc)?;
    told_three(alloc, "graph", &graph)
}

// The graph, lent.
fn told_lent(alloc: Global) -> Result<String, AllocError> {
    let graph = loop_and_parallel_edges(alloc)?;
    told_three(alloc, "lent", &&graph)
}

// The dual of the graph.
fn told_dual(alloc: Global) -> Result<String, AllocError> {
    let dual = Dual::new(loop_and_parallel_edges(alloc)?);
    told_three(alloc, "dual", &dual)
}

// The dual of the graph as a matroid of any kind.
fn any_dual(alloc: Global) -> Result<AnyMatroid, AllocError>
    ensures three { IfOk result (λ m. element_count (tree_of m) ≡ 3) }
    ensures sound { IfOk result (λ m. IsSound (tree_of m)) }
{
    let graph = loop_and_parallel_edges(alloc)?;
    let inner = Box::new(alloc, AnyMatroid::Graphic(graph))?;
    Ok(AnyMatroid::Dual(inner))
}

// What is told of it.
fn told_any(alloc: Global) -> Result<String, AllocError> {
    let dual = any_dual(alloc)?;
    told_three(alloc, "any", &dual)
}

// The dual with at most one element.
fn told_truncation(alloc: Global) -> Result<String, AllocError> {
    let cut = Truncation::new(Dual::new(loop_and_parallel_edges(alloc)?), 1);
    told_three(alloc, "truncation", &cut)
}

// The graph without edge 2.
fn told_restriction(alloc: Global) -> Result<String, AllocError> {
    let kept = set_below(alloc, 3, &[0, 1])?;
    let fewer = Restriction::new(loop_and_parallel_edges(alloc)?, kept);
    told_three(alloc, "restriction", &fewer)
}

// The graph in which the ends of edge 1 are made one vertex.
fn told_contraction(alloc: Global) -> Result<String, AllocError> {
    let away = set_below(alloc, 3, &[1])?;
    let joined = Contraction::new(alloc, loop_and_parallel_edges(alloc)?, away)?;
    told_three(alloc, "contraction", &joined)
}

// The digraph of two arcs into a vertex and two out of it.
fn narrow_digraph(alloc: Global) -> Result<Digraph, AllocError>
    ensures { IfOk result (λ g. g.vertices ≡ 5) }
{
    let arcs = vec![in alloc; (0, 2), (1, 2), (2, 3), (2, 4)]?;
    Digraph::new(alloc, 5, Pairs::new(arcs))
}

// Disjoint paths through that vertex, from the tails to the heads.
fn narrow_linking(alloc: Global) -> Result<Linking, AllocError> {
    let graph = narrow_digraph(alloc)?;
    let sources = set_below(alloc, 5, &[0, 1])?;
    let targets = set_below(alloc, 5, &[3, 4])?;
    linked(alloc, &graph, &sources, &targets)
}

// Two sources and two targets, between which all paths pass one vertex: one path, and that vertex separates.
fn told_linking(alloc: Global) -> Result<String, AllocError> {
    let linking = narrow_linking(alloc)?;
    let paths = linking.paths.len();
    let separator = told_set(alloc, &linking.separator)?;
    format!(in alloc; "linking {paths} {separator}\n")
}

// The least vertex that each of six vertices reaches along three edges: one between 1 and 2, one between 0 and 3, and a loop at 4.
fn told_components(alloc: Global) -> Result<String, AllocError> {
    let edges = vec![in alloc; (0, 1), (1, 2), (2, 3), (3, 0), (4, 4), (0, 2), (4, 5)]?;
    let graph = Graphic::new(alloc, 6, Pairs::new(edges))?;
    let least = graph.components(alloc, &set_below(alloc, 7, &[1, 3, 4])?)?;
    let told = told_numbers(alloc, "components", least.as_slice())?;
    format!(in alloc; "{told}\n")
}

// The first fault of two sets on three elements, each with the cap 1.
fn told_fault(alloc: Global, first: &[u32], second: &[u32]) -> Result<String, AllocError>
    requires first { AllBelow 4 first.now }
    requires second { AllBelow 4 second.now }
{
    let sets = vec![in alloc; set_below(alloc, 4, first)?, set_below(alloc, 4, second)?]?;
    let caps = vec![in alloc; 1, 1]?;
    match Laminar::new(alloc, 3, SetList::new(sets), caps) {
        Ok(_) => String::from_str(alloc, "none"),
        Err(LaminarFault::OutOfRange) => String::from_str(alloc, "out of range"),
        Err(LaminarFault::Crossing { a, b }) => format!(in alloc; "{a} crosses {b}"),
        Err(LaminarFault::Memory) => Err(AllocError),
    }
}

// Two sets that cross, two that cross of which one has a member that is no element, and two that are equal.
fn told_faults(alloc: Global) -> Result<String, AllocError> {
    let crossing = told_fault(alloc, &[0, 1], &[1, 2])?;
    let outside = told_fault(alloc, &[0, 1], &[1, 3])?;
    let equal = told_fault(alloc, &[0, 1], &[0, 1])?;
    format!(in alloc; "faults {crossing}, {outside}, {equal}\n")
}

// The rank of these edges of the graph.
fn rank_of_edges(alloc: Global, edges: &[u32]) -> Result<u32, AllocError>
    requires { AllBelow 3 edges.now }
{
    let graph = loop_and_parallel_edges(alloc)?;
    let set = set_below(alloc, 3, edges)?;
    rank_of(alloc, &graph, &set)
}

// The ranks of the loop, of the parallel edges and of all.
fn told_ranks(alloc: Global) -> Result<String, AllocError> {
    let looped = rank_of_edges(alloc, &[0])?;
    let parallel = rank_of_edges(alloc, &[1, 2])?;
    let whole = rank_of_edges(alloc, &[0, 1, 2])?;
    format!(in alloc; "ranks {looped} {parallel} {whole}\n")
}

// The rank of these columns.
fn rank_of_columns(alloc: Global, columns: &[u32]) -> Result<u32, AllocError>
    requires { AllBelow 7 columns.now }
{
    let all = seven_columns(alloc)?;
    let set = set_below(alloc, 7, columns)?;
    rank_of(alloc, &all, &set)
}

// The ranks of a line, of three columns on no line, and of all.
fn told_columns(alloc: Global) -> Result<String, AllocError> {
    let line = rank_of_columns(alloc, &[0, 1, 2])?;
    let three = rank_of_columns(alloc, &[0, 1, 3])?;
    let whole = rank_of_columns(alloc, &[0, 1, 2, 3, 4, 5, 6])?;
    format!(in alloc; "columns {line} {three} {whole}\n")
}

// The base of the graph that holds edge 2: there is one.
fn told_base(alloc: Global) -> Result<String, AllocError> {
    let graph = loop_and_parallel_edges(alloc)?;
    let from = set_below(alloc, 3, &[2])?;
    if !graph.independent(alloc, &from)? {
        return String::from_str(alloc, "edge 2 is a loop\n");
    }
    let all = set_below(alloc, 3, &[0, 1, 2])?;
    let base = told_set(alloc, &grow_base(alloc, &graph, &from, &all)?)?;
    format!(in alloc; "base {base}\n")
}

// A heaviest set of three of the seven columns: the third closes a line.
fn heaviest_columns(alloc: Global) -> Result<String, AllocError> {
    let columns = seven_columns(alloc)?;
    let weights = [
        plain(7),
        plain(6),
        plain(5),
        plain(4),
        plain(3),
        plain(2),
        plain(1),
    ];
    told_found(alloc, heaviest_of(alloc, &columns, &weights, 3)?)
}

// A heaviest set of so many edges of the graph.
fn heaviest_edges(alloc: Global, count: u32) -> Result<String, AllocError> {
    let graph = loop_and_parallel_edges(alloc)?;
    let weights = [plain(3), plain(2), plain(1)];
    told_found(alloc, heaviest_of(alloc, &graph, &weights, count)?)
}

// Heaviest sets of columns, and of one and two edges.
fn told_heaviest(alloc: Global) -> Result<String, AllocError> {
    let three = heaviest_columns(alloc)?;
    let one = heaviest_edges(alloc, 1)?;
    let two = heaviest_edges(alloc, 2)?;
    format!(in alloc; "heaviest {three}, {one}, {two}\n")
}

// The members of a set, if there is one.
fn told_found(alloc: Global, found: Option<ElemSet>) -> Result<String, AllocError> {
    match found {
        Some(set) => told_set(alloc, &set),
        None => String::from_str(alloc, "none"),
    }
}

/// A text with another one behind it, where that one came to be.
pub(crate) fn followed(
    mut text: String,
    more: Result<String, AllocError>,
) -> Result<String, AllocError> {
    text.push_str(&more?)?;
    Ok(text)
}

/// What is told of the known matroids.
pub(crate) fn known_report(alloc: Global) -> Result<String, AllocError> {
    let text = told_graph(alloc)?;
    let text = followed(text, told_lent(alloc))?;
    let text = followed(text, told_dual(alloc))?;
    let text = followed(text, told_any(alloc))?;
    let text = followed(text, told_truncation(alloc))?;
    let text = followed(text, told_restriction(alloc))?;
    let text = followed(text, told_contraction(alloc))?;
    let text = followed(text, told_linking(alloc))?;
    let text = followed(text, told_components(alloc))?;
    let text = followed(text, told_faults(alloc))?;
    let text = followed(text, told_ranks(alloc))?;
    let text = followed(text, told_columns(alloc))?;
    let text = followed(text, told_base(alloc))?;
    followed(text, told_heaviest(alloc))
}
