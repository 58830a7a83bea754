//! Edges between classes of vertices, and arcs into a set of vertices.

ghost use Rattle.std.specs.Prelude.{◌≡◌, ◌<◌, ◌^◌, not, length, IfOk};
ghost use Rattle.mat_sets.specs.{Graphs.{ends_of, enters}, Search.{those_below}};
ghost use Rattle.mat_reasons.specs.Classes.{are_together};

use mat_sets::{ElemSet, Pairs};
use std::alloc::{AllocError, Global};

// Whether both vertices are in one class.
fn are_together(classes: &[ElemSet], first: u32, second: u32) -> bool
    ensures { result ≡ are_together classes.now first second }
{
    for i in 0..classes.len() {
        if classes[i].contains(first) && classes[i].contains(second) {
            return true;
        }
    }
    false
}

/// The edges whose ends are in different classes. The only error is want of memory.
#[tactic(auto, using(mat_text::proofs::Numbers::numbers_below))]
pub fn crossing(alloc: Global, edges: &Pairs, classes: &[ElemSet]) -> Result<ElemSet, AllocError>
    requires { length edges.now < 2 ^ 32 }
    ensures { IfOk result (λ crossing. crossing ≡ those_below (length edges.now)
        (λ e. not (are_together classes.now (ends_of edges.now e).0 (ends_of edges.now e).1))) }
{
    let mut crossing = ElemSet::new(alloc);
    for e in 0..edges.len() {
        let (first, second) = edges.get(e);
        if !are_together(classes, first, second) {
            crossing.add(e as u32)?;
        }
    }
    Ok(crossing)
}

/// The arcs into a set of vertices from elsewhere. The only error is want of memory.
#[tactic(auto, using(mat_text::proofs::Numbers::numbers_below))]
pub fn entering(alloc: Global, arcs: &Pairs, set: &ElemSet) -> Result<ElemSet, AllocError>
    requires { length arcs.now < 2 ^ 32 }
    ensures { IfOk result (λ entering. entering ≡ those_below (length arcs.now) (enters (ends_of arcs.now) set.now)) }
{
    let mut entering = ElemSet::new(alloc);
    for e in 0..arcs.len() {
        let (tail, head) = arcs.get(e);
        if set.contains(head) && !set.contains(tail) {
            entering.add(e as u32)?;
        }
    }
    Ok(entering)
}
