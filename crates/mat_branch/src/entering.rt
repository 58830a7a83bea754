//! How many arcs enter a vertex set.
ghost use Rattle.std.specs.Prelude.{◌≡◌, ◌&&◌, not, length};
ghost use Rattle.mat_sets.specs.{Graphs.{ends_of, entering}, Sets.{all_below, is_member}};

use mat_sets::{ElemSet, Pairs};

// Whether an arc from the tail to the head enters the set.
fn comes_in(cut: &ElemSet, tail: u32, head: u32) -> bool
    ensures { result ≡ (is_member head cut.now && not (is_member tail cut.now)) }
{
    cut.contains(head) && !cut.contains(tail)
}

/// How many arcs enter a vertex set: their heads are inside, and their tails are not (Schrijver, chapter 3). Each arc is looked at once.
pub fn entering_count(arcs: &Pairs, cut: &ElemSet) -> usize
    ensures { result ≡ length (entering (ends_of arcs.now) (all_below (length arcs.now)) cut.now) }
{
    let mut count = 0;
    for a in 0..arcs.len() {
        let (tail, head) = arcs.get(a);
        if comes_in(cut, tail, head) {
            count += 1;
        }
    }
    count
}
