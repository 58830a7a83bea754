//! The graph in which the walks are sought that match one element more.
ghost use Rattle.std.specs.Prelude.{◌≡◌, ◌<◌, ◌&&◌, ℕ, Some, length};
ghost use Rattle.mat_sets.specs.{Search.{IsNextFrom}, Sets.{is_member}};
ghost use Rattle.mat_linked.specs.Matchings.{is_held};

use mat_flow::SearchGraph;
use mat_sets::{BitRows, BitSet};

/// The indices of a family of sets, some of which are matched with elements: an arc leads from an index to those of the sets that
/// hold the element that it is matched with; starts are the indices of the sets that hold a new element, if there is one, and goals
/// those that are not matched (Schrijver, chapter 16).
#[derive(Drop)]
pub(crate) struct Alternating<'a> {
    pub(crate) rows: &'a BitRows,
    pub(crate) matched: &'a [Option<u32>],
    pub(crate) element: Option<u32>,
}

// The first index from `from` on, among these, of a set that holds the element, if there is one.
fn next_held(rows: &BitRows, element: Option<u32>, among: &BitSet, from: u32) -> Option<u32>
    requires { (x : ℕ) → element ≡ Some x → x < length rows.now }
    ensures { IsNextFrom (λ j. is_member j among.now && is_held rows.now element j) from result }
{
    match element {
        Some(x) => among.next_common(rows.row(x), from),
        None => None,
    }
}

impl SearchGraph for Alternating<'_> {
    ghost use Rattle.std.specs.Prelude.{ℕ, ◌≡◌, ◌<◌, ◌^◌, length, is_none, Some};
    ghost use Rattle.mat_flow.specs.LinkTables.{entry_at};
    ghost use Rattle.mat_linked.specs.Matchings.{is_held};

    ghost count = { λ r. length r.matched.now };

    ghost sound = { λ r. (length r.matched.now < 2 ^ 32) × ((x : ℕ) → r.element ≡ Some x → x < length r.rows.now)
        × ((j x : ℕ) → entry_at r.matched.now j ≡ Some x → x < length r.rows.now) };

    ghost arc = { λ r j. is_held r.rows.now (entry_at r.matched.now j) };

    ghost start = { λ r j. is_held r.rows.now r.element j };

    ghost goal = { λ r j. is_none (entry_at r.matched.now j) };

    fn is_goal(&self, j: u32) -> bool {
        self.matched[j as usize].is_none()
    }

    fn next_start(&self, among: &BitSet, from: u32) -> Option<u32> {
        next_held(self.rows, self.element, among, from)
    }

    fn next_arc(&self, j: u32, among: &BitSet, from: u32) -> Option<u32> {
        next_held(self.rows, self.matched[j as usize], among, from)
    }
}
