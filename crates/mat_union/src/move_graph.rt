//! The graph in which a search for moves looks for a walk.
ghost use Rattle.std.specs.Prelude.{◌≡◌, ◌<◌, ◌||◌, ℕ, length, IfOk, OnOk};
ghost use Rattle.mat_sets.specs.{Families.{family_union}, Sets.{is_member}};
ghost use Rattle.mat_union.specs.{MoveGraphs.{AreLong, IsPushTable}, Moves.{can_enter, can_push, exchanges_of}};

use crate::exchange_list::ExchangeList;
use mat_sets::{BitRows, BitSet, ElemSet, Relation, SetList};
use std::alloc::{AllocError, Global};

/// An arc leads from an element to each whose place it can take in some part; starts are the elements of `within` that are in no part, and
/// goals the elements that can be added to some part (Schrijver, chapter 42).
#[derive(Drop)]
pub(crate) struct MoveGraph<'a> {
    pub(crate) rows: &'a [ExchangeList],
    pub(crate) parts: &'a SetList,
    pub(crate) within: &'a ElemSet,
    pub(crate) table: &'a BitRows,
}

impl Relation for MoveGraph<'_> {
    ghost use Rattle.std.specs.Prelude.{length};
    ghost use Rattle.mat_union.specs.{MoveGraphs.{IsMoveGraph}, Moves.{can_enter, can_push, exchanges_of, is_free}};

    ghost count = { λ g. length g.table.now };

    ghost sound = { λ g. IsMoveGraph g.rows.now g.table.now };

    ghost arc = { λ g. can_push (length g.rows.now) (exchanges_of g.rows.now) };

    ghost start = { λ g. is_free g.parts.now g.within.now };

    ghost goal = { λ g. can_enter (length g.rows.now) (exchanges_of g.rows.now) };

    fn size(&self) -> u32 {
        self.table.len() as u32
    }

    fn is_start(&self, v: u32) -> bool {
        self.within.contains(v) && !stands(self.parts, v)
    }

    fn is_goal(&self, v: u32) -> bool {
        enters(self.rows, v)
    }

    fn next_arc(&self, u: u32, among: &BitSet, from: u32) -> Option<u32> {
        among.next_common(self.table.row(u), from)
    }
}

/// Whether v is in some part.
pub fn stands(parts: &SetList, v: u32) -> bool
    ensures { result ≡ is_member v (family_union parts.now) }
{
    for i in 0..parts.len() {
        if parts.get(i).contains(v) {
            return true;
        }
    }
    false
}

/// Whether u can be added to some part.
pub(crate) fn enters(rows: &[ExchangeList], u: u32) -> bool
    requires { AreLong u rows.now }
    ensures { result ≡ can_enter (length rows.now) (exchanges_of rows.now) u }
{
    for i in 0..rows.len() {
        if rows[i].get(u as usize).addable {
            return true;
        }
    }
    false
}

/// Puts these numbers in.
pub(crate) fn insert_all(set: &mut BitSet, items: &[u32]) -> Result<(), AllocError>
    ensures { OnOk result ((v : ℕ) → is_member v set.new ≡ (is_member v set.old || is_member v items.now)) }
{
    for x in items {
        set.insert(*x)?;
    }
    Ok(())
}

/// The elements whose place u can take in some part.
fn pushed(alloc: Global, rows: &[ExchangeList], u: u32) -> Result<BitSet, AllocError>
    requires { AreLong u rows.now }
    ensures { IfOk result (λ s. (v : ℕ) → is_member v s ≡ can_push (length rows.now) (exchanges_of rows.now) u v) }
{
    let mut set = BitSet::new(alloc);
    for i in 0..rows.len() {
        insert_all(&mut set, rows[i].get(u as usize).with.as_slice())?;
    }
    Ok(set)
}

/// For each element below n those whose place it can take.
pub(crate) fn push_table(
    alloc: Global,
    rows: &[ExchangeList],
    n: u32,
) -> Result<BitRows, AllocError>
    requires { (u : ℕ) → u < n → AreLong u rows.now }
    ensures { IfOk result (λ table. IsPushTable rows.now n table) }
{
    let mut table = BitRows::new(alloc);
    for u in 0..n {
        table.push(pushed(alloc, rows, u)?)?;
    }
    Ok(table)
}
