//! A search for moves from one element.
ghost use Rattle.std.specs.Prelude.{◌≡◌, ◌<◌, ◌≤◌, ◌^◌, ℕ, suc, List, Bool, true, false, length, IfOk, OnOk, MatchOption};
ghost use Rattle.mat_sets.specs.{Families.{family_union, AreDisjoint}, Sets.{is_member, AllBelow}};
ghost use Rattle.mat_laws.specs.TightPaths.{Exchanges};
ghost use Rattle.mat_union.specs.{
  EndedSearches.{IsReady},
  Moves.{exchanges_with},
  MoveSearches.{questions_left, AreFoundMoves, AreMovesAt, AreTaken, IsAnswered, AreAnswered, IsOpen, IsQuestion, IsReaching, IsToldTable},
  Unions.{part_at, AreMatroids, AreParts},
};

use crate::move_graph::insert_all;
use crate::moves::Move;
use mat_laws::Exchange;
use mat_sets::{BitRows, BitSet, ElemSet, Relation, WalkSearch, shortest_walk};
use std::alloc::{AllocError, Global};

/// What a search for moves asks for: the exchanges of an element at a part.
#[derive(Clone, Copy, Debug, Drop)]
pub struct Question {
    /// The element.
    pub element: u32,
    /// The number of the part.
    pub part: u32,
}

/// A search for moves from an element in no part, which asks for the exchanges of the elements that it reaches, part by part, until one
/// can be added to a part (Schrijver, chapter 42). It asks at most once for each element and part.
#[derive(Debug, Drop)]
pub struct MoveSearch {
    pub(crate) start: u32,
    // How many elements there are.
    pub(crate) elements: u32,
    // How many parts there are.
    pub(crate) count: u32,
    // The elements that were reached, in the order in which they were; the exchanges of the first `head` are told.
    pub(crate) queue: Vec<u32>,
    pub(crate) head: usize,
    // Of the next element of the queue the exchanges at the first `part` parts are told: there it can take the place of those in `pushes`.
    pub(crate) part: u32,
    pub(crate) pushes: BitSet,
    // Whether that element can be added to the part after these: then nothing more is asked for.
    pub(crate) entered: bool,
    // The elements that may be reached and were not yet.
    pub(crate) unreached: BitSet,
    // For each of the first `head` elements of the queue, those whose place it can take.
    pub(crate) told: Vec<BitSet>,
}

// Puts the unreached elements among these into the queue.
fn take_common(
    pushes: &BitSet,
    unreached: &mut BitSet,
    queue: &mut Vec<u32>,
) -> Result<(), AllocError>
    ensures { OnOk result (AreTaken pushes.now unreached.old queue.old.items unreached.new queue.new.items) }
{
    while let Some(v) = unreached.next_common(pushes, 0) {
        queue.push(v)?;
        unreached.remove(v);
    }
    Ok(())
}

impl MoveSearch {
    /// A search that reaches no elements but the start and those among these, where there are so many elements and parts. The only
    /// error is want of memory.
    pub fn new(
        alloc: Global,
        n: u32,
        count: u32,
        start: u32,
        among: &BitSet,
    ) -> Result<MoveSearch, AllocError>
        requires some { 0 < count }
        requires below { start < n }
        requires among { (v : ℕ) → is_member v among.now ≡ true → v < n }
        ensures { IfOk result (λ s. (exchanges : ℕ → Exchanges) → IsReaching n count exchanges among.now start s) }
    {
        let mut unreached = among.copy(alloc)?;
        unreached.remove(start);
        let mut queue = Vec::with_capacity(alloc, n as usize)?;
        queue.push(start)?;
        let told = Vec::new(alloc);
        Ok(MoveSearch {
            start,
            elements: n,
            count,
            queue,
            head: 0,
            part: 0,
            pushes: BitSet::new(alloc),
            entered: false,
            unreached,
            told,
        })
    }

    /// The exchanges that are asked for next. None once an element can be added to a part, or all elements that were reached are told.
    pub fn question(&self) -> Option<Question>
        ensures { IsQuestion self.now result }
    {
        if self.entered || self.head >= self.queue.len() {
            return None;
        }
        Some(Question {
            element: self.queue[self.head],
            part: self.part,
        })
    }

    /// The elements that were reached.
    pub fn reached(&self) -> &[u32]
        ensures { result.now ≡ self.now.queue.items }
    {
        &self.queue
    }

    // All exchanges of the next element are told.
    fn close(&mut self, alloc: Global) -> Result<(), AllocError>
        requires { IsOpen self.old }
        ensures { OnOk result ((n m : ℕ) (exchanges : ℕ → Exchanges) (among : List ℕ) (start : ℕ)
            → AreAnswered n m exchanges among start self.old → IsReaching n m exchanges among start self.new
            × (self.new.entered ≡ false) × (self.new.count ≡ self.old.count) × (self.new.head ≡ suc self.old.head) × (self.new.part ≡ 0)) }
    {
        let pushes = std::mem::replace(&mut self.pushes, BitSet::new(alloc));
        take_common(&pushes, &mut self.unreached, &mut self.queue)?;
        self.told.push(pushes)?;
        self.head += 1;
        self.part = 0;
        Ok(())
    }

    /// The search with the exchanges that were asked for told. The only error is want of memory.
    pub fn tell(self, alloc: Global, row: &Exchange) -> Result<MoveSearch, AllocError>
        requires open { IsOpen self }
        requires part { self.part < self.count }
        ensures { IfOk result (λ s. (n m : ℕ) (exchanges : ℕ → Exchanges) (among : List ℕ) (start : ℕ) → IsReaching n m exchanges among start self
            → self.entered ≡ false → IsAnswered exchanges self row.now
            → IsReaching n m exchanges among start s × (questions_left among s < questions_left among self)) }
    {
        let mut search = self;
        if row.addable {
            search.entered = true;
            return Ok(search);
        }
        insert_all(&mut search.pushes, row.with.as_slice())?;
        search.part += 1;
        if search.part < search.count {
            return Ok(search);
        }
        search.close(alloc)?;
        Ok(search)
    }

    /// The moves that were found, where an element can be added, at these parts: a walk with fewest steps along the arcs that were told. The
    /// only error is want of memory.
    pub fn moves(&self, alloc: Global, parts: &[ElemSet]) -> Result<Option<Vec<Move>>, AllocError>
        requires ready { IsReady self.now }
        requires parts { length parts.now < 2 ^ 32 }
        ensures { IfOk result (λ found. (n : ℕ) (tests : List (List ℕ → Bool)) (among : List ℕ) (start : ℕ) → AreMatroids n tests
            → AreParts tests parts.now → IsReaching n (length parts.now) (exchanges_with tests parts.now) among start self.now
            → is_member start (family_union parts.now) ≡ false
            → MatchOption found (self.now.entered ≡ false) (λ moves. AreFoundMoves tests parts.now self.now moves.items)) }
    {
        if !self.entered {
            return Ok(None);
        }
        let queue = self.queue.as_slice();
        let table = told_table(alloc, self.elements, queue, self.told.as_slice())?;
        let arcs = KnownArcs {
            table: &table,
            start: self.start,
            goal: self.queue[self.head],
        };
        match shortest_walk(alloc, &arcs)? {
            WalkSearch::Walk(walk) => Ok(Some(moves_to(alloc, parts, &walk, self.part)?)),
            WalkSearch::Reached(_) => Ok(None),
        }
    }
}

// A table with a row for each element, in which what is told of the first elements of the queue stands at these, and nothing at the others.
fn told_table(
    alloc: Global,
    elements: u32,
    queue: &[u32],
    told: &[BitSet],
) -> Result<BitRows, AllocError>
    requires told { length told.now ≤ length queue.now }
    requires below { AllBelow elements queue.now }
    ensures { IfOk result (λ table. IsToldTable elements (length told.now) queue.now told.now table) }
{
    let mut table = BitRows::with_rows(alloc, elements, 0)?;
    for k in 0..told.len() {
        let row = told[k].copy(alloc)?;
        table.replace(queue[k], row);
    }
    Ok(table)
}

/// The arcs that a search knows, from its start to the element that can be added.
#[derive(Drop)]
struct KnownArcs<'a> {
    table: &'a BitRows,
    start: u32,
    goal: u32,
}

impl Relation for KnownArcs<'_> {
    ghost use Rattle.std.specs.Prelude.{◌==◌, ◌<◌, ◌^◌, length};
    ghost use Rattle.mat_sets.specs.{Sets.{is_member}, Rows.{row_at}};

    ghost count = { λ g. length g.table.now };

    ghost sound = { λ g. length g.table.now < 2 ^ 32 };

    ghost arc = { λ g u v. is_member v (row_at g.table.now u) };

    ghost start = { λ g v. v == g.start };

    ghost goal = { λ g v. v == g.goal };

    fn size(&self) -> u32 {
        self.table.len() as u32
    }

    fn is_start(&self, v: u32) -> bool {
        v == self.start
    }

    fn is_goal(&self, v: u32) -> bool {
        v == self.goal
    }

    fn next_arc(&self, u: u32, among: &BitSet, from: u32) -> Option<u32> {
        among.next_common(self.table.row(u), from)
    }
}

// The number of the part that holds an element, or 0 where none does.
fn place_of(parts: &[ElemSet], v: u32) -> u32
    requires { length parts.now < 2 ^ 32 }
    ensures { (q : ℕ) → AreDisjoint parts.now → q < length parts.now → is_member v (part_at parts.now q) ≡ true → result ≡ q }
{
    for i in 0..parts.len() {
        if parts[i].contains(v) {
            return i as u32;
        }
    }
    0
}

/// The moves along a walk, of which the last goes to this part.
pub(crate) fn moves_to(
    alloc: Global,
    parts: &[ElemSet],
    walk: &[u32],
    part: u32,
) -> Result<Vec<Move>, AllocError>
    requires few { length parts.now < 2 ^ 32 }
    requires some { 0 < length walk.now }
    ensures { IfOk result (λ moves. AreMovesAt parts.now walk.now part moves.items) }
{
    let mut moves = Vec::new(alloc);
    let last = walk.len() - 1;
    for i in 0..last {
        let place = place_of(parts, walk[i + 1]);
        moves.push(Move {
            element: walk[i],
            part: place,
        })?;
    }
    moves.push(Move {
        element: walk[last],
        part,
    })?;
    Ok(moves)
}
