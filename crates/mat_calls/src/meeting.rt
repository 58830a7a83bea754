//! Two workers who meet at the rows of a matroid of two elements, and searches for a tight path at these rows.

ghost use Rattle.std.specs.Prelude.{◌≡◌, ⊤, [], pos, ◌≤ℤ◌};
ghost use Rattle.mat_sets.specs.SetTests.{is_set};
ghost use Rattle.mat_exchange.specs.Tables.{IsTableAt};
ghost use Rattle.mat_calls.specs.FreeLaws.{free_laws};

use crate::known::{told, told_numbers, told_set};
use mat_exchange::{Found, RowTable, rows, tight_search};
use mat_laws::{Exchange, Matroid};
use mat_sets::{ElemSet, Weight};
use std::alloc::{AllocError, Global};
use std::sync::atomic::{AtomicBool, Ordering};
use std::thread::Threads;

/// How often a row looks for the other's flag.
const TURNS: u32 = 2_000_000_000;

/// The matroid of two elements in which each set is independent. The exchanges of an element raise its own flag and then look for
/// that of the other.
#[derive(Drop)]
struct Flags {
    first: AtomicBool,
    second: AtomicBool,
    missed: AtomicBool,
}

/// Raises one flag, and tells whether the other is seen.
fn meets(own: &AtomicBool, other: &AtomicBool) -> bool {
    own.store(true, Ordering::SeqCst);
    for _ in 0..TURNS {
        if other.load(Ordering::SeqCst) {
            return true;
        }
    }
    false
}

impl Matroid for Flags {
    ghost ground_size = { λ _. 2 };

    ghost sound = { λ _. Unit {0} };

    ghost indep = { λ _. is_set 2 };

    type Kept = ();

    ghost keeps = { λ _ _ _. ⊤ };

    ghost laws = { λ _ _. free_laws 2 };

    fn size(&self) -> u32 {
        2
    }

    fn independent(&self, _alloc: Global, set: &ElemSet) -> Result<bool, AllocError> {
        set.rises();
        Ok(true)
    }

    fn row(
        &self,
        alloc: Global,
        base: &ElemSet,
        _kept: &(),
        x: u32,
    ) -> Result<Exchange, AllocError> {
        self.circuit(alloc, base, x)
    }

    fn circuit(&self, alloc: Global, base: &ElemSet, x: u32) -> Result<Exchange, AllocError> {
        let met = if x == 0 {
            meets(&self.first, &self.second)
        } else {
            meets(&self.second, &self.first)
        };
        if !met {
            self.missed.store(true, Ordering::SeqCst);
        }
        self.circuit_by_questions(alloc, base, x)
    }

    fn keep(&self, _alloc: Global, _base: &ElemSet) -> Result<(), AllocError> {
        Ok(())
    }
}

// A weight without a tie.
fn plain(main: i128) -> Weight
    ensures { result ≡ record { main = main; tie = pos 0 } }
{
    Weight { main, tie: 0 }
}

// What was reached, and the least slack.
fn told_reach(
    alloc: Global,
    reach: &ElemSet,
    slack: &Option<Weight>,
) -> Result<String, AllocError> {
    let reached = told_set(alloc, reach)?;
    let least = match slack {
        Some(weight) => weight.main,
        None => 0,
    };
    format!(in alloc; "reached {reached} slack {least}")
}

// What a search at the empty set found: the path, or what was reached and the least slack.
fn told_found(alloc: Global, found: &Found) -> Result<String, AllocError> {
    match found {
        Found::Path(path) => told_numbers(alloc, "path", path.as_slice()),
        Found::Stuck { reach, slack } => told_reach(alloc, reach, slack),
    }
}

// The search at the empty set where both elements can be added in both matroids, element 1 is heaviest in the first, and element 0 has this
// weight in the second, where that of element 1 is 1.
fn told_search(alloc: Global, table: &RowTable, weight: i128) -> Result<String, AllocError>
    requires table { IsTableAt 2 [] table.now }
    requires some { pos 0 ≤ℤ weight }
    requires small { weight ≤ℤ pos 9 }
{
    let set = ElemSet::new(alloc);
    let first = [plain(3), plain(5)];
    let second = [plain(weight), plain(1)];
    let found = tight_search(alloc, table, table, &set, &first, &second)?;
    told_found(alloc, &found)
}

// The searches where element 1 is heaviest in the second matroid too, and where element 0 is.
fn told_searches(alloc: Global, table: &RowTable) -> Result<String, AllocError>
    requires { IsTableAt 2 [] table.now }
{
    let path = told_search(alloc, table, 1)?;
    let stuck = told_search(alloc, table, 9)?;
    format!(in alloc; "{path}, {stuck}")
}

// What is told of searches at the rows that two workers make.
fn told_meeting<R: Threads + Sync>(
    rt: &R,
    alloc: Global,
    flags: &Flags,
) -> Result<String, AllocError> {
    let table = rows(rt, alloc, flags, &ElemSet::new(alloc), 2)?;
    told_searches(alloc, &table)
}

/// Whether two workers met at the rows of the empty set, what searches find there, and what the calls answer of which the trait has the body. On
/// one thread the first row would not see the flag of the second.
pub(crate) fn meeting_report<R: Threads + Sync>(
    rt: &R,
    alloc: Global,
) -> Result<String, AllocError> {
    let flags = Flags {
        first: AtomicBool::new(false),
        second: AtomicBool::new(false),
        missed: AtomicBool::new(false),
    };
    let searches = told_meeting(rt, alloc, &flags)?;
    let met = !flags.missed.load(Ordering::SeqCst);
    let free = told(alloc, "free", &flags, &[1, 0])?;
    format!(in alloc; "two rows met {met}\nsearches {searches}\n{free}")
}
