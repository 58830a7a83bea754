//! All rows of small jobs, by one worker and by several, and two threads that meet.
ghost use Rattle.std.specs.Prelude.{◌≡◌, ◌+◌, ◌*◌, ◌<◌, ◌≤◌, [], ◌∷◌};
ghost use Rattle.mat_work.specs.Workers.{AreWorkers};

use crate::{RowJob, all_rows};
use std::alloc::{AllocError, Global};
use std::sync::atomic::{AtomicBool, Ordering};
use std::test::Fail;
use std::thread::Threads;

/// Nine rows: one more than three times the number.
#[derive(Drop)]
struct Steps;

impl RowJob for Steps {
    type Row = u64;

    ghost jobs = { λ _. 9 };

    ghost stands = { λ _ i row. row ≡ 3 * i + 1 };

    fn row(&self, i: u32) -> Result<u64, AllocError> {
        Ok(3 * u64::from(i) + 1)
    }
}

/// The first seven rows.
fn seven_steps<R: Threads + Sync>(
    rt: &R,
    alloc: Global,
    workers: u32,
) -> Result<Vec<u64>, AllocError>
    requires { AreWorkers workers }
{
    all_rows(rt, alloc, &Steps, 7, workers)
}

#[test]
fn rows_stand_in_order_for_each_number_of_workers(rt: HostRuntime) -> Result<(), Fail> {
    let alloc = rt.alloc();
    let steps = [1, 4, 7, 10, 13, 16, 19];
    assert!(rt; seven_steps(&rt, alloc, 1)?.as_slice() == steps.as_slice());
    assert!(rt; seven_steps(&rt, alloc, 2)?.as_slice() == steps.as_slice());
    assert!(rt; seven_steps(&rt, alloc, 3)?.as_slice() == steps.as_slice());
    assert!(rt; seven_steps(&rt, alloc, 16)?.as_slice() == steps.as_slice());
    Ok(())
}

#[test]
fn no_rows_are_no_work(rt: HostRuntime) -> Result<(), Fail> {
    let alloc = rt.alloc();
    assert!(rt; all_rows(&rt, alloc, &Steps, 0, 1)?.is_empty());
    assert!(rt; all_rows(&rt, alloc, &Steps, 0, 16)?.is_empty());
    Ok(())
}

/// Three rows with memory of their own: the number and its double.
#[derive(Drop)]
struct Doubles {
    alloc: Global,
}

impl RowJob for Doubles {
    type Row = Vec<u32>;

    ghost jobs = { λ _. 3 };

    ghost stands = { λ _ i row. row.items ≡ i ∷ 2 * i ∷ [] };

    fn row(&self, i: u32) -> Result<Vec<u32>, AllocError> {
        Ok(vec![in self.alloc; i, 2 * i]?)
    }
}

#[test]
fn a_row_may_have_memory_of_its_own(rt: HostRuntime) -> Result<(), Fail> {
    let alloc = rt.alloc();
    let rows = all_rows(&rt, alloc, &Doubles { alloc }, 3, 2)?;
    assert!(rt; rows[0].as_slice() == [0, 0].as_slice());
    assert!(rt; rows[1].as_slice() == [1, 2].as_slice());
    assert!(rt; rows[2].as_slice() == [2, 4].as_slice());
    Ok(())
}

/// Seven rows, of which those of 2 and of 5 end for want of memory.
#[derive(Drop)]
struct Gaps;

impl RowJob for Gaps {
    type Row = u32;

    ghost jobs = { λ _. 7 };

    ghost stands = { λ _ i row. row ≡ i };

    fn row(&self, i: u32) -> Result<u32, AllocError> {
        if i == 2 || i == 5 {
            return Err(AllocError);
        }
        Ok(i)
    }
}

/// Whether the rows below a number are told.
fn is_told<R: Threads + Sync>(rt: &R, alloc: Global, count: u32, workers: u32) -> bool
    requires few { count ≤ 7 }
    requires workers { AreWorkers workers }
{
    all_rows(rt, alloc, &Gaps, count, workers).is_ok()
}

/// Want of memory is one value, so it can't be seen which of the two rows is told.
#[test]
fn a_row_that_finds_no_memory_ends_all(rt: HostRuntime) -> Result<(), Fail> {
    let alloc = rt.alloc();
    assert!(rt; is_told(&rt, alloc, 2, 2) && !is_told(&rt, alloc, 3, 2));
    assert!(rt; !is_told(&rt, alloc, 7, 1) && !is_told(&rt, alloc, 7, 2));
    assert!(rt; !is_told(&rt, alloc, 7, 3) && !is_told(&rt, alloc, 7, 16));
    Ok(())
}

/// How often a row looks for the other's flag.
const TURNS: u32 = 2_000_000_000;

/// Two rows, each of which raises its own flag and then looks for the other's.
#[derive(Drop)]
struct Flags {
    first: AtomicBool,
    second: AtomicBool,
}

/// Raises one flag, and tells whether the other is seen.
fn meets(own: &AtomicBool, other: &AtomicBool) -> bool {
    own.store(true, Ordering::SeqCst);
    for _ in 0..TURNS {
        if other.load(Ordering::SeqCst) {
            return true;
        }
    }
    false
}

impl RowJob for Flags {
    type Row = bool;

    ghost jobs = { λ _. 2 };

    ghost stands = { λ _ _ _. Unit {0} };

    fn row(&self, i: u32) -> Result<bool, AllocError> {
        if i == 0 {
            Ok(meets(&self.first, &self.second))
        } else {
            Ok(meets(&self.second, &self.first))
        }
    }
}

/// On one thread the first row would not see the second's flag.
#[test]
fn two_workers_meet(rt: HostRuntime) -> Result<(), Fail> {
    let flags = Flags {
        first: AtomicBool::new(false),
        second: AtomicBool::new(false),
    };
    let seen = all_rows(&rt, rt.alloc(), &flags, 2, 2)?;
    assert!(rt; seen.as_slice() == [true, true].as_slice());
    Ok(())
}
