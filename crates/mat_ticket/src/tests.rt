//! Two threads that meet, and the rows and tickets of small jobs.
ghost use Rattle.std.specs.Prelude.{◌≡◌, ◌*◌, ◌<◌, ◌^◌};

use crate::{TicketList, ticket_rows};
use mat_work::RowJob;
use std::alloc::AllocError;
use std::sync::atomic::{AtomicBool, Ordering};
use std::test::Fail;

/// The row of i is its square.
#[derive(Drop)]
struct Squares;

impl RowJob for Squares {
    type Row = u64;

    ghost jobs = { λ _. 2 ^ 32 };

    ghost stands = { λ _ i row. row ≡ i * i };

    fn row(&self, i: u32) -> Result<u64, AllocError> {
        Ok(u64::from(i) * u64::from(i))
    }
}

/// How many of the lists hold the number.
fn lists_with(lists: &[TicketList], x: u32) -> usize {
    let mut count: usize = 0;
    for list in lists {
        if list.as_slice().contains(&x) {
            count = count.saturating_add(1);
        }
    }
    count
}

#[test]
fn each_number_is_drawn_once(rt: HostRuntime) -> Result<(), Fail> {
    for workers in 1..=16 {
        let drawn = ticket_rows(&rt, rt.alloc(), &Squares, 5, workers)?;
        assert!(rt; drawn.rows.as_slice() == [0, 1, 4, 9, 16].as_slice());
        assert!(rt; drawn.tickets.len() == workers as usize);
        for x in 0..5 {
            assert!(rt; lists_with(&drawn.tickets, x) == 1);
        }
    }
    Ok(())
}

#[test]
fn no_rows_are_no_work(rt: HostRuntime) -> Result<(), Fail> {
    let drawn = ticket_rows(&rt, rt.alloc(), &Squares, 0, 3)?;
    assert!(rt; drawn.rows.is_empty() && drawn.tickets.len() == 3);
    assert!(rt; lists_with(&drawn.tickets, 0) == 0);
    Ok(())
}

/// Three rows, of which that of 1 ends for want of memory.
#[derive(Drop)]
struct Gap;

impl RowJob for Gap {
    type Row = u32;

    ghost jobs = { λ _. 3 };

    ghost stands = { λ _ i row. row ≡ i };

    fn row(&self, i: u32) -> Result<u32, AllocError> {
        if i == 1 {
            return Err(AllocError);
        }
        Ok(i)
    }
}

#[test]
fn a_row_that_finds_no_memory_ends_all(rt: HostRuntime) -> Result<(), Fail> {
    assert!(rt; ticket_rows(&rt, rt.alloc(), &Gap, 1, 2).is_ok());
    assert!(rt; ticket_rows(&rt, rt.alloc(), &Gap, 3, 2).is_err());
    Ok(())
}

/// How often a row looks for the other's flag.
const TURNS: u32 = 2_000_000_000;

/// Two rows, each of which raises its own flag and then looks for the other's.
#[derive(Drop)]
struct Flags {
    first: AtomicBool,
    second: AtomicBool,
}

/// Raises one flag, and tells whether the other is seen.
fn meets(own: &AtomicBool, other: &AtomicBool) -> bool {
    own.store(true, Ordering::SeqCst);
    for _ in 0..TURNS {
        if other.load(Ordering::SeqCst) {
            return true;
        }
    }
    false
}

impl RowJob for Flags {
    type Row = bool;

    ghost jobs = { λ _. 2 };

    ghost stands = { λ _ _ _. Unit {0} };

    fn row(&self, i: u32) -> Result<bool, AllocError> {
        if i == 0 {
            Ok(meets(&self.first, &self.second))
        } else {
            Ok(meets(&self.second, &self.first))
        }
    }
}

/// On one thread the first row would not see the second's flag.
#[test]
fn two_workers_meet(rt: HostRuntime) -> Result<(), Fail> {
    let flags = Flags {
        first: AtomicBool::new(false),
        second: AtomicBool::new(false),
    };
    let drawn = ticket_rows(&rt, rt.alloc(), &flags, 2, 2)?;
    assert!(rt; drawn.rows.as_slice() == [true, true].as_slice());
    Ok(())
}
