//! Rows are put at the places of their tickets.
ghost use Rattle.std.specs.{Prelude.{◌≡◌, ℕ, ◌<◌, IfOk, length, map, Some, None, slice_get, slice_set}, List.{AllByRecursion}};
ghost use Rattle.mat_sets.specs.{Families.{multiplicity}, Sets.{AllBelow}};
ghost use Rattle.mat_ticket.specs.Placing.{tickets_of, ArePlaced, FitsRoom, HasItem, IsRowIn};

use crate::drawn::Drawn;
use crate::output::Output;
use crate::ticket_list::TicketList;
use std::alloc::{AllocError, Global};

/// Fills one place.
fn fill<X: Drop>(slots: &mut [Option<X>], at: usize, row: X)
    requires { at < length slots.old }
    ensures { slots.new ≡ slice_set slots.old at (Some row) }
{
    slots[at] = Some(row);
}

/// Puts each row at the place of its ticket, from the last row to the first.
fn place_rows<X: Drop>(slots: &mut [Option<X>], tickets: &[u32], mut rows: Vec<X>)
    requires count { length rows.items ≡ length tickets.now }
    requires below { AllBelow (length slots.old) tickets.now }
    ensures { ArePlaced 0 tickets.now rows.items slots.old slots.new }
{
    while let Some(row) = rows.pop() {
        fill(slots, tickets[rows.len()] as usize, row);
    }
}

/// Places without rows.
fn empty_slots<X: Drop>(alloc: Global, count: u32) -> Result<Vec<Option<X>>, AllocError>
    ensures count { IfOk result (λ slots. length slots.items ≡ count) }
    ensures empty { IfOk result (λ slots. AllByRecursion (λ s. s ≡ None) slots.items) }
{
    let mut slots = Vec::with_capacity(alloc, count as usize)?;
    for _ in 0..count {
        slots.push(None)?;
    }
    Ok(slots)
}

/// The rows of places that are all filled.
fn rows_of_slots<X: Drop>(alloc: Global, slots: &mut [Option<X>]) -> Result<Vec<X>, AllocError>
    requires { (i : ℕ) → i < length slots.old → HasItem slots.old i }
    ensures count { IfOk result (λ rows. length rows.items ≡ length slots.old) }
    ensures rows { IfOk result (λ rows. (i : ℕ) (row : _) → slice_get rows.items i ≡ Some row
        → slice_get slots.old i ≡ Some (Some row)) }
{
    let mut rows = Vec::with_capacity(alloc, slots.len())?;
    for i in 0..slots.len() {
        match slots[i].take() {
            Some(row) => rows.push(row)?,
            None => unreachable!(),
        }
    }
    Ok(rows)
}

/// All rows in the order of their numbers, and the tickets of each worker. The only error is want of memory.
pub(crate) fn arrange<X: Drop>(
    alloc: Global,
    count: u32,
    mut outputs: Vec<Output<X>>,
) -> Result<Drawn<X>, AllocError>
    requires once { (x : ℕ) → x < count → multiplicity x (map tickets_of outputs.items) ≡ 1 }
    requires fit { AllByRecursion (FitsRoom count) outputs.items }
    ensures count { IfOk result (λ d. length d.rows.items ≡ count) }
    ensures rows { IfOk result (λ d. (i : ℕ) (row : _) → slice_get d.rows.items i ≡ Some row → IsRowIn outputs.items i row) }
    ensures tickets { IfOk result (λ d. d.tickets.items ≡ map tickets_of outputs.items) }
{
    let mut slots = empty_slots(alloc, count)?;
    let mut tickets = Vec::with_capacity(alloc, outputs.len())?;
    while !outputs.is_empty() {
        let Output {
            tickets: list,
            rows,
        } = outputs.remove(0);
        place_rows(slots.as_mut_slice(), list.as_slice(), rows);
        tickets.push(TicketList::new(list))?;
    }
    let rows = rows_of_slots(alloc, slots.as_mut_slice())?;
    Ok(Drawn { rows, tickets })
}
