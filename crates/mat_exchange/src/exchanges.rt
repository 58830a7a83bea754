//! How the missing rows of a table of exchanges are made and entered.
ghost use Rattle.std.specs.Prelude.{◌≡◌, ℕ, ◌<◌, ◌≤◌, ◌+◌, true, false, [], List, length, IfOk, OnOk};
ghost use Rattle.mat_sets.specs.{Limits.{most_elements}, Sets.{AllBelow, is_member}};
ghost use Rattle.mat_laws.specs.{Exchanges.{rows_of}, TightPaths.{row_in}, declared.exchange.Exchange.{Exchange}};
ghost use Rattle.mat_work.specs.Workers.{AreWorkers};
ghost use Rattle.mat_exchange.specs.RowTables.{AgreeOn, IsFilledTable, entered_to};

use crate::at_set::ExchangesAt;
use crate::partial_table::PartialTable;
use crate::unfinished_table::UnfinishedTable;
use mat_laws::{Exchange, Matroid};
use mat_sets::{BitSet, ElemSet};
use mat_ticket::ticket_rows;
use mat_work::RowJob;
use std::alloc::{AllocError, Global};
use std::marker::Model;
use std::thread::Threads;

/// The job that makes the missing rows of a table of exchanges at an independent set of a matroid, by what the matroid keeps of the set. It is
/// seen as the list of the rows of all elements, and the elements whose rows are missing.
#[derive(Drop)]
struct MissingRows<'a, M: Matroid> {
    alloc: Global,
    matroid: &'a M,
    set: &'a ElemSet,
    kept: &'a M::Kept,
    missing: &'a BitSet,
}

impl<'a, M: Matroid> Model for MissingRows<'a, M> {
    ghost use Rattle.std.specs.Prelude.{◌≡◌, ℕ, List, true};
    ghost use Rattle.mat_laws.specs.{declared.exchange.Exchange.{Exchange}, Exchanges.{rows_of}};

    ghost Value = { List Exchange × List ℕ };

    ghost view = { λ a. (rows_of (M.ground_size a.matroid.now) (M.indep a.matroid.now) a.set.now, a.missing.now) };

    ghost invariant = { λ a. M.sound a.matroid.now × (M.indep a.matroid.now a.set.now ≡ true) × M.keeps a.matroid.now a.set.now a.kept.now };
}

impl<M: Matroid> RowJob for MissingRows<'_, M> {
    type Row = Exchange;

    ghost use Rattle.std.specs.Prelude.{◌≡◌, length, true};
    ghost use Rattle.mat_sets.specs.Sets.{is_member};
    ghost use Rattle.mat_laws.specs.TightPaths.{row_in};

    ghost jobs = { λ told. length told.0 };

    ghost stands = { λ told x row. is_member x told.1 ≡ true → row ≡ row_in told.0 x };

    fn row(&self, x: u32) -> Result<Exchange, AllocError> {
        if !self.missing.contains(x) {
            return Ok(no_exchanges(self.alloc));
        }
        if self.set.contains(x) {
            return Ok(no_exchanges(self.alloc));
        }
        self.matroid.row(self.alloc, self.set, self.kept, x)
    }
}

/// The row of an element that cannot be added or exchanged.
fn no_exchanges(alloc: Global) -> Exchange
    ensures { result ≡ record { addable = false; with = [] } }
{
    Exchange {
        addable: false,
        with: ElemSet::new(alloc),
    }
}

/// Enters the missing row of x, by what the matroid keeps of the set: a member has no exchanges, and no row is made for an element that can be
/// added.
fn enter_missing<M: Matroid>(
    alloc: Global,
    m: &M,
    set: &ElemSet,
    base: &BitSet,
    kept: &M::Kept,
    x: u32,
    table: &mut PartialTable,
) -> Result<(), AllocError>
    requires sound { M.sound m.now }
    requires independent { M.indep m.now set.now ≡ true }
    requires few { M.ground_size m.now ≤ most_elements }
    requires kept { M.keeps m.now set.now kept.now }
    requires base { base.now ≡ set.now }
    requires below { x < M.ground_size m.now }
    requires rows { length table.old.rows ≡ M.ground_size m.now }
    requires columns { length table.old.columns ≡ M.ground_size m.now }
    ensures { OnOk result ((missing : List ℕ)
        → IsFilledTable (rows_of (M.ground_size m.now) (M.indep m.now) set.now) (entered_to missing x) table.old.addable table.old.rows table.old.columns
        → IsFilledTable (rows_of (M.ground_size m.now) (M.indep m.now) set.now) (entered_to missing (x + 1))
        table.new.addable table.new.rows table.new.columns) }
{
    m.lawful();
    if base.contains(x) {
        return Ok(());
    }
    match m.circuit_members(alloc, set, kept, x)? {
        None => table.enter_addable(x),
        Some(members) => {
            table.enter(x, &members);
            Ok(())
        }
    }
}

/// Enters all missing rows, one after the other, by what the matroid keeps of the set.
fn enter_in_turn<M: Matroid>(
    alloc: Global,
    m: &M,
    set: &ElemSet,
    base: &BitSet,
    kept: &M::Kept,
    missing: &BitSet,
    table: &mut PartialTable,
) -> Result<(), AllocError>
    requires sound { M.sound m.now }
    requires independent { M.indep m.now set.now ≡ true }
    requires few { M.ground_size m.now ≤ most_elements }
    requires kept { M.keeps m.now set.now kept.now }
    requires base { base.now ≡ set.now }
    requires filled { IsFilledTable (rows_of (M.ground_size m.now) (M.indep m.now) set.now) (entered_to missing.now 0)
        table.old.addable table.old.rows table.old.columns }
    ensures { OnOk result (IsFilledTable (rows_of (M.ground_size m.now) (M.indep m.now) set.now) (entered_to missing.now (M.ground_size m.now))
        table.new.addable table.new.rows table.new.columns) }
{
    for x in 0..m.size() {
        if missing.contains(x) {
            enter_missing(alloc, m, set, base, kept, x, table)?;
        }
    }
    Ok(())
}

/// Enters all missing rows, which stand in a list at the places of their elements.
fn enter_rows(
    exchanges: &[Exchange],
    missing: &BitSet,
    table: &mut PartialTable,
) -> Result<(), AllocError>
    requires few { length exchanges.now ≤ most_elements }
    requires below { (x : ℕ) → x < length exchanges.now → is_member x missing.now ≡ true
        → AllBelow (length exchanges.now) (row_in exchanges.now x).with }
    requires filled { (rows : List Exchange) × (length rows ≡ length exchanges.now) × AgreeOn missing.now exchanges.now rows
        × IsFilledTable rows (entered_to missing.now 0) table.old.addable table.old.rows table.old.columns }
    ensures { OnOk result ((rows : List Exchange) → length rows ≡ length exchanges.now → AgreeOn missing.now exchanges.now rows
        → IsFilledTable rows (entered_to missing.now 0) table.old.addable table.old.rows table.old.columns
        → IsFilledTable rows (entered_to missing.now (length rows)) table.new.addable table.new.rows table.new.columns) }
{
    for x in 0..exchanges.len() as u32 {
        if missing.contains(x) {
            table.enter_row(x, &exchanges[x as usize])?;
        }
    }
    Ok(())
}

/// Enters all missing rows, which 1 to 16 workers make by what the matroid keeps of the set.
fn enter_by_workers<R: Threads + Sync, M: Matroid>(
    rt: &R,
    alloc: Global,
    m: &M,
    set: &ElemSet,
    kept: &M::Kept,
    missing: &BitSet,
    table: &mut PartialTable,
    workers: u32,
) -> Result<(), AllocError>
    requires sound { M.sound m.now }
    requires independent { M.indep m.now set.now ≡ true }
    requires few { M.ground_size m.now ≤ most_elements }
    requires kept { M.keeps m.now set.now kept.now }
    requires filled { IsFilledTable (rows_of (M.ground_size m.now) (M.indep m.now) set.now) (entered_to missing.now 0)
        table.old.addable table.old.rows table.old.columns }
    requires workers { AreWorkers workers }
    ensures { OnOk result (IsFilledTable (rows_of (M.ground_size m.now) (M.indep m.now) set.now) (entered_to missing.now (M.ground_size m.now))
        table.new.addable table.new.rows table.new.columns) }
{
    m.lawful();
    let job = MissingRows {
        alloc,
        matroid: m,
        set,
        kept,
        missing,
    };
    let drawn = ticket_rows(rt, alloc, &job, m.size(), workers)?;
    enter_rows(&drawn.rows, missing, table)
}

/// The exchanges at an independent set, once all missing rows are entered, one after the other. The only error is want of memory.
pub(crate) fn filled_in_turn<M: Matroid>(
    alloc: Global,
    m: &M,
    set: &ElemSet,
    unfilled: UnfinishedTable<M::Kept>,
) -> Result<ExchangesAt<M::Kept>, AllocError>
    requires sound { M.sound m.now }
    requires independent { M.indep m.now set.now ≡ true }
    requires few { M.ground_size m.now ≤ most_elements }
    requires kept { M.keeps m.now set.now unfilled.kept }
    requires filled { IsFilledTable (rows_of (M.ground_size m.now) (M.indep m.now) set.now) (entered_to unfilled.missing 0)
        unfilled.table.addable unfilled.table.rows unfilled.table.columns }
    ensures kept { IfOk result (λ at. M.keeps m.now set.now at.kept) }
    ensures table { IfOk result (λ at. at.table ≡ rows_of (M.ground_size m.now) (M.indep m.now) set.now) }
{
    m.lawful();
    let UnfinishedTable {
        kept,
        missing,
        mut table,
    } = unfilled;
    let base = set.to_bits(alloc)?;
    enter_in_turn(alloc, m, set, &base, &kept, &missing, &mut table)?;
    let table = table.finish(base);
    Ok(ExchangesAt { kept, table })
}

/// The exchanges at an independent set, once all missing rows are entered by 1 to 16 workers. One worker alone enters each row as soon as it is
/// made, and makes none for an element that can be added; of more, each computes rows, one after the other, and the caller enters them into the
/// table. The only error is want of memory.
pub(crate) fn filled<R: Threads + Sync, M: Matroid>(
    rt: &R,
    alloc: Global,
    m: &M,
    set: &ElemSet,
    unfilled: UnfinishedTable<M::Kept>,
    workers: u32,
) -> Result<ExchangesAt<M::Kept>, AllocError>
    requires sound { M.sound m.now }
    requires independent { M.indep m.now set.now ≡ true }
    requires few { M.ground_size m.now ≤ most_elements }
    requires kept { M.keeps m.now set.now unfilled.kept }
    requires filled { IsFilledTable (rows_of (M.ground_size m.now) (M.indep m.now) set.now) (entered_to unfilled.missing 0)
        unfilled.table.addable unfilled.table.rows unfilled.table.columns }
    requires workers { AreWorkers workers }
    ensures kept { IfOk result (λ at. M.keeps m.now set.now at.kept) }
    ensures table { IfOk result (λ at. at.table ≡ rows_of (M.ground_size m.now) (M.indep m.now) set.now) }
{
    if workers == 1 {
        return filled_in_turn(alloc, m, set, unfilled);
    }
    m.lawful();
    let UnfinishedTable {
        kept,
        missing,
        mut table,
    } = unfilled;
    let base = set.to_bits(alloc)?;
    enter_by_workers(rt, alloc, m, set, &kept, &missing, &mut table, workers)?;
    let table = table.finish(base);
    Ok(ExchangesAt { kept, table })
}
