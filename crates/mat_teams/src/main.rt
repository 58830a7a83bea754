//! The program `mat_teams`: who travels next. Six people gain so much each, at most three go, and a team that went before does not go again: a kind
//! of matroid that no crate below has. It prints the best teams of each size under this rule alone, with one person of each department, and with
//! a second team that does not go again, and what proves those of two rules best. What it has to print is worked out by `expected.py`.
#![tactic(auto)]

mod gains;
mod ladders;
mod telling;
mod uniform_except;

use crate::gains::weights_of;
use crate::ladders::{best_teams, next_teams};
use crate::telling::{put_ladder, put_teams};
use crate::uniform_except::UniformExcept;
use mat_count::Partition;
use std::alloc::{AllocError, Global};
use std::io;
use std::io::Write;
use std::thread::Threads;

// How many people there are.
const PEOPLE: u32 = 6;

// What each of them gains.
const GAINS: [u32; 6] = [10, 9, 8, 6, 4, 1];

// The best teams but 0, 1 and 2.
fn put_one_rule(alloc: Global, out: &mut Vec<u8>) -> Result<(), AllocError> {
    out.extend_from_slice(b"three, but not 0 1 2\n")?;
    let weights = weights_of(alloc, &GAINS)?;
    let last = UniformExcept::new(alloc, PEOPLE, &[0, 1, 2])?;
    let teams = best_teams(alloc, &last, weights.as_slice())?;
    put_teams(out, &teams, weights.as_slice())
}

// The best teams of one person of each department but 0, 2 and 4.
fn put_departments<R: Threads + Sync>(
    rt: &R,
    alloc: Global,
    out: &mut Vec<u8>,
) -> Result<(), AllocError> {
    out.extend_from_slice(b"three, one of each department, but not 0 2 4\n")?;
    let weights = weights_of(alloc, &GAINS)?;
    let last = UniformExcept::new(alloc, PEOPLE, &[0, 2, 4])?;
    let caps = vec![in alloc; 1, 1, 1]?;
    let departments = Partition::by_labels(alloc, &[0, 0, 1, 1, 2, 2], caps)?;
    let ladder = next_teams(rt, alloc, &last, &departments, weights.as_slice())?;
    put_ladder(out, &ladder, weights.as_slice())
}

// The best teams but 0, 1 and 2, and 0, 1 and 3.
fn put_two_teams<R: Threads + Sync>(
    rt: &R,
    alloc: Global,
    out: &mut Vec<u8>,
) -> Result<(), AllocError> {
    out.extend_from_slice(b"three, but not 0 1 2 nor 0 1 3\n")?;
    let weights = weights_of(alloc, &GAINS)?;
    let last = UniformExcept::new(alloc, PEOPLE, &[0, 1, 2])?;
    let before = UniformExcept::new(alloc, PEOPLE, &[0, 1, 3])?;
    let ladder = next_teams(rt, alloc, &last, &before, weights.as_slice())?;
    put_ladder(out, &ladder, weights.as_slice())
}

// What the program prints.
fn report<R: Threads + Sync>(rt: &R, alloc: Global) -> Result<Vec<u8>, AllocError> {
    let mut out = Vec::new(alloc);
    put_one_rule(alloc, &mut out)?;
    put_departments(rt, alloc, &mut out)?;
    put_two_teams(rt, alloc, &mut out)?;
    Ok(out)
}

fn main(rt: HostRuntime) -> io::Result<()> {
    let text = report(&rt, rt.alloc())?;
    rt.stdout().write_all(text.as_slice())
}
