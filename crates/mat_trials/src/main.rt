//! The program `mat_trials`, a test: it runs the top call over the cases of the files `cases.txt` and `each.txt`, over files and sinks that fail,
//! over texts of the greatest length, and over the real files. It prints what came of each. What it has to print was worked out without it.
#![tactic(auto)]

mod calls;
mod cases;
mod each;
mod faults;
mod longest;
mod real;
mod reports;
mod shared;
mod witnesses;

use crate::each::each_report;
use crate::faults::fault_report;
use crate::longest::longest_report;
use crate::real::real_report;
use crate::reports::cases_report;
use std::io::Write;
use std::{fs, io};

fn main(rt: HostRuntime) -> io::Result<()> {
    let alloc = rt.alloc();
    let cases = fs::read_to_string(&rt, "cases.txt")?;
    rt.stdout()
        .write_all(&cases_report(&rt, alloc, cases.as_str())?)?;
    let cases = fs::read_to_string(&rt, "each.txt")?;
    rt.stdout()
        .write_all(&each_report(&rt, alloc, cases.as_str())?)?;
    rt.stdout().write_all(&fault_report(&rt, alloc)?)?;
    rt.stdout().write_all(&longest_report(&rt, alloc)?)?;
    rt.stdout().write_all(&real_report(&rt, alloc)?)
}
