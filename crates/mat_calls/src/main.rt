//! The program `mat_calls`, a test of single calls: the search for disjoint paths over the graphs of the files `routes_*.txt`; rows of two workers
//! that meet; a best union and a search for moves; cheapest arborescences of small and large graphs; the calls of matroids over small known ones
//! and over those of the file `kinds.txt`; and problems that are made from a number. It prints what came of each. What it has to print was worked
//! out without it. With names of descriptions as words it prints the lines of these alone.
#![tactic(auto)]

mod kinds;
mod known;
mod meeting;
mod networks;
mod routes;
mod samples;
mod unions;

use crate::kinds::kinds_report;
use crate::known::known_report;
use crate::meeting::meeting_report;
use crate::networks::networks_report;
use crate::routes::{ROUTES, route_report};
use crate::samples::samples_report;
use crate::unions::unions_report;
use std::io::Write;
use std::{env, fs, io};

/// The most bytes that a description may have.
pub(crate) const DESCRIPTION_LIMIT: usize = 4_194_304;

// Prints the line of a description.
fn print_route(rt: &HostRuntime, name: &str, ranked: bool) -> io::Result<()> {
    let text = fs::read(rt, name)?;
    let report = route_report(rt.alloc(), text.as_slice(), ranked)?;
    println!(rt; "{name} {report}")
}

// Prints the lines of the descriptions with these names.
fn print_named(rt: &HostRuntime, names: &[String]) -> io::Result<()> {
    for name in names {
        print_route(rt, name.as_str(), false)?;
    }
    Ok(())
}

// The words after the program's name.
fn names_of(rt: &HostRuntime) -> io::Result<Vec<String>> {
    let mut words = Vec::new(rt.alloc());
    for word in env::args(rt)?.skip(1) {
        words.push(word)?;
    }
    Ok(words)
}

fn main(rt: HostRuntime) -> io::Result<()> {
    let alloc = rt.alloc();
    let names = names_of(&rt)?;
    if !names.is_empty() {
        return print_named(&rt, &names);
    }
    for name in ROUTES.iter() {
        print_route(&rt, *name, true)?;
    }
    let meeting = meeting_report(&rt, alloc)?;
    rt.stdout().write_all(meeting.as_bytes())?;
    let unions = unions_report(alloc)?;
    rt.stdout().write_all(unions.as_bytes())?;
    let networks = networks_report(alloc)?;
    rt.stdout().write_all(networks.as_bytes())?;
    let known = known_report(alloc)?;
    rt.stdout().write_all(known.as_bytes())?;
    let kinds = kinds_report(alloc, fs::read(&rt, "kinds.txt")?.as_slice())?;
    rt.stdout().write_all(kinds.as_bytes())?;
    let samples = samples_report(alloc)?;
    rt.stdout().write_all(samples.as_slice())
}
