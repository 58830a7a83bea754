//! What the program does with its words, over real files and streams.

use mat_call::line_words;
use mat_program::{Texts, end_on_host, end_over_streams};
use std::alloc::AllocError;
use std::io;
use std::io::Write;
use std::thread::Threads;

// What `--help` and `--version` print here.
const TEXTS: Texts<'static> = Texts {
    help: "The help.\n",
    version: "The version.\n",
};

// The words of each call. The first `-` reads standard input from its start.
const LINES: [&str; 15] = [
    "--help",
    "--version",
    "intersect plan.txt",
    "--tell plan.txt plan.answer",
    "--tell plan.txt -",
    "--picture never.txt never.answer",
    "check plan.txt plan.answer",
    "check plan.txt wrong.answer",
    "--tell plan.txt wrong.answer",
    "--picture plan.txt plan.txt",
    "intersect not_there.txt",
    "--help --version",
    "--help plan.txt",
    "--tell plan.txt",
    "--tell plan.txt plan.answer x",
];

// The words of calls whose answers go to standard output, and their notes to standard error.
const LINES_ON_HOST: [&str; 3] = [
    "--version",
    "check plan.txt plan.answer",
    "show not_there.txt",
];

// Prints what these words write, the status, and what they note.
fn print_performed<R: Threads + Sync>(
    rt: &R,
    host: &HostRuntime,
    line: &str,
    words: Result<Vec<String>, AllocError>,
) -> io::Result<()> {
    println!(host; "> matbench {line}")?;
    let mut out = Vec::new(host.alloc());
    let mut notes = Vec::new(host.alloc());
    let end = end_over_streams(rt, host.alloc(), &TEXTS, words, host, &mut out, &mut notes);
    host.stdout().write_all(&out)?;
    println!(host; "{end:?}")?;
    host.stdout().write_all(&notes)
}

// Prints what these words write, and the status.
fn print_performed_on_host<R: Threads + Sync>(
    rt: &R,
    host: &HostRuntime,
    line: &str,
) -> io::Result<()> {
    println!(host; "> matbench {line}, on the host")?;
    let end = end_on_host(rt, host, &TEXTS, line_words(host.alloc(), line.as_bytes()));
    println!(host; "{end:?}")
}

/// Prints what comes of each of some command lines, and where memory did not suffice for the words.
pub(crate) fn print_all_performed<R: Threads + Sync>(rt: &R, host: &HostRuntime) -> io::Result<()> {
    for line in LINES {
        let words = line_words(host.alloc(), line.as_bytes());
        print_performed(rt, host, line, words)?;
    }
    print_performed(rt, host, "without memory for the words", Err(AllocError))?;
    for line in LINES_ON_HOST {
        print_performed_on_host(rt, host, line)?;
    }
    Ok(())
}
