//! The program `mat_reports`, a test: it tells the answers of the file `told.txt`, reports over objects that fail and over files that are too
//! long, solves a pair, judges its answer and answers a list of jobs by calls whose words stand in one line, does what the program does with some
//! command lines, and draws the answers of the file `drawn.txt`. It prints what came of each behind its name, with the status and the note where it
//! was refused. What it has to print was worked out without it.
//!
//! A line of the files that begins with `> ` begins a case, and names it. The lines below it are the text of the description, and those below a
//! line that is `--` alone the text of the certificate; where there is no such line, there is no file of the certificate. A last line of a text
//! that is `<` alone is no part of it, and says that the line above it has no end.
#![tactic(auto)]

mod calls;
mod faults;
mod lines;
mod program;

use crate::calls::{Ended, ended_of};
use crate::faults::all_ended;
use crate::lines::{judged_answer, listed_answers, missed_file};
use crate::program::print_all_performed;
use mat_call::Called;
use mat_judge::Status;
use mat_report::{AnswerText, AsPicture, InWords};
use std::alloc::{AllocError, Global};
use std::io::Write;
use std::thread::Threads;
use std::{fs, io};

// The text of these lines, of which the last has no end.
fn text_of(alloc: Global, lines: &str) -> Result<Vec<u8>, AllocError> {
    match lines.strip_suffix("\n<") {
        Some(text) => text.as_bytes().to_vec(alloc),
        None => {
            let mut text = lines.as_bytes().to_vec(alloc)?;
            text.push(b'\n')?;
            Ok(text)
        }
    }
}

// How the case with these lines ends.
fn ended_case<T: AnswerText, R: Threads + Sync>(
    reporter: &T,
    rt: &R,
    alloc: Global,
    lines: &str,
) -> Result<Ended, AllocError> {
    match lines.split_once("\n--\n") {
        Some((description, certificate)) => {
            let certificate = text_of(alloc, certificate)?;
            let description = text_of(alloc, description)?;
            ended_of(reporter, rt, alloc, description, Some(certificate))
        }
        None => ended_of(reporter, rt, alloc, text_of(alloc, lines)?, None),
    }
}

// Prints the name of a case, what was written, and the status and the note where it was refused.
fn print_case(
    rt: &HostRuntime,
    name: &str,
    status: Status,
    output: &[u8],
    note: &[u8],
) -> io::Result<()> {
    println!(rt; "> {name}")?;
    rt.stdout().write_all(output)?;
    if status == Status::Done {
        return Ok(());
    }
    println!(rt; "status {}", status.number())?;
    rt.stdout().write_all(note)
}

// Prints a case by how it ended.
fn print_ended(rt: &HostRuntime, name: &str, ended: &Ended) -> io::Result<()> {
    print_case(
        rt,
        name,
        ended.status,
        ended.out.taken(),
        ended.notes.taken(),
    )
}

// Prints what came of a call over a line.
fn print_called(rt: &HostRuntime, name: &str, called: &Called) -> io::Result<()> {
    print_case(rt, name, called.status, &called.output, &called.note)
}

// Prints what came of calls over a line.
fn print_lines(rt: &HostRuntime) -> io::Result<()> {
    let judged = judged_answer(rt.alloc())?;
    print_called(rt, "an answer by a line is judged by a line", &judged)?;
    let missed = missed_file(rt.alloc())?;
    print_called(rt, "a line names a file that is not there", &missed)?;
    let listed = listed_answers(rt.alloc())?;
    print_called(rt, "the jobs of a list by a line", &listed)
}

// Prints what is written of the cases of a file.
fn print_cases<T: AnswerText, R: Threads + Sync>(
    rt: &R,
    host: &HostRuntime,
    reporter: &T,
    file: &str,
) -> io::Result<()> {
    let cases = fs::read_to_string(host, file)?;
    let all = cases.as_str().strip_prefix("> ").unwrap_or("");
    for case in all.strip_suffix("\n").unwrap_or(all).split("\n> ") {
        if let Some((name, lines)) = case.split_once('\n') {
            let ended = ended_case(reporter, rt, host.alloc(), lines)?;
            print_ended(host, name, &ended)?;
        }
    }
    Ok(())
}

fn main(rt: HostRuntime) -> io::Result<()> {
    print_cases(&rt, &rt, &InWords, "told.txt")?;
    for (name, ended) in &all_ended(&rt, rt.alloc())? {
        print_ended(&rt, name, ended)?;
    }
    print_lines(&rt)?;
    print_all_performed(&rt, &rt)?;
    print_cases(&rt, &rt, &AsPicture, "drawn.txt")
}
