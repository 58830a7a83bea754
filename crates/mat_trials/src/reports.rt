//! What is printed of a case.

use crate::calls::{Ended, ended_beside, words_of};
use crate::cases::{Case, cases_of};
use crate::shared::{ended_of, is_same_for_all};
use crate::witnesses::{add_verification, ended_witnessed};
use std::alloc::{AllocError, Global};
use std::thread::Threads;

/// The line of the words of a case.
pub(crate) fn heading_of(alloc: Global, words: &[String]) -> Result<Vec<u8>, AllocError> {
    let mut heading = Vec::new(alloc);
    heading.push(b'>')?;
    for word in words {
        heading.push(b' ')?;
        heading.extend_from_slice(word.as_bytes())?;
    }
    heading.push(b'\n')?;
    Ok(heading)
}

// The commands that print a certificate.
const SOLVING: [&str; 10] = [
    "best",
    "intersect",
    "union",
    "pack",
    "cover",
    "trees",
    "arborescence",
    "disjoint",
    "rainbow",
    "assign",
];

/// Whether the command is one that prints a certificate.
pub(crate) fn asks_to_solve(words: &[String]) -> bool {
    words
        .first()
        .is_some_and(|word| SOLVING.iter().any(|name| *name == word.as_str()))
}

/// Whether this is the command.
pub(crate) fn is_command(words: &[String], name: &str) -> bool {
    words.first().is_some_and(|word| word.as_str() == name)
}

// Whether the command makes a witness or verifies one.
fn is_about_witness(words: &[String]) -> bool {
    is_command(words, "witness") || is_command(words, "verify")
}

// Whether the words have the option.
fn has_option(words: &[String]) -> bool {
    words
        .get(1)
        .is_some_and(|word| word.as_str() == "--workers")
}

// Whether every right answer has this line: the header, and the weight of a rung.
fn is_fixed(line: &[u8]) -> bool {
    line.starts_with(b"answer ") || line.starts_with(b"rung ")
}

// Whether a header says that there are not so many trees: it is open in how many classes the vertices fall.
fn has_classes(line: &[u8]) -> bool {
    line.starts_with(b"answer trees ") && line.split(|byte| *byte == b' ').count() == 7
}

// What is told of such a line: of classes only that they are there.
fn told_line(line: &[u8]) -> &[u8] {
    if has_classes(line) {
        b"answer trees none"
    } else {
        line
    }
}

// Whether right answers may differ in this line even where only one set is right: the line has a part of the split weights, or a cut.
fn is_open(line: &[u8]) -> bool {
    line.starts_with(b"first") || line.starts_with(b"second") || line.starts_with(b"cut")
}

// Adds the lines of a certificate that every right answer has: the header and the weights of rungs, or where one answer is right all but
// those that are open.
fn add_fixed_lines(
    report: &mut Vec<u8>,
    case: &Case,
    certificate: &[u8],
) -> Result<(), AllocError> {
    for line in certificate.split(|byte| *byte == b'\n') {
        if is_fixed(line) || case.is_fixed && !line.is_empty() && !is_open(line) {
            report.extend_from_slice(told_line(line))?;
            report.push(b'\n')?;
        }
    }
    Ok(())
}

// Adds the first words of a header, up to the cost or the number of vertices, as a line.
fn add_words_to_cost(report: &mut Vec<u8>, header: &[u8]) -> Result<(), AllocError> {
    let unreached = header
        .split(|byte| *byte == b' ')
        .any(|word| word == b"unreached".as_slice());
    let count = if unreached { 5 } else { 4 };
    for word in header.split(|byte| *byte == b' ').take(count) {
        report.extend_from_slice(word)?;
        report.push(b' ')?;
    }
    report.push(b'\n')?;
    Ok(())
}

// Adds the header of an answer that weighted vertex sets prove, without the number of these sets, which is open; and where one answer is
// right the other lines that are not open.
fn add_cost(report: &mut Vec<u8>, case: &Case, text: &[u8]) -> Result<(), AllocError> {
    for line in text.split(|byte| *byte == b'\n') {
        if line.starts_with(b"answer ") {
            add_words_to_cost(report, line)?;
        } else if case.is_fixed && !line.is_empty() && !is_open(line) {
            report.extend_from_slice(line)?;
            report.push(b'\n')?;
        }
    }
    Ok(())
}

// Adds what the judge says of a certificate that was printed.
fn add_judgement<R: Threads + Sync>(
    rt: &R,
    alloc: Global,
    report: &mut Vec<u8>,
    description: &str,
    certificate: &[u8],
) -> Result<(), AllocError> {
    let words = words_of(alloc, &["check", "f", "c"])?;
    let copy = certificate.to_vec(alloc)?;
    let judged = ended_beside(rt, alloc, &words, description, copy)?;
    report.extend_from_slice(judged.notes.taken())?;
    report.extend_from_slice(judged.out.taken())
}

// The text of the file that a job names, the last word of its line.
fn description_of<'a>(case: &'a Case, job: &str) -> &'a str {
    match &case.witness {
        Some(text) if job.ends_with(" g") => text.as_str(),
        _ => case.description.as_str(),
    }
}

// Adds what the judge says of a certificate that a list of jobs printed, of which these are the lines behind the first, about the description
// that its job names.
fn add_job<R: Threads + Sync>(
    rt: &R,
    alloc: Global,
    report: &mut Vec<u8>,
    case: &Case,
    job: &str,
    lines: &str,
) -> Result<(), AllocError> {
    let certificate = format!(in alloc; "certificate 1\n{lines}")?;
    let description = description_of(case, job);
    add_judgement(rt, alloc, report, description, certificate.as_bytes())
}

// Adds what the judge says of each certificate that a list of jobs printed.
fn add_judgements<R: Threads + Sync>(
    rt: &R,
    alloc: Global,
    report: &mut Vec<u8>,
    case: &Case,
    text: &[u8],
) -> Result<(), AllocError> {
    let list = case.certificate.as_ref().map_or("", |list| list.as_str());
    let jobs = list.split('\n').filter(|line| line.starts_with("job "));
    let text = String::from_utf8_lossy(alloc, text)?;
    for (lines, job) in text.as_str().split("certificate 1\n").skip(1).zip(jobs) {
        add_job(rt, alloc, report, case, job, lines)?;
    }
    Ok(())
}

// Adds whether what was printed is the same for each number of workers, where the words have no option.
fn add_comparison<R: Threads + Sync>(
    rt: &R,
    alloc: Global,
    report: &mut Vec<u8>,
    case: &Case,
    text: &[u8],
) -> Result<(), AllocError> {
    if has_option(&case.words) {
        return Ok(());
    }
    if is_same_for_all(rt, alloc, case, text)? {
        report.extend_from_slice(b"workers same\n")
    } else {
        report.extend_from_slice(b"workers differ\n")
    }
}

// Adds what is told of what a command that was done wrote: of certificates the lines that every right answer has, what the judge says of
// each, and whether they are the same for each number of workers; of an answer with weighted vertex sets its cost; what is said of a witness; and
// every other text whole.
fn add_output<R: Threads + Sync>(
    rt: &R,
    alloc: Global,
    report: &mut Vec<u8>,
    case: &Case,
    text: &[u8],
) -> Result<(), AllocError> {
    if is_command(&case.words, "cuts") {
        return add_cost(report, case, text);
    }
    if is_command(&case.words, "witness") {
        return add_verification(rt, alloc, report, case, text);
    }
    if is_command(&case.words, "batch") {
        add_fixed_lines(report, case, text)?;
        add_judgements(rt, alloc, report, case, text)?;
        return add_comparison(rt, alloc, report, case, text);
    }
    if asks_to_solve(&case.words) {
        add_fixed_lines(report, case, text)?;
        add_judgement(rt, alloc, report, case.description.as_str(), text)?;
        return add_comparison(rt, alloc, report, case, text);
    }
    report.extend_from_slice(text)
}

// Runs the top call of a case.
fn ended_case<R: Threads + Sync>(rt: &R, alloc: Global, case: &Case) -> Result<Ended, AllocError> {
    if is_about_witness(&case.words) {
        ended_witnessed(rt, alloc, case)
    } else {
        ended_of(rt, alloc, case, &case.words)
    }
}

// Adds the status with which a case ended, its note, and what is told of what it wrote.
fn add_end<R: Threads + Sync>(
    rt: &R,
    alloc: Global,
    report: &mut Vec<u8>,
    case: &Case,
    ended: &Ended,
) -> Result<(), AllocError> {
    let number = ended.status.number();
    let line = format!(in alloc; "status {number}\n")?;
    report.extend_from_slice(line.as_bytes())?;
    report.extend_from_slice(ended.notes.taken())?;
    if number == 0 {
        add_output(rt, alloc, report, case, ended.out.taken())
    } else {
        report.extend_from_slice(ended.out.taken())
    }
}

// The words of a case, the status with which the top call ends, its note, and what is told of what it writes.
fn report_of<R: Threads + Sync>(rt: &R, alloc: Global, case: &Case) -> Result<Vec<u8>, AllocError> {
    let mut report = heading_of(alloc, &case.words)?;
    let ended = ended_case(rt, alloc, case)?;
    add_end(rt, alloc, &mut report, case, &ended)?;
    Ok(report)
}

/// What is printed of the cases of a file that begins with one.
pub(crate) fn cases_report<R: Threads + Sync>(
    rt: &R,
    alloc: Global,
    file: &str,
) -> Result<Vec<u8>, AllocError> {
    let mut all = Vec::new(alloc);
    for case in cases_of(alloc, file)?.iter() {
        let report = report_of(rt, alloc, case)?;
        all.extend_from_slice(report.as_slice())?;
    }
    Ok(all)
}
