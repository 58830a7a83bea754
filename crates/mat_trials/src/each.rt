//! Each call that may fail fails in turn, and each text ends at each place and goes on with each byte.

ghost use Rattle.std.specs.Prelude.{IfOk};
ghost use Rattle.mat_shelf.specs.Files.{HaveDifferentNames};

use crate::calls::{Ended, one_file, sink, three_files, two_files, words_of};
use crate::cases::{Case, cases_of};
use crate::reports::{asks_to_solve, heading_of, is_command};
use mat_shelf::{MemShelf, MemSink, NamedFile};
use mat_top::{Status, run};
use std::alloc::{AllocError, Global};
use std::thread::Threads;

// The most bytes that a sink holds.
const ROOM: usize = 4096;

// What is told of a text of a case, by its place, and what the notes say where it ends early and where a byte stands behind its end.
#[derive(Clone, Copy)]
struct Ends {
    place: usize,
    name: &'static str,
    early: &'static str,
    behind: &'static str,
}

const DESCRIPTION: Ends = Ends {
    place: 0,
    name: "description",
    early: "description 12 EndsEarly",
    behind: "description 11 TooManyLines",
};

const CERTIFICATE: Ends = Ends {
    place: 1,
    name: "certificate",
    early: "certificate 7 EndsEarly",
    behind: "certificate 8 AfterEnd",
};

const LIST: Ends = Ends {
    place: 1,
    name: "list",
    early: "list",
    behind: "list",
};

const WITNESS: Ends = Ends {
    place: 2,
    name: "witness",
    early: "witness 7 EndsEarly",
    behind: "witness 8 AfterEnd",
};

// The texts of a case: of its description, its certificate or list of jobs, and its witness, as far as there are any.
fn texts_of(alloc: Global, case: &Case) -> Result<Vec<Vec<u8>>, AllocError> {
    let mut texts = Vec::new(alloc);
    if !case.description.is_empty() || case.certificate.is_some() {
        texts.push(case.description.as_bytes().to_vec(alloc)?)?;
    }
    if let Some(text) = &case.certificate {
        texts.push(text.as_bytes().to_vec(alloc)?)?;
    }
    if let Some(text) = &case.witness {
        texts.push(text.as_bytes().to_vec(alloc)?)?;
    }
    Ok(texts)
}

// The text at a place, and nothing where there is none.
fn text_at(texts: &[Vec<u8>], place: usize) -> &[u8] {
    texts
        .get(place)
        .map_or(b"".as_slice(), |text| text.as_slice())
}

// The texts with this one at a place.
fn texts_with(
    alloc: Global,
    texts: &[Vec<u8>],
    place: usize,
    text: &[u8],
) -> Result<Vec<Vec<u8>>, AllocError> {
    let mut all = Vec::new(alloc);
    for i in 0..texts.len().max(place.saturating_add(1)) {
        let chosen = if i == place { text } else { text_at(texts, i) };
        all.push(chosen.to_vec(alloc)?)?;
    }
    Ok(all)
}

// The files with these texts.
fn files_of(alloc: Global, texts: &[Vec<u8>]) -> Result<Vec<NamedFile>, AllocError>
    ensures { IfOk result (λ files. HaveDifferentNames files.items) }
{
    let first = text_at(texts, 0).to_vec(alloc)?;
    let second = text_at(texts, 1).to_vec(alloc)?;
    let third = text_at(texts, 2).to_vec(alloc)?;
    match texts.len() {
        0 | 1 => one_file(alloc, first),
        2 => two_files(alloc, first, second),
        _ => three_files(alloc, first, second, third),
    }
}

// The top call over files of which a read gives one byte, and an output that takes one at a time, where these of their calls fail.
fn ended_failing<R: Threads + Sync>(
    rt: &R,
    alloc: Global,
    words: &[String],
    texts: &[Vec<u8>],
    reads: &[u64],
    writes: &[u64],
) -> Result<Ended, AllocError> {
    let mut shelf = MemShelf::new(files_of(alloc, texts)?, 1, reads.to_vec(alloc)?);
    let mut out = MemSink::new(alloc, ROOM, 1, writes.to_vec(alloc)?)?;
    let mut notes = sink(alloc)?;
    let status = run(rt, alloc, words, &mut shelf, &mut out, &mut notes);
    Ok(Ended { status, out, notes })
}

// Whether each of so many calls of the shelf, where it fails, ends the case with nothing written, and one more call is not made.
fn reads_are_told<R: Threads + Sync>(
    rt: &R,
    alloc: Global,
    words: &[String],
    texts: &[Vec<u8>],
    calls: usize,
) -> Result<bool, AllocError> {
    let mut told = true;
    for before in 0..calls {
        let ended = ended_failing(rt, alloc, words, texts, &[before as u64 + 1], &[])?;
        let read_fault = ended.status == Status::ReadFault;
        told = told && read_fault && ended.out.taken().is_empty();
    }
    let ended = ended_failing(
        rt,
        alloc,
        words,
        texts,
        &[(calls as u64).saturating_add(1)],
        &[],
    )?;
    Ok(told && ended.status == Status::Done)
}

// Whether each call of the output, where it fails, ends the case with what was written before, and one more call is not made.
fn writes_are_told<R: Threads + Sync>(
    rt: &R,
    alloc: Global,
    words: &[String],
    texts: &[Vec<u8>],
    whole: &[u8],
) -> Result<bool, AllocError> {
    let mut told = true;
    for before in 0..whole.len() {
        let ended = ended_failing(rt, alloc, words, texts, &[], &[before as u64 + 1])?;
        let write_fault = ended.status == Status::WriteFault;
        told = told && write_fault && ended.out.taken() == &whole[..before];
    }
    let ended = ended_failing(rt, alloc, words, texts, &[], &[whole.len() as u64 + 1])?;
    Ok(told && ended.status == Status::Done && ended.out.taken() == whole)
}

// Whether the call of the notes behind this part of a note, where it fails, leaves the part, and is not made where the part is the note.
fn note_is_told<R: Threads + Sync>(rt: &R, alloc: Global, part: &[u8]) -> Result<bool, AllocError> {
    let mut shelf = MemShelf::new(Vec::new(alloc), 1, Vec::new(alloc));
    let mut out = sink(alloc)?;
    let mut notes = MemSink::new(alloc, ROOM, 1, [part.len() as u64 + 1].to_vec(alloc)?)?;
    let status = run(rt, alloc, &[], &mut shelf, &mut out, &mut notes);
    Ok(status == Status::Usage && notes.taken() == part)
}

// Whether each call of the notes, where it fails, leaves what was written before, and one more call is not made.
fn notes_are_told<R: Threads + Sync>(rt: &R, alloc: Global) -> Result<bool, AllocError> {
    let note = b"refused: usage\n".as_slice();
    let mut told = true;
    for before in 0..note.len() + 1 {
        let one = note_is_told(rt, alloc, &note[..before])?;
        told = told && one;
    }
    Ok(told)
}

// The note of a fault of a file, in the line that no byte 10 of the text ends.
fn note_at_end(alloc: Global, fault: &str, text: &[u8]) -> Result<String, AllocError> {
    let line = text.split(|byte| *byte == b'\n').count();
    format!(in alloc; "refused: {fault} line {line}\n")
}

// Whether a call ended with this note and wrote nothing.
fn is_refused(ended: &Ended, note: &str) -> bool {
    ended.notes.taken() == note.as_bytes() && ended.out.taken().is_empty()
}

// Whether each part of a text before its end ends early.
fn parts_end_early<R: Threads + Sync>(
    rt: &R,
    alloc: Global,
    words: &[String],
    texts: &[Vec<u8>],
    ends: &Ends,
) -> Result<bool, AllocError> {
    let text = text_at(texts, ends.place);
    let mut told = true;
    for count in 0..text.len() {
        let part = &text[..count];
        let note = note_at_end(alloc, ends.early, part)?;
        let cut = texts_with(alloc, texts, ends.place, part)?;
        let ended = ended_failing(rt, alloc, words, &cut, &[], &[])?;
        told = told && is_refused(&ended, note.as_str());
    }
    Ok(told)
}

// Whether each byte behind a text is one too many.
fn bytes_are_behind<R: Threads + Sync>(
    rt: &R,
    alloc: Global,
    words: &[String],
    texts: &[Vec<u8>],
    ends: &Ends,
) -> Result<bool, AllocError> {
    let text = text_at(texts, ends.place);
    let note = note_at_end(alloc, ends.behind, text)?;
    let mut told = true;
    for byte in 0..256_u32 {
        let mut longer = text.to_vec(alloc)?;
        longer.push(byte as u8)?;
        let more = texts_with(alloc, texts, ends.place, &longer)?;
        let ended = ended_failing(rt, alloc, words, &more, &[], &[])?;
        told = told && is_refused(&ended, note.as_str());
    }
    Ok(told)
}

// Adds what is told of the parts of a text, and of each byte behind it.
fn add_ends<R: Threads + Sync>(
    rt: &R,
    alloc: Global,
    report: &mut Vec<u8>,
    words: &[String],
    texts: &[Vec<u8>],
    ends: &Ends,
) -> Result<(), AllocError> {
    let early = parts_end_early(rt, alloc, words, texts, ends)?;
    let behind = bytes_are_behind(rt, alloc, words, texts, ends)?;
    let name = ends.name;
    let line = format!(in alloc; "{name} {early} {behind}\n")?;
    report.extend_from_slice(line.as_bytes())
}

// How many calls of the shelf are made over these texts where none fails: one opens a file, and then one reads each byte and one the end.
fn calls_of(texts: &[Vec<u8>]) -> usize {
    let mut calls: usize = 0;
    for text in texts {
        calls = calls.saturating_add(text.len()).saturating_add(2);
    }
    calls
}

// Adds what is told of the ends of each text of a case.
fn add_all_ends<R: Threads + Sync>(
    rt: &R,
    alloc: Global,
    report: &mut Vec<u8>,
    words: &[String],
    texts: &[Vec<u8>],
) -> Result<(), AllocError> {
    let second = if is_command(words, "batch") {
        LIST
    } else {
        CERTIFICATE
    };
    for ends in [DESCRIPTION, second, WITNESS].iter() {
        if ends.place < texts.len() {
            add_ends(rt, alloc, report, words, texts, ends)?;
        }
    }
    Ok(())
}

// Adds what is told of the ends of a certificate that was printed, where it is judged.
fn add_certificate_ends<R: Threads + Sync>(
    rt: &R,
    alloc: Global,
    report: &mut Vec<u8>,
    texts: &[Vec<u8>],
    certificate: &[u8],
) -> Result<(), AllocError> {
    let words = words_of(alloc, &["check", "f", "c"])?;
    let judged = texts_with(alloc, texts, CERTIFICATE.place, certificate)?;
    add_ends(rt, alloc, report, &words, &judged, &CERTIFICATE)
}

// Adds how many calls of the shelf there are, and whether each fault of one is told.
fn add_reads<R: Threads + Sync>(
    rt: &R,
    alloc: Global,
    report: &mut Vec<u8>,
    words: &[String],
    texts: &[Vec<u8>],
) -> Result<(), AllocError> {
    let calls = calls_of(texts);
    let told = reads_are_told(rt, alloc, words, texts, calls)?;
    let line = format!(in alloc; "reads {calls} {told}\n")?;
    report.extend_from_slice(line.as_bytes())
}

// Adds how many bytes of the output there are, and whether each fault of a write is told.
fn add_writes<R: Threads + Sync>(
    rt: &R,
    alloc: Global,
    report: &mut Vec<u8>,
    words: &[String],
    texts: &[Vec<u8>],
    whole: &[u8],
) -> Result<(), AllocError> {
    let count = whole.len();
    let told = writes_are_told(rt, alloc, words, texts, whole)?;
    let line = format!(in alloc; "writes {count} {told}\n")?;
    report.extend_from_slice(line.as_bytes())
}

// Adds what is told of the writes of a case, of the ends of its texts, and of those of a certificate that it prints.
fn add_rest<R: Threads + Sync>(
    rt: &R,
    alloc: Global,
    report: &mut Vec<u8>,
    words: &[String],
    texts: &[Vec<u8>],
    whole: &[u8],
) -> Result<(), AllocError> {
    add_writes(rt, alloc, report, words, texts, whole)?;
    add_all_ends(rt, alloc, report, words, texts)?;
    if asks_to_solve(words) {
        add_certificate_ends(rt, alloc, report, texts, whole)?;
    }
    Ok(())
}

// Adds what is told of a case with these words and texts.
fn add_case<R: Threads + Sync>(
    rt: &R,
    alloc: Global,
    report: &mut Vec<u8>,
    words: &[String],
    texts: &[Vec<u8>],
) -> Result<(), AllocError> {
    add_reads(rt, alloc, report, words, texts)?;
    let ended = ended_failing(rt, alloc, words, texts, &[], &[])?;
    add_rest(rt, alloc, report, words, texts, ended.out.taken())
}

// What is told of a case: its words; how many calls of the shelf there are, how many bytes of the output, and whether each fault of these is
// told; and whether each text is refused that ends early or that has a byte behind its end.
fn told_case<R: Threads + Sync>(rt: &R, alloc: Global, case: &Case) -> Result<Vec<u8>, AllocError> {
    let mut report = heading_of(alloc, &case.words)?;
    let texts = texts_of(alloc, case)?;
    add_case(rt, alloc, &mut report, &case.words, &texts)?;
    Ok(report)
}

/// What is told of the cases of a file, each of which is done where nothing fails, and of notes that are not written whole.
pub(crate) fn each_report<R: Threads + Sync>(
    rt: &R,
    alloc: Global,
    file: &str,
) -> Result<Vec<u8>, AllocError> {
    let mut all = Vec::new(alloc);
    for case in cases_of(alloc, file)?.iter() {
        let told = told_case(rt, alloc, case)?;
        all.extend_from_slice(told.as_slice())?;
    }
    let notes = notes_are_told(rt, alloc)?;
    let line = format!(in alloc; "notes {notes}\n")?;
    all.extend_from_slice(line.as_bytes())?;
    Ok(all)
}
