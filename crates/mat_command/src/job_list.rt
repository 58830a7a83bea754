//! Lists of jobs.

ghost use Rattle.std.specs.{Prelude.{◌≡◌, ◌≤◌, Ok, map, take, length, string_bytes, option_map, IfOk, IfErr, IsTrue}, List.{list_all}};
ghost use Rattle.mat_words.specs.{Cursors.{lines_left, words_left}, Words.{is_word}};
ghost use Rattle.mat_command.specs.{
  JobLists.{is_head, is_end, job_of_command, job_of_line, most_jobs, jobs_at, jobs_of},
  JobLines.{Gives, HasNoJobs, kept_words, words_at, head_at, job_at},
  Views.{job_of},
};
ghost use Rattle.mat_desc.specs.Limits.{description_limit};

use crate::command::{Command, Request};
use crate::command_words::{begins_with_option, command_for};
use crate::job::Job;
use crate::refusal::ListRefusal;
use mat_words::{LineCursor, Refusal, WordCursor, nothing_left, split_word, words_line};
use std::alloc::{AllocError, Global};

// How many words of a line are kept: one more than `job` and any command with its arguments.
const KEPT_WORDS: u32 = 7;

// The most jobs of a list.
const MOST_JOBS: u32 = 32;

// A word as text.
fn word_text(word: &[u8]) -> &str
    requires { IsTrue (is_word word.now) }
    ensures { result.now ≡ word.now }
{
    match str::from_utf8(word) {
        Ok(text) => text,
        Err(_) => unreachable!(),
    }
}

// The first words that are left of a line.
fn first_words(alloc: Global, words: WordCursor<'_>) -> Result<Vec<String>, AllocError>
    requires { IsTrue (list_all is_word (words_left words).words) }
    ensures { IfOk result (λ v. map string_bytes v.items ≡ take kept_words (words_left words.entry).words) }
{
    let mut texts = Vec::new(alloc);
    let mut left = words.left;
    for _ in 0..KEPT_WORDS {
        let Some(bytes) = left else {
            return Ok(texts);
        };
        let (word, behind) = split_word(bytes);
        texts.push(word_text(word).to_string(alloc)?)?;
        left = behind;
    }
    Ok(texts)
}

// The first words of the next line, and the lines behind it.
#[tactic(auto, unfolding(crate::specs::JobLines::words_at))]
fn next_words<'a>(
    alloc: Global,
    lines: LineCursor<'a>,
) -> Result<(Vec<String>, LineCursor<'a>), ListRefusal>
    ensures { Gives (λ x. (map string_bytes x.0.items, lines_left x.1)) result (words_at (lines_left lines.entry)) }
{
    match words_line(lines) {
        Ok((words, behind)) => Ok((first_words(alloc, words)?, behind)),
        Err(Refusal::Memory) => Err(ListRefusal::Memory),
        Err(Refusal::Fault { .. }) => Err(ListRefusal::Line(lines.line)),
    }
}

// Whether the words of a line are `jobs 1`, the head of a list.
fn is_head(words: &[String]) -> bool
    ensures { result ≡ is_head (map string_bytes words.now) }
{
    match words {
        [word, version] => word.as_str() == "jobs" && version.as_str() == "1",
        _ => false,
    }
}

// Whether the words of a line are the one word `end`, the last line of a list.
fn is_end(words: &[String]) -> bool
    ensures { result ≡ is_end (map string_bytes words.now) }
{
    match words {
        [word] => word.as_str() == "end",
        _ => false,
    }
}

// The job that the words of a solving command say: None where they say none.
fn job_of_command(alloc: Global, words: &[String]) -> Result<Option<Job>, AllocError>
    ensures { IfOk result (λ job. option_map job_of job ≡ job_of_command (map string_bytes words.now)) }
{
    let [command, arguments @ ..] = words else {
        return Ok(None);
    };
    if begins_with_option(arguments) {
        return Ok(None);
    }
    match command_for(command.as_str(), arguments) {
        Some(
            Command::About {
                file,
                request: Request::Solve(query),
            },
        ) => {
            let file = file.to_string(alloc)?;
            Ok(Some(Job { query, file }))
        }
        _ => Ok(None),
    }
}

// The job that the words of a line say: None where they say none.
fn job_of_line(alloc: Global, words: &[String]) -> Result<Option<Job>, AllocError>
    ensures { IfOk result (λ job. option_map job_of job ≡ job_of_line (map string_bytes words.now)) }
{
    let [keyword, words @ ..] = words else {
        return Ok(None);
    };
    if keyword.as_str() == "job" {
        job_of_command(alloc, words)
    } else {
        Ok(None)
    }
}

// The lines behind the head of a list.
#[tactic(auto, unfolding(crate::specs::JobLines::head_at))]
fn head_line<'a>(alloc: Global, lines: LineCursor<'a>) -> Result<LineCursor<'a>, ListRefusal>
    ensures { Gives lines_left result (head_at (lines_left lines.entry)) }
{
    let line = lines.line;
    let (words, behind) = next_words(alloc, lines)?;
    if is_head(words.as_slice()) {
        Ok(behind)
    } else {
        Err(ListRefusal::Line(line))
    }
}

// The job on the next line, with the lines behind it: None where the line is the last of a list.
#[tactic(auto, unfolding(crate::specs::JobLines::job_at))]
fn next_job<'a>(
    alloc: Global,
    lines: LineCursor<'a>,
) -> Result<Option<(Job, LineCursor<'a>)>, ListRefusal>
    ensures { Gives (option_map (λ x. (job_of x.0, lines_left x.1))) result (job_at (lines_left lines.entry)) }
{
    let line = lines.line;
    let (words, behind) = next_words(alloc, lines)?;
    if is_end(words.as_slice()) {
        if nothing_left(behind) {
            return Ok(None);
        }
        return Err(ListRefusal::Line(behind.line));
    }
    match job_of_line(alloc, words.as_slice())? {
        Some(job) => Ok(Some((job, behind))),
        None => Err(ListRefusal::Line(line)),
    }
}

// The jobs on the lines that are left of a list.
fn job_lines(alloc: Global, lines: LineCursor<'_>) -> Result<Vec<Job>, ListRefusal>
    ensures jobs { Gives (λ v. map job_of v.items) result (jobs_at most_jobs (lines_left lines.entry)) }
    ensures few { IfOk result (λ v. length v.items ≤ most_jobs) }
{
    let mut jobs = Vec::new(alloc);
    let mut left = lines;
    for _ in 0..MOST_JOBS {
        let Some((job, behind)) = next_job(alloc, left)? else {
            return Ok(jobs);
        };
        let Ok(()) = jobs.push(job) else {
            return Err(ListRefusal::Memory);
        };
        left = behind;
    }
    match next_job(alloc, left)? {
        Some(_) => Err(ListRefusal::Line(left.line)),
        None => Ok(jobs),
    }
}

/// The jobs of a list of at most 4,194,304 bytes. `Line` comes exactly where the bytes are no list of at most 32 jobs, with the number,
/// counted from 1, of the first line that is not the needed one. `Memory` is want of memory.
pub fn read_jobs(alloc: Global, bytes: &[u8]) -> Result<Vec<Job>, ListRefusal>
    requires within { length bytes.now ≤ description_limit }
    ensures jobs { IfOk result (λ v. jobs_of bytes.now ≡ Ok (map job_of v.items)) }
    ensures few { IfOk result (λ v. length v.items ≤ most_jobs) }
    ensures refusal { IfErr result (λ e. HasNoJobs bytes.now e) }
{
    let start = LineCursor {
        line: 1,
        text: bytes,
    };
    let lines = head_line(alloc, start)?;
    job_lines(alloc, lines)
}
