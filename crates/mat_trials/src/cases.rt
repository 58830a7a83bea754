//! Cases of the top call, and the file that they stand in.
//!
//! A line that begins with `>` begins a case, and its further words are those of the command line. The lines below it are the text
//! of the file `f`, those below a line that is `--` alone the text of the file `c`, and those below another such line the text of the file
//! `w`; where there are three texts and the command is `batch`, the second is that of the file `l` and the third that of the file `g`. A last
//! line of a text that is `<` alone is no part of it, and says that the line above it has no end. Where a second `>` stands behind the first,
//! only one answer is right, but for its lines `first`, `second` and `cut`, and all its other lines are told.

use std::alloc::{AllocError, Global};

/// A case: the words of a command line, and the texts of the files that it may name.
#[derive(Drop)]
pub(crate) struct Case {
    pub(crate) words: Vec<String>,
    /// The text of the file `f`.
    pub(crate) description: String,
    /// The text of the file `c`, if there is one.
    pub(crate) certificate: Option<String>,
    /// The text of the file `w`, if there is one.
    pub(crate) witness: Option<String>,
    /// Whether there is one right answer, but for what `first`, `second` and `cut` lines hold.
    pub(crate) is_fixed: bool,
}

// The words of a line.
fn words_of(alloc: Global, line: &str) -> Result<Vec<String>, AllocError> {
    let mut words = Vec::new(alloc);
    for word in line.split_whitespace() {
        words.push(String::from_str(alloc, word)?)?;
    }
    Ok(words)
}

// The text of these lines, of which the last has no end.
fn text_of(alloc: Global, lines: &str) -> Result<String, AllocError> {
    match lines.strip_suffix("\n<") {
        Some(text) => String::from_str(alloc, text),
        None => format!(in alloc; "{lines}\n"),
    }
}

// The text of the lines before the first that is `--` alone, and the lines behind that.
fn text_before<'a>(alloc: Global, lines: &'a str) -> Result<(String, Option<&'a str>), AllocError> {
    match lines.split_once("\n--\n") {
        Some((first, others)) => Ok((text_of(alloc, first)?, Some(others))),
        None => Ok((text_of(alloc, lines)?, None)),
    }
}

// The same where there are lines.
fn text_within<'a>(
    alloc: Global,
    lines: Option<&'a str>,
) -> Result<(Option<String>, Option<&'a str>), AllocError> {
    match lines {
        Some(lines) => {
            let (text, others) = text_before(alloc, lines)?;
            Ok((Some(text), others))
        }
        None => Ok((None, None)),
    }
}

// The case of these words and of the lines of its texts, of which the last has no end.
fn case_with(
    alloc: Global,
    words: Vec<String>,
    is_fixed: bool,
    lines: &str,
) -> Result<Case, AllocError> {
    let (description, others) = text_before(alloc, lines)?;
    let (certificate, others) = text_within(alloc, others)?;
    let (witness, _) = text_within(alloc, others)?;
    Ok(Case {
        words,
        description,
        certificate,
        witness,
        is_fixed,
    })
}

// The case of these lines, of which the first holds the words, and the last has no end.
fn case_of(alloc: Global, lines: &str) -> Result<Case, AllocError> {
    let is_fixed = lines.starts_with(">");
    let lines = lines.strip_prefix(">").unwrap_or(lines);
    match lines.split_once('\n') {
        Some((first, others)) => case_with(alloc, words_of(alloc, first)?, is_fixed, others),
        None => Ok(Case {
            words: words_of(alloc, lines)?,
            description: String::new(alloc),
            certificate: None,
            witness: None,
            is_fixed,
        }),
    }
}

/// The cases of a file that begins with one.
pub(crate) fn cases_of(alloc: Global, file: &str) -> Result<Vec<Case>, AllocError> {
    let mut cases = Vec::new(alloc);
    let lines = file.strip_suffix("\n").unwrap_or(file);
    let lines = lines.strip_prefix(">").unwrap_or(lines);
    for case in lines.split("\n>") {
        cases.push(case_of(alloc, case)?)?;
    }
    Ok(cases)
}
