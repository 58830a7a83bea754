//! Problems that are made from a number.

use mat_desc::write_problem;
use mat_gen::{SampleKind, sample};
use std::alloc::{AllocError, Global};

// The kinds, each with its name.
const KINDS: [(SampleKind, &str); 5] = [
    (SampleKind::Pair, "pair"),
    (SampleKind::List, "list"),
    (SampleKind::Graph, "graph"),
    (SampleKind::Rooted, "rooted"),
    (SampleKind::Table, "table"),
];

// The description of a problem of six elements.
fn sample_text(alloc: Global, kind: SampleKind) -> Result<Vec<u8>, AllocError> {
    let problem = sample(alloc, kind, 6, 7)?;
    let text = write_problem(alloc, &problem);
    drop(problem);
    text
}

/// A problem of each kind that is made from a number.
pub(crate) fn samples_report(alloc: Global) -> Result<Vec<u8>, AllocError> {
    let mut report = Vec::new(alloc);
    for (kind, name) in KINDS.iter() {
        let heading = format!(in alloc; "sample {name} 6 7\n")?;
        report.extend_from_slice(heading.as_bytes())?;
        let text = sample_text(alloc, *kind)?;
        report.extend_from_slice(text.as_slice())?;
    }
    Ok(report)
}
