//! Right answers told in words.

use crate::answer_text::AnswerText;
use mat_cert::Answer;
use mat_problem::Named;
use mat_tell::told;
use std::alloc::{AllocError, Global};

/// Tells an answer in words, and why there is none better.
#[derive(Clone, Copy)]
pub struct InWords;

impl AnswerText for InWords {
    ghost use Rattle.mat_report.specs.TellsInWords.{tells_in_words};

    ghost says = { tells_in_words };

    fn text(&self, alloc: Global, named: &Named, answer: &Answer) -> Result<Vec<u8>, AllocError> {
        told(alloc, named, answer)
    }
}
