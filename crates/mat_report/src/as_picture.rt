//! Right answers as pictures.

use crate::answer_text::AnswerText;
use mat_cert::Answer;
use mat_picture::picture;
use mat_problem::Named;
use mat_tell::told_text;
use std::alloc::{AllocError, Global};

/// Draws an answer as an SVG that needs no other file.
#[derive(Clone, Copy)]
pub struct AsPicture;

impl AnswerText for AsPicture {
    ghost use Rattle.mat_report.specs.Pictures.{is_picture};

    ghost says = { is_picture };

    fn text(&self, alloc: Global, named: &Named, answer: &Answer) -> Result<Vec<u8>, AllocError> {
        let told = told_text(alloc, named, answer)?;
        picture(alloc, named, answer, &told)
    }
}
