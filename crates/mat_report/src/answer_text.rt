//! What is written of a right answer.

ghost use Rattle.std.specs.Prelude.{ℕ, List, IfOk};
ghost use Rattle.mat_cert.specs.{Certificates.{Certificate, IsRanged}, Views.{certificate_of}};
ghost use Rattle.mat_problem.specs.{Validity.{IsValid}, Views.{instance_of}};
ghost use Rattle.mat_desc.specs.{Notations.{NamedInstance}, Views.{named_instance}};
ghost use Rattle.mat_right.specs.Right.{IsRight};

use mat_cert::Answer;
use mat_problem::Named;
use std::alloc::{AllocError, Global};

/// A way to write texts about right answers.
pub trait AnswerText {
    /// What is proved of the text that is written about a problem with its names and an answer to it.
    ghost says: { NamedInstance → Certificate → List ℕ → Type 0 };

    /// The text of a right answer. The only error is want of memory.
    fn text(&self, alloc: Global, named: &Named, answer: &Answer) -> Result<Vec<u8>, AllocError>
        requires valid { IsValid (instance_of named.now.problem) }
        requires ranged { IsRanged (certificate_of answer.now) }
        requires right { IsRight (instance_of named.now.problem) (certificate_of answer.now) }
        ensures { IfOk result (λ text. says (named_instance named.now) (certificate_of answer.now) text.items) };
}
