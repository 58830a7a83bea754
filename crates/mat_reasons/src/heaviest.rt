//! The heaviest set of a ladder, and the largest.

ghost use Rattle.std.specs.Prelude.{◌<◌, length};
ghost use Rattle.mat_text.specs.Paragraphs.{KeepsParagraphs};

use crate::steps::Step;
use mat_sets::ElemSet;
use mat_text::{Called, Noun, Spelled, Text, many};
use std::alloc::AllocError;

/// The elements of a problem: what they are, and how a set of them is shown.
pub trait Things {
    /// What they are.
    fn noun(&self) -> Noun;

    /// Shows a set of them. The only error is want of memory.
    fn show(&self, text: &mut Text, set: &ElemSet) -> Result<(), AllocError>
        ensures { KeepsParagraphs text.old text.new };
}

/// Elements of matroids. A set of them is shown as a row of names.
#[derive(Clone, Copy)]
pub struct Elements<'a>(pub Called<'a>);

impl Things for Elements<'_> {
    fn noun(&self) -> Noun {
        Noun::Element
    }

    fn show(&self, text: &mut Text, set: &ElemSet) -> Result<(), AllocError> {
        let names = self.0.elements_of(text.alloc(), set)?;
        text.detail(names)
    }
}

// Tells a step of this size and shows its set.
fn tell_step<T: Things>(
    text: &mut Text,
    things: &T,
    title: &str,
    k: usize,
    step: &Step<'_>,
) -> Result<(), AllocError>
    ensures { KeepsParagraphs text.old text.new }
{
    let size = many(k, things.noun());
    text.say(format_args!("{title}: {size}, weight {}.", Spelled(step.weight)))?;
    things.show(text, step.set)
}

/// Tells the heaviest step, and the largest where that is another. The only error is want of memory.
pub fn tell_top<T: Things>(
    text: &mut Text,
    things: &T,
    steps: &[Step<'_>],
    best: usize,
) -> Result<(), AllocError>
    requires { best < length steps.now }
    ensures { KeepsParagraphs text.old text.new }
{
    tell_step(text, things, "BEST", best, &steps[best])?;
    let last = steps.len() - 1;
    if last == best {
        return text.say("No larger set is allowed.");
    }
    tell_step(text, things, "LARGEST", last, &steps[last])
}
