//! What a rule allows so many things to weigh or to cost at most or at least, counted from the sorted weights of a set.

ghost use Rattle.std.specs.Prelude.{◌≡◌, length, map, IfOk};
ghost use Rattle.mat_sets.specs.{Sets.{AllBelow}, Weights.{weight_at}};
ghost use Rattle.mat_text.specs.Paragraphs.{KeepsParagraphs};

use mat_sets::{ElemSet, Weight};
use mat_text::{Counted, Spelled, Text};
use std::alloc::{AllocError, Global};

/// The most sizes, shares and terms that are told in full.
pub const FEW: usize = 12;

/// Whether the greatest weight is wanted or the least cost.
#[derive(Clone, Copy)]
pub enum Aim {
    /// The greatest weight.
    Weight,
    /// The least cost.
    Cost,
}

impl Aim {
    /// The word for what is summed.
    pub(crate) fn word(self) -> &'static str {
        match self {
            Aim::Weight => "weight",
            Aim::Cost => "cost",
        }
    }

    /// What a thing does that has it.
    pub(crate) fn verb(self) -> &'static str {
        match self {
            Aim::Weight => "weighs",
            Aim::Cost => "costs",
        }
    }

    /// The word for a better sum.
    pub(crate) fn better(self) -> &'static str {
        match self {
            Aim::Weight => "more",
            Aim::Cost => "less",
        }
    }

    // On which side of a value a better one is.
    fn side(self) -> &'static str {
        match self {
            Aim::Weight => "above",
            Aim::Cost => "below",
        }
    }

    // The word for the best sum.
    fn best(self) -> &'static str {
        match self {
            Aim::Weight => "most",
            Aim::Cost => "least",
        }
    }
}

/// What is bounded: so many things, who allows them, what each has or does, and which sums are better.
#[derive(Clone, Copy)]
pub struct Bounded<'a> {
    /// The things.
    pub things: Counted,
    /// Who allows them, with the verb.
    pub who: &'a str,
    /// What each has or does, the verb.
    pub has: &'a str,
    /// Which sums are better.
    pub aim: Aim,
}

/// The weights of the members of a set, in its order. The only error is want of memory.
#[tactic(auto, using(mat_sets::proofs::Sums::summing))]
pub fn values_at(
    alloc: Global,
    weights: &[Weight],
    set: &ElemSet,
) -> Result<Vec<Weight>, AllocError>
    requires { AllBelow (length weights.now) set.now }
    ensures { IfOk result (λ values. values.items ≡ map (weight_at weights.now) set.now) }
{
    let mut values = Vec::new(alloc);
    for e in set.as_slice() {
        values.push(weights[*e as usize])?;
    }
    Ok(values)
}

// For each different one of the values, which are sorted with the best first: how many values are better than it.
fn steps(alloc: Global, bounded: &Bounded<'_>, values: &[Weight]) -> Result<String, AllocError> {
    let side = bounded.aim.side();
    let mut words = String::new(alloc);
    let mut last = None;
    for (i, value) in values.iter().enumerate() {
        if i == 0 {
            write!(words, "none {} {side} {}", bounded.has, Spelled(*value))?;
        } else if last != Some(*value) {
            write!(words, ", at most {i} {side} {}", Spelled(*value))?;
        }
        last = Some(*value);
    }
    Ok(words)
}

// The values with ` + ` between them, and behind two or more their sum.
fn terms(alloc: Global, values: &[Weight], sum: Weight) -> Result<String, AllocError> {
    let mut words = String::new(alloc);
    for (i, value) in values.iter().enumerate() {
        let plus = if i == 0 { "" } else { " + " };
        write!(words, "{plus}{}", Spelled(*value))?;
    }
    if values.len() > 1 {
        write!(words, " = {}", Spelled(sum))?;
    }
    Ok(words)
}

/// Tells that the things that are bounded come to no better sum than `sum`, which is the sum of these values, in any order. Of more than [`FEW`]
/// values only the sum is told. The only error is want of memory.
pub fn tell_bound(
    text: &mut Text,
    bounded: &Bounded<'_>,
    values: Vec<Weight>,
    sum: Weight,
) -> Result<(), AllocError>
    ensures { KeepsParagraphs text.old text.new }
{
    let Bounded {
        things,
        who,
        aim,
        ..
    } = *bounded;
    let best = aim.best();
    if values.len() > FEW {
        return text.detail(format_args!(
            "{things} that {who} come to at {best} {} together.",
            Spelled(sum)
        ));
    }
    let sorted = sorted(values, aim)?;
    let steps = steps(text.alloc(), bounded, &sorted)?;
    let terms = terms(text.alloc(), &sorted, sum)?;
    text.detail(format_args!("Of {things} that {who} {steps}: together at {best} {terms}."))
}

// The values, the best first.
fn sorted(values: Vec<Weight>, aim: Aim) -> Result<Vec<Weight>, AllocError> {
    let mut sorted = values;
    sorted.sort()?;
    if let Aim::Weight = aim {
        sorted.reverse();
    }
    Ok(sorted)
}
