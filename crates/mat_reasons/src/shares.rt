//! Weights that are split into two shares, one for each of two rules, and why a set has the greatest weight or the least cost of its size.

ghost use Rattle.std.specs.{Prelude.{◌≡◌, false, length}, List.{list_any}};
ghost use Rattle.mat_sets.specs.Sets.{AllBelow};
ghost use Rattle.mat_reasons.specs.Sums.{has_tie, AreSummable};
ghost use Rattle.mat_text.specs.Paragraphs.{KeepsParagraphs};

use crate::bounds::{Aim, Bounded, FEW, tell_bound, values_at};
use mat_sets::{ElemSet, Weight, weigh};
use mat_text::{Called, Counted, Noun, Spelled, Text, many};
use std::alloc::AllocError;

/// The weight or the cost of each element, and its two shares.
#[derive(Clone, Copy)]
pub struct Shares<'a> {
    /// The weight or the cost of each element.
    pub given: &'a [Weight],
    /// The share for the first rule.
    pub first: &'a [Weight],
    /// The share for the second rule.
    pub second: &'a [Weight],
}

// How many of the weights are not 0.
fn count_of(weights: &[Weight]) -> usize {
    let mut count: usize = 0;
    for weight in weights {
        if *weight != Weight::ZERO {
            count = count.saturating_add(1);
        }
    }
    count
}

// Whether one of the weights is not 0.
fn are_some(weights: &[Weight]) -> bool {
    for weight in weights {
        if *weight != Weight::ZERO {
            return true;
        }
    }
    false
}

/// Whether each of two lists has a weight that is not 0.
pub(crate) fn are_split(first: &[Weight], second: &[Weight]) -> bool {
    are_some(first) && are_some(second)
}

/// What is known of a set: that it has the best sum of all sets of as many things that both rules allow.
#[derive(Clone, Copy)]
pub struct Claim<'a> {
    /// The set.
    pub set: &'a ElemSet,
    /// The sum of its weights or costs.
    pub sum: Weight,
    /// How many things it has.
    pub things: Counted,
    /// Which sums are better.
    pub aim: Aim,
}

// Tells the shares of an element.
fn tell_division(
    text: &mut Text,
    called: &Called<'_>,
    shares: &Shares<'_>,
    e: usize,
) -> Result<(), AllocError>
    ensures { KeepsParagraphs text.old text.new }
{
    let (Some(given), Some(first), Some(second)) = (
        shares.given.get(e),
        shares.first.get(e),
        shares.second.get(e),
    ) else {
        return Ok(());
    };
    text.item(format_args!(
        "{}: {} = {} + {}",
        called.element(e),
        Spelled(*given),
        Spelled(*first),
        Spelled(*second)
    ))
}

// Tells the shares of the first few elements that have one in this list.
fn tell_divisions(
    text: &mut Text,
    called: &Called<'_>,
    shares: &Shares<'_>,
    with: &[Weight],
) -> Result<(), AllocError>
    ensures { KeepsParagraphs text.old text.new }
{
    let mut told: usize = 0;
    for (e, share) in with.iter().enumerate() {
        if *share != Weight::ZERO && told < FEW {
            tell_division(text, called, shares, e)?;
            told += 1;
        }
    }
    Ok(())
}

// Tells that the rule of this number has the whole weight of each element, except of those elements that have a share in `other`, the list of the
// other rule; and tells both shares of the first few of these.
fn tell_divided(
    text: &mut Text,
    called: &Called<'_>,
    shares: &Shares<'_>,
    aim: Aim,
    rule: u32,
    other: &[Weight],
) -> Result<(), AllocError>
    ensures { KeepsParagraphs text.old text.new }
{
    text.detail(format_args!(
        "Each {} is split into two shares, one for each rule. All of it is for rule {rule}, but of these:",
        aim.word()
    ))?;
    tell_divisions(text, called, shares, other)?;
    let count = count_of(other);
    if count <= FEW {
        return Ok(());
    }
    text.item(format_args!(
        ".. and {}, for which see the certificate",
        many(count - FEW, Noun::Other)
    ))
}

// Tells how the weights are split, by the elements that have a share for one of the rules: the rule for which these are fewer.
fn tell_split(
    text: &mut Text,
    called: &Called<'_>,
    shares: &Shares<'_>,
    aim: Aim,
) -> Result<(), AllocError>
    ensures { KeepsParagraphs text.old text.new }
{
    if count_of(shares.second) <= count_of(shares.first) {
        tell_divided(text, called, shares, aim, 1, shares.second)
    } else {
        tell_divided(text, called, shares, aim, 2, shares.first)
    }
}

// Tells that as many things as the claim has come to no better sum of these weights than `sum`, where the rule of this number allows them. `has`
// is the verb for what one thing has of the weights.
fn tell_rule(
    text: &mut Text,
    rule: u32,
    has: &str,
    weights: &[Weight],
    claim: &Claim<'_>,
    sum: Weight,
) -> Result<(), AllocError>
    requires { AllBelow (length weights.now) claim.now.set.now }
    ensures { KeepsParagraphs text.old text.new }
{
    let who = format!(in text.alloc(); "rule {rule} allows")?;
    let bounded = Bounded {
        things: claim.things,
        who: &who,
        has,
        aim: claim.aim,
    };
    let values = values_at(text.alloc(), weights, claim.set)?;
    tell_bound(text, &bounded, values, sum)
}

// Tells that one rule alone shows the claim.
fn tell_alone(text: &mut Text, shares: &Shares<'_>, claim: &Claim<'_>) -> Result<(), AllocError>
    requires { AllBelow (length shares.now.given.now) claim.now.set.now }
    ensures { KeepsParagraphs text.old text.new }
{
    let rule = if are_some(shares.second) { 2 } else { 1 };
    text.detail(format_args!("Rule {rule} alone shows it."))?;
    tell_rule(text, rule, claim.aim.verb(), shares.given, claim, claim.sum)
}

// Tells what both rules allow of their shares.
fn tell_both(text: &mut Text, shares: &Shares<'_>, claim: &Claim<'_>) -> Result<(), AllocError>
    requires first { AreSummable shares.now.first.now claim.now.set.now }
    requires second { AreSummable shares.now.second.now claim.now.set.now }
    ensures { KeepsParagraphs text.old text.new }
{
    let first = weigh(claim.set, shares.first);
    let second = weigh(claim.set, shares.second);
    tell_rule(text, 1, "has a share", shares.first, claim, first)?;
    tell_rule(text, 2, "has a share", shares.second, claim, second)?;
    text.detail(format_args!(
        "So both rules allow {} no {} than {} + {} = {}.",
        claim.things,
        claim.aim.better(),
        Spelled(first),
        Spelled(second),
        Spelled(claim.sum)
    ))
}

/// Tells why a set has the best sum: each rule bounds its own shares. The only error is want of memory.
pub fn tell_shares(
    text: &mut Text,
    called: &Called<'_>,
    shares: &Shares<'_>,
    claim: &Claim<'_>,
) -> Result<(), AllocError>
    requires given { AllBelow (length shares.now.given.now) claim.now.set.now }
    requires first { AreSummable shares.now.first.now claim.now.set.now }
    requires second { AreSummable shares.now.second.now claim.now.set.now }
    ensures { KeepsParagraphs text.old text.new }
{
    if !are_split(shares.first, shares.second) {
        return tell_alone(text, shares, claim);
    }
    tell_split(text, called, shares, claim.aim)?;
    tell_both(text, shares, claim)
}

/// Whether one of the weights has a tie.
pub fn have_tie(weights: &[Weight]) -> bool
    ensures { result ≡ list_any has_tie weights.now }
{
    for i in 0..weights.len() {
        if weights[i].tie != 0 {
            return true;
        }
    }
    false
}

/// Tells how weights are compared, where one that is told has a tie. The only error is want of memory.
pub fn tell_ties(text: &mut Text, some: bool) -> Result<(), AllocError>
    ensures unchanged { some ≡ false → text.new.paragraphs.items ≡ text.old.paragraphs.items }
    ensures kept { KeepsParagraphs text.old text.new }
{
    if some {
        text.say("In A:B the number A counts, and B decides only where the As are equal.")?;
    }
    Ok(())
}
