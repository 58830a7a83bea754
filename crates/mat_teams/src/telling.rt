//! Teams as text, by the lines that certificates have for sets and splits.

ghost use Rattle.std.specs.Prelude.{◌≤◌, length};
ghost use Rattle.mat_sets.specs.{Limits.{most_elements, largest_weight}, Sets.{IsSet}, Weights.{AreWeightsWithin}};
ghost use Rattle.mat_teams.specs.Teams.{AreTeams, AreTeamsOfRungs};

use mat_sets::{ElemSet, SetList, Weight, weigh};
use mat_split::{Ladder, Rung};
use mat_words::{put_members_line, put_number_word, put_weight_word, put_weights_line};
use std::alloc::AllocError;

// Appends the size and the weight of a team, and its members.
fn put_team(out: &mut Vec<u8>, team: &ElemSet, weights: &[Weight]) -> Result<(), AllocError>
    requires team { IsSet (length weights.now) team.now }
    requires few { length weights.now ≤ most_elements }
    requires small { AreWeightsWithin largest_weight weights.now }
{
    let weight = weigh(team, weights);
    out.extend_from_slice(b"rung")?;
    put_number_word(out, team.len() as i128)?;
    put_weight_word(out, weight)?;
    out.push(b'\n')?;
    put_members_line(out, b"set", team.as_slice())
}

// Appends a team, and the two parts of the weights, which prove that no team of its size is heavier.
fn put_rung(out: &mut Vec<u8>, rung: &Rung, weights: &[Weight]) -> Result<(), AllocError>
    requires team { IsSet (length weights.now) rung.now.set }
    requires few { length weights.now ≤ most_elements }
    requires small { AreWeightsWithin largest_weight weights.now }
{
    put_team(out, &rung.set, weights)?;
    put_weights_line(out, b"first", rung.first.as_slice())?;
    put_weights_line(out, b"second", rung.second.as_slice())
}

/// Appends the rungs of a ladder, and the set that proves that no team is larger.
pub(crate) fn put_ladder(
    out: &mut Vec<u8>,
    ladder: &Ladder,
    weights: &[Weight],
) -> Result<(), AllocError>
    requires teams { AreTeamsOfRungs (length weights.now) ladder.now.rungs.items }
    requires few { length weights.now ≤ most_elements }
    requires small { AreWeightsWithin largest_weight weights.now }
{
    for rung in &ladder.rungs {
        put_rung(out, rung, weights)?;
    }
    put_members_line(out, b"cut", ladder.cut.as_slice())
}

/// Appends teams.
pub(crate) fn put_teams(
    out: &mut Vec<u8>,
    teams: &SetList,
    weights: &[Weight],
) -> Result<(), AllocError>
    requires teams { AreTeams (length weights.now) teams.now }
    requires few { length weights.now ≤ most_elements }
    requires small { AreWeightsWithin largest_weight weights.now }
{
    for team in teams.as_slice() {
        put_team(out, team, weights)?;
    }
    Ok(())
}
