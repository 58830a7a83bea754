//! Reasons in words that several forms of answer share: what a rule allows at most, weights that are split into shares, the steps of a
//! ladder, and why no larger set is allowed. Each can be checked by counting. With them stands what words and pictures both count: rows and
//! columns, edges between classes, arcs into a set, and groups of vertices.
#![tactic(auto)]

mod between;
mod bounds;
mod components;
mod cuts;
mod heaviest;
mod ladder;
mod limits;
mod naming;
mod rooms;
mod rules;
mod shares;
mod sizes;
mod steps;
mod table_lines;

pub use between::{crossing, entering};
pub use bounds::{Aim, Bounded, FEW, tell_bound, values_at};
pub use components::left_groups;
pub use cuts::{Largest, tell_cut};
pub use heaviest::{Elements, Things, tell_top};
pub use ladder::tell_ladder;
pub use limits::state_rule;
pub use naming::Wording;
pub use rooms::{Phrases, Roomy, room};
pub use shares::{Claim, Shares, have_tie, tell_shares, tell_ties};
pub use sizes::tell_sizes;
pub use steps::{Step, best_of, plain_steps};
pub use table_lines::{columns_inside, rows_outside};
