//! Texts of sentences: paragraphs, which are filled to lines at the end, and what sentences are made of: names, numbers of things, weights,
//! edges with their ends, groups and parts.
#![tactic(auto)]

mod called;
mod ends;
mod filling;
mod groups;
mod nouns;
mod parts;
mod shared;
mod spelled;
mod text;

pub use called::{Called, Name, numbers_of};
pub use ends::{Ends, tell_found, tell_none, tell_numbered};
pub use groups::tell_groups;
pub use nouns::{Counted, Noun, many};
pub use parts::{is_in_some, outside, tell_left, tell_parts};
pub use shared::{Side, own_part, shared_part};
pub use spelled::Spelled;
pub use text::{Paragraph, Text};
