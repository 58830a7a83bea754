//! The clauses of unions, packings and coverings, and what is asked of sets and of families of sets.

pub(crate) mod coverings;
pub(crate) mod exchanges;
pub(crate) mod families;
mod levels;
pub(crate) mod packings;
pub(crate) mod searches;
pub(crate) mod unions;
