//! What can be said of a problem and an answer to it, one fact a sentence, and laws that say which facts suffice for the answer to be best. A
//! reason is a list of facts that hold and suffice. The laws speak of facts alone: who has counted them needs no certificate. Where there is a
//! right answer, the facts of its reason are counted from it.
#![tactic(auto)]

mod costs;
mod fact;
mod fronts;
mod graphs;
mod ladders;
mod laws;
mod reasons;
mod sets;
mod sizes;
mod terms;
mod told;
mod unions;

pub use fact::Fact;
pub use laws::{
    facts_bound_a_size, facts_bound_all_weights, facts_bound_reaching_sets,
    facts_exclude_larger_sets, facts_exclude_rainbow_trees, facts_suffice,
    right_answers_give_reasons, told_reasons_suffice,
};
pub use reasons::reasons_for;
pub use told::ToldSizes;
