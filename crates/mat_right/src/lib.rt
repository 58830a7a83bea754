//! What a right answer is: definitions alone, on which judging, telling and drawing stand.
#![tactic(auto)]
