//! What a store is: how the pairs of a finite map lie in the pages of a flat memory, and how many
//! frames that may take. The crate has no code.
#![tactic(auto)]
