// The state as text records (02, request 2): which quantities there are, what their records begin with, and in which order they stand. Their
// sequence, their text and what reading them gives are definitions in specs/; the crate `transfer` writes them, and `reader` reads them.
#![tactic(auto)]

pub mod head; // the word and the indices of a record
pub mod place; // the quantities of a state, in the order of their records
pub mod walk; // the place that is due after another
