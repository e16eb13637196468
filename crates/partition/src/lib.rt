// What the partition holds: the levels' records and the page masks, and the access decision that is made from them.
// No function here has a precondition: each gives what its contract says for every argument. The masks are read and changed
// where they lie; of the rest a function is given the parts that it reads.
#![tactic(auto)]

pub mod access; // which levels deny an access, and which receives the intercept
pub mod config; // the configuration words
pub mod formed; // well-formed levels
pub mod level; // the levels' records
pub mod mask; // protection masks
