// The state of a machine in its lent parts (01, "The bench model" and "Well formed"): is it well formed, and the parts that a first
// line describes. The public functions ask nothing of their caller.
#![tactic(auto)]

pub mod fresh; // the machine of a first line
pub mod parts; // what a machine holds of levels, masks and processors
pub mod well_formed_state; // well-formed states
mod well_formed_vp; // well-formed processors
