// The bench model's types: what a machine is made of, what can happen to it, and what is answered.
// Every rule about them is a definition in specs/; the code that obeys it stands in the crates above this one.
#![tactic(auto)]

pub mod answer; // what an event is answered
pub mod event; // the twenty-one events
pub mod machine; // the state
pub mod quantity; // level, processor index, page number, mode and kind of access
pub mod register; // the registers that a rule names
pub mod set; // sets of levels as numbers
pub mod watched; // a row of the table of watched registers
