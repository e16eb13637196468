// One virtual processor's record, lent in words and changed in place: the code of the definitions of crate `model` that read or
// change a processor (01, "The bench model" and "Events"). Each function has the meaning of the definition that its contract
// names and asks nothing of its caller: a level, a register or a vector is any number. Beyond the maximum level M nothing is
// read and nothing is stored.
#![tactic(auto)]

pub mod record; // the words of a record
pub mod record_registers; // private and shared registers
pub mod interrupt; // vectors, pending and ready
pub mod secure; // secure configuration of lower levels
pub mod watch; // what a level asks to be told of registers
pub mod control; // control records, and the start of a level
