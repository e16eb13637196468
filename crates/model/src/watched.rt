// A row of the table that ties each named bit of the intercept control word to a register (02, request 6).
use word::field::FieldPosition;

#[derive(Clone, Copy)]
pub struct WatchedAccess {
    // The bit, and the register that it watches: NOT_MODELLED where we have no such register.
    pub position: FieldPosition,
    pub register: u64,
    // Whether the bit is for writes of the register, or for reads.
    pub write: bool,
}

// No register of ours has this number, which `watch_table` of specs/Watching.antt has for it: so it is no `Option`. A bit with it is stored only.
pub const NOT_MODELLED: u64 = 32;
