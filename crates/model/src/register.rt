// The registers that a rule names, by their numbers (01, "The bench model"), and the bits of them that a rule reads.
pub const RIP: u64 = 0;

pub const RSP: u64 = 1;

pub const RFLAGS: u64 = 2;

pub const CR0: u64 = 3;

pub const CR4: u64 = 5;

pub const EFER: u64 = 7;

pub const STAR: u64 = 8;

pub const LSTAR: u64 = 9;

pub const CSTAR: u64 = 10;

pub const SFMASK: u64 = 11;

pub const DR6: u64 = 12;

pub const RAX: u64 = 13;

pub const RCX: u64 = 14;

pub const XCR0: u64 = 29;

// Registers end at the high half of XMM0.
pub const LAST_REGISTER: u64 = 31;

// CR0: clear in real mode.
pub const PROTECTED_BIT: u32 = 0;

// CR4: SMEP is on.
pub const SMEP_BIT: u32 = 20;

// RFLAGS: IF, interrupts are taken.
pub const INTERRUPT_BIT: u32 = 9;
