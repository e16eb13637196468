// The state of a partition with its virtual processors and trust levels, typed and nested, as the definitions have it. Code keeps it as
// words that are lent (crates `processor`, `partition`, `state`). The words of the pages are lent too.
// What lies beyond the number of processors, the maximum level or the number of pages is no part of a state.
use crate::quantity::Level;
use crate::set::LevelSet;

// The first line of a script: what a fresh machine is made from. Its flags are numbers as given: `admissible` refuses any but 0 and 1.
#[derive(Clone, Copy)]
pub struct FirstLine {
    pub processors: u64,
    pub max_level: Level,
    pub pages: u64,
    pub dr6_shared: u64,
    pub host_mask: u64,
    // Whether SMEP is available; 0 where the line does not say.
    pub smep: u64,
}

// What a processor's record is read by: the maximum level, whether DR6 is shared by the levels, and whether SMEP is available to
// the guest.
#[derive(Clone, Copy)]
pub struct Shape {
    pub max_level: Level,
    pub dr6_shared: bool,
    pub smep: bool,
}

// What stays the same in a run.
#[derive(Clone, Copy)]
pub struct Setup {
    pub processors: u64,
    pub pages: u64,
    pub host_mask: u64,
    pub shape: Shape,
}

// The reasons for which a level is entered: a VTL call, and an interrupt or an intercept. No enum, since a state holds any number here, and
// `well_formed` refuses the others.
pub const BY_CALL: u64 = 1;

pub const BY_INTERRUPT: u64 = 2;

// The control record of a level above 0: why it was entered, from which level, and RAX and RCX at that time.
#[derive(Clone, Copy)]
pub struct Control {
    pub reason: u64,
    pub from: Level,
    pub rax: u64,
    pub rcx: u64,
}

// What a level above 0 asks to be told of the registers of lower levels (02, request 6): 001's intercept control word, and its masks for
// writes of CR0 and of CR4.
#[derive(Clone, Copy)]
pub struct Watch {
    pub intercepts: u64,
    pub cr0_mask: u64,
    pub cr4_mask: u64,
}

// What a processor holds of one level.
#[derive(Clone, Copy)]
pub struct Context {
    // Registers 0 to 12. The last, DR6, is in use only where it is not shared.
    pub registers: [u64; 13],
    pub tpr: u64,
    // Vector 64 i + j is pending where bit j of word i is set.
    pub pending: [u64; 4],
    // This level's configuration of each lower level: bit 0 MBEC, bit 1 TLB lock.
    pub secure: [u64; 4],
    pub control: Control,
    pub watch: Watch,
}

#[derive(Clone, Copy)]
pub struct VirtualProcessor {
    pub active: Level,
    // The levels that are enabled on the processor.
    pub enabled: LevelSet,
    // Registers 12 to 31. The first, DR6, is in use only where it is shared.
    pub shared: [u64; 20],
    pub contexts: [Context; 4],
}

// What the partition holds of its levels.
#[derive(Clone, Copy)]
pub struct Partition {
    // The levels that are enabled for the partition, and those that it has MBEC for.
    pub enabled: LevelSet,
    pub mbec: LevelSet,
    // The configuration word of each level. Level 0 has none.
    pub configs: [u64; 4],
    // The protection mask of level l for page p stands at 4 p + l.
    pub masks: [u64; 256],
}

#[derive(Clone, Copy)]
pub struct Machine {
    pub processors: u64,
    pub pages: u64,
    pub host_mask: u64,
    pub shape: Shape,
    pub partition: Partition,
    pub vps: [VirtualProcessor; 4],
}
