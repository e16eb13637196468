// Three separate kinds of quantity, and what an access is made in and of. The source numbers each kind on its own, so none is ever
// taken for another.
ghost use Rattle.std.specs.Prelude.{◌≡◌};
ghost use Rattle.model.specs.Memory.{is_user};
ghost use Rattle.model.specs.Step.{mode_of};

// A virtual trust level. Level 0 is the least privileged. Code mostly compares the numbers: a comparison of the levels themselves takes a law of
// the derived order in the proof of each event, and reads no better.
#[derive(Clone, Copy, PartialEq, Eq, PartialOrd, Ord)]
pub struct Level(pub u64);

// The index of a virtual processor.
#[derive(Clone, Copy, PartialEq, Eq)]
pub struct Processor(pub u64);

// The number of a page of guest memory.
#[derive(Clone, Copy, PartialEq, Eq)]
pub struct Page(pub u64);

// What 01 takes for a field: levels and TPR classes up to 15, instructions of 1 to 15 bytes, vectors from 16 to 255.
pub const HIGHEST_LEVEL: u64 = 15;

pub const HIGHEST_CLASS: u64 = 15;

pub const LONGEST_INSTRUCTION: u64 = 15;

pub const FIRST_VECTOR: u64 = 16;

pub const LAST_VECTOR: u64 = 255;

// How many levels a machine has at most.
pub const LEVEL_COUNT: u64 = 4;

// The mode in which a level acts.
#[derive(Clone, Copy, PartialEq, Eq)]
pub enum Mode {
    Kernel,
    User,
}

// The mode of a number: 1 is user mode, any other kernel mode. It is no `From`, which would lose nothing.
pub fn mode_of(number: u64) -> Mode
    ensures { result ≡ mode_of number }
{
    if number == 1 {
        Mode::User
    } else {
        Mode::Kernel
    }
}

// Is it user mode?
pub fn is_user(mode: Mode) -> bool
    ensures { result ≡ is_user mode }
{
    matches!(mode, Mode::User)
}

// The kinds of access to a page.
#[derive(Clone, Copy, PartialEq, Eq)]
pub enum Access {
    Read,
    Write,
    Fetch,
}
