// The machine in words that a caller owns: its parts copied out of them, and back (specs/MachineWords.antt says which word is which).
ghost use Rattle.std.specs.Prelude.{◌++◌, ◌≡◌, ◌+◌, ◌≤◌, length};
ghost use Rattle.std.proofs.lemmas.List.Edits.{sets};
ghost use Rattle.lockstep.specs.MachineWords.{PartSizes, flat, lent_words, level_count, levels_at, machine_words};
ghost use Rattle.lockstep.specs.MachineWords.{mask_count, masks_at, processors_in, records_in, setup_in, words_at};
ghost use Rattle.lockstep.specs.LockstepParts.{setup_said};
ghost use Rattle.processor.specs.Record.{part, record_words};

use model::machine::{FirstLine, Setup, Shape};
use model::quantity::Level;
use partition::level::Levels;
use partition::mask::Masks;
use processor::record::{RECORD_WORDS, Record};
use script::storing::store;
use state::parts::Parts;

// The words of the setup.
const PROCESSORS: usize = 0;

const MAXIMUM: usize = 1;

const PAGES: usize = 2;

const DR6_SHARED: usize = 3;

const HOST_MASK: usize = 4;

const SMEP: usize = 5;

// Where the parts begin.
const LEVELS: usize = 6;

const MASKS: usize = 12;

const FIRST_RECORD: usize = 268;

const SECOND_RECORD: usize = FIRST_RECORD + RECORD_WORDS;

const THIRD_RECORD: usize = SECOND_RECORD + RECORD_WORDS;

const FOURTH_RECORD: usize = THIRD_RECORD + RECORD_WORDS;

pub(crate) const WORDS: usize = FOURTH_RECORD + RECORD_WORDS;

// How many words a machine takes, with those of 64 pages.
pub(crate) const MACHINE_WORDS: usize = 884;

const MOST_PAGES: u64 = 64;

// Stores words into others from a place on.
pub(crate) fn store_words(to: &mut [u64], at: usize, from: &[u64])
    requires { at + length from.now ≤ length to.old }
    ensures { to.new ≡ sets to.old at from.now }
{
    store(to, at, from);
}

// Stores what a first line says of the setup.
pub(crate) fn store_setup(machine: &mut [u64], first: FirstLine)
    requires { machine_words ≤ length machine.old }
    ensures { machine.new ≡ sets machine.old 0 (setup_said first) }
{
    let said = [
        first.processors,
        first.max_level.0,
        first.pages,
        first.dr6_shared,
        first.host_mask,
        first.smep,
    ];
    store_words(machine, 0, &said);
}

// The number of processors. A flag that is neither 0 nor 1 makes a machine without any.
fn processors_in(machine: &[u64]) -> u64
    requires { machine_words ≤ length machine.now }
    ensures { result ≡ processors_in machine.now }
{
    if (machine[DR6_SHARED] <= 1) & (machine[SMEP] <= 1) {
        return machine[PROCESSORS];
    }
    0
}

// The setup.
pub(crate) fn setup_in(machine: &[u64]) -> Setup
    requires { machine_words ≤ length machine.now }
    ensures { result ≡ setup_in machine.now }
{
    let shape = Shape {
        max_level: Level(machine[MAXIMUM]),
        dr6_shared: machine[DR6_SHARED] == 1,
        smep: machine[SMEP] == 1,
    };
    Setup {
        processors: processors_in(machine),
        pages: machine[PAGES],
        host_mask: machine[HOST_MASK],
        shape,
    }
}

// The place after the words of the pages that are lent.
pub(crate) fn words_end(machine: &[u64]) -> usize
    requires { machine_words ≤ length machine.now }
    ensures { result ≡ words_at + lent_words machine.now }
{
    let pages = machine[PAGES];
    if MOST_PAGES <= pages {
        return MACHINE_WORDS;
    }
    WORDS + pages as usize
}

// What the words hold of the levels, of the masks, and of a processor at a place.
fn levels_in(machine: &[u64]) -> Levels
    requires { machine_words ≤ length machine.now }
    ensures { result ≡ part levels_at level_count machine.now }
{
    let mut levels = [0u64; 6];
    levels.copy_from_slice(&machine[LEVELS..MASKS]);
    levels
}

fn masks_in(machine: &[u64]) -> Masks
    requires { machine_words ≤ length machine.now }
    ensures { result ≡ part masks_at mask_count machine.now }
{
    let mut masks = [0u64; 256];
    masks.copy_from_slice(&machine[MASKS..FIRST_RECORD]);
    masks
}

fn record_in(machine: &[u64], place: usize) -> Record
    requires { place + record_words ≤ length machine.now }
    ensures { result ≡ part place record_words machine.now }
{
    let mut record = [0u64; RECORD_WORDS];
    record.copy_from_slice(&machine[place..place + RECORD_WORDS]);
    record
}

// The records of the four processors.
fn records_in(machine: &[u64]) -> [Record; 4]
    requires { machine_words ≤ length machine.now }
    ensures { result ≡ records_in machine.now }
{
    [
        record_in(machine, FIRST_RECORD),
        record_in(machine, SECOND_RECORD),
        record_in(machine, THIRD_RECORD),
        record_in(machine, FOURTH_RECORD),
    ]
}

// What they hold of all three.
pub(crate) fn parts_in(machine: &[u64]) -> Parts
    requires { machine_words ≤ length machine.now }
    ensures levels { result.levels ≡ part levels_at level_count machine.now }
    ensures masks { result.masks ≡ part masks_at mask_count machine.now }
    ensures records { result.vps ≡ records_in machine.now }
{
    Parts {
        levels: levels_in(machine),
        masks: masks_in(machine),
        vps: records_in(machine),
    }
}

// Stores the parts that a step may change, but for the words of the pages. A proof asks how long they are.
pub(crate) fn store_parts(machine: &mut [u64], parts: &Parts)
    requires { machine_words ≤ length machine.old }
    ensures stored { machine.new ≡ sets machine.old levels_at
        (parts.now.levels ++ parts.now.masks ++ flat parts.now.vps) }
    ensures sizes { PartSizes parts.now.levels parts.now.masks parts.now.vps }
{
    let Parts { levels, masks, vps } = parts;
    store_words(machine, LEVELS, levels);
    store_words(machine, MASKS, masks);
    store_words(machine, FIRST_RECORD, &vps[0]);
    store_words(machine, SECOND_RECORD, &vps[1]);
    store_words(machine, THIRD_RECORD, &vps[2]);
    store_words(machine, FOURTH_RECORD, &vps[3]);
}
