// The parts of the machine that a first line describes (01, "The bench model"), and what a first line may say. The law
// `fresh-machine` of proofs/FreshMachine.antt joins the parts to the machine.
ghost use Rattle.std.specs.Prelude.{◌≡◌, List, ℕ};
ghost use Rattle.model.specs.Fresh.{admissible, fresh_vp, fresh_partition};
ghost use Rattle.model.specs.Updates.{with_masks};
ghost use Rattle.partition.specs.PartitionView.{partition_of};
ghost use Rattle.processor.specs.Record.{vp_of};
ghost use Rattle.state.specs.Lent.{setup_of};

use crate::well_formed_state::in_range;
use model::machine::{FirstLine, Setup, Shape};
use partition::level::Levels;
use partition::mask::{ALL_RIGHTS, Masks, valid_mask};
use processor::record::{ENABLED, RECORD_WORDS, Record};

// The set of level 0 alone, and the set of no level.
const LEVEL_ZERO_ALONE: u64 = 1;

const NO_LEVELS: u64 = 0;

// The configuration word of a fresh machine: protections off, the default mask 15, and ZeroMemoryOnReset.
const FRESH_CONFIG: u64 = 62;

// Are all numbers of a first line in range, and is its host mask valid?
pub fn admissible(first: FirstLine) -> bool
    ensures { result ≡ admissible first }
{
    let sized = in_range(first.processors, first.max_level, first.pages);
    let mask = valid_mask(first.host_mask);
    sized & (first.dr6_shared <= 1) & mask & (first.smep <= 1)
}

// What a first line says that stays the same in a run.
pub fn setup_of(first: FirstLine) -> Setup
    ensures { result ≡ setup_of first }
{
    let max_level = first.max_level;
    let shape = Shape {
        max_level,
        dr6_shared: first.dr6_shared == 1,
        smep: first.smep == 1,
    };
    Setup {
        processors: first.processors,
        pages: first.pages,
        host_mask: first.host_mask,
        shape,
    }
}

// A fresh processor: all words 0, but the set of the enabled levels, which has level 0 alone.
pub fn fresh_record() -> Record
    ensures { vp_of result ≡ fresh_vp }
{
    let mut words = [0; RECORD_WORDS];
    words[ENABLED] = LEVEL_ZERO_ALONE;
    words
}

// What a fresh partition holds of the levels: level 0 alone is enabled, no level has MBEC, and each has the same word.
pub fn fresh_levels() -> Levels
    ensures { (masks : List ℕ) → partition_of result masks ≡ with_masks fresh_partition masks }
{
    [
        LEVEL_ZERO_ALONE,
        NO_LEVELS,
        FRESH_CONFIG,
        FRESH_CONFIG,
        FRESH_CONFIG,
        FRESH_CONFIG,
    ]
}

// The masks of all pages, with every right.
pub fn fresh_masks() -> Masks
    ensures { result ≡ fresh_partition.masks }
{
    [ALL_RIGHTS; 256]
}
