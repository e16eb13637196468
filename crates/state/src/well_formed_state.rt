// Well-formed states (01, "Well formed"): the sizes, each place for a processor, the levels, and the host mask. Any other state
// gets answer 1.
ghost use Rattle.std.specs.Prelude.{◌≡◌, ◌&&◌, List, ℕ};
ghost use Rattle.model.specs.State.{in_range};
ghost use Rattle.model.specs.WellFormed.{◌implies◌, well_formed, well_formed_vp, well_moded_vp};
ghost use Rattle.partition.specs.PartitionView.{partition_of};
ghost use Rattle.processor.specs.Record.{vp_of};
ghost use Rattle.state.specs.Lent.{state_of};

use crate::parts::Parts;
use crate::well_formed_vp::{well_formed_vp, well_moded_vp};
use model::machine::{Setup, Shape};
use model::quantity::Level;
use partition::formed::well_formed_levels;
use partition::level::{Levels, mbec_for};
use partition::mask::{Masks, valid_mask};
use processor::record::Record;

// The most processors and pages, and the highest level, that a machine may have.
const MOST_PROCESSORS: u64 = 4;

const HIGHEST_MAXIMUM: u64 = 3;

const MOST_PAGES: u64 = 64;

// Are the numbers of processors and of pages and the maximum level in range?
pub(crate) fn in_range(processors: u64, max_level: Level, pages: u64) -> bool
    ensures { result ≡ in_range processors max_level.0 pages }
{
    (1 <= processors)
        & (processors <= MOST_PROCESSORS)
        & (max_level.0 <= HIGHEST_MAXIMUM)
        & (1 <= pages)
        & (pages <= MOST_PAGES)
}

// Is a place for a processor well formed? It is where there is no processor; what lies there is no part of the state.
fn well_formed_place(known: bool, shape: Shape, levels: &Levels, vp: &Record) -> bool
    ensures { (masks : List ℕ) → let p = vp_of vp.now in
        result ≡ (known implies (well_formed_vp shape (partition_of levels.now masks) p && well_moded_vp shape p)) }
{
    let formed = well_formed_vp(shape, levels, vp);
    let protected = well_moded_vp(shape, vp);
    !known | (formed & protected)
}

// Is the state of these parts well formed?
pub fn well_formed(setup: Setup, parts: &Parts, words: &[u64]) -> bool
    ensures { result ≡ well_formed (state_of setup parts.now words.now) }
{
    let shape = setup.shape;
    let count = words.len() as u64;
    let sized = in_range(setup.processors, shape.max_level, setup.pages);
    // One line a place: by `all` over the places the proof did not close.
    let zero = well_formed_place(0 < setup.processors, shape, &parts.levels, &parts.vps[0]);
    let one = well_formed_place(1 < setup.processors, shape, &parts.levels, &parts.vps[1]);
    let two = well_formed_place(2 < setup.processors, shape, &parts.levels, &parts.vps[2]);
    let three = well_formed_place(3 < setup.processors, shape, &parts.levels, &parts.vps[3]);
    let protections = well_formed_levels(shape, setup.pages, &parts.levels, &parts.masks);
    let host = valid_mask(setup.host_mask);
    let lowest = mbec_for(shape, &parts.levels, Level(0));
    sized & (count == setup.pages) & (zero & one & two & three) & protections & host & !lowest
}
