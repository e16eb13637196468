// What a level asks to be told of the registers of lower levels (02, request 6): its intercept control word, and its masks for writes of
// CR0 and of CR4.
ghost use Rattle.std.specs.Prelude.{◌≡◌};
ghost use Rattle.model.specs.State.{context};
ghost use Rattle.model.specs.Updates.{set_watch};
ghost use Rattle.model.specs.Watching.{intercept_reserved_set};
ghost use Rattle.processor.specs.Record.{vp_of, none_watches};

use crate::record;
use crate::record::Record;
use model::machine::{Shape, Watch};
use model::quantity::Level;
use word::field::take;
use word::intercept_control::INTERCEPTS as NAMED_BITS;

// How many bits of an intercept control word are reserved.
const RESERVED_BITS: u32 = 39;

// Is one of the bits 25..63 of an intercept control word set?
pub fn intercept_reserved_set(word: u64) -> bool
    ensures { result ≡ intercept_reserved_set word }
{
    let high = take(word, NAMED_BITS as u32, RESERVED_BITS);
    high != 0
}

// The word and the masks of a level; all 0 beyond M.
pub fn watch_of(shape: Shape, vp: &Record, level: Level) -> Watch
    ensures { result ≡ (context shape (vp_of vp.now) level.0).watch }
{
    Watch {
        intercepts: record::level_word(shape, vp, level, record::INTERCEPTS),
        cr0_mask: record::level_word(shape, vp, level, record::CR0_MASK),
        cr4_mask: record::level_word(shape, vp, level, record::CR4_MASK),
    }
}

// Where the intercept control words of levels 1 to 3 stand in a record.
const WORD_OF_ONE: usize = (record::LEVELS + record::LEVEL_WORDS + record::INTERCEPTS) as usize;

const WORD_OF_TWO: usize = WORD_OF_ONE + record::LEVEL_WORDS as usize;

const WORD_OF_THREE: usize = WORD_OF_TWO + record::LEVEL_WORDS as usize;

// Is no bit set in the word of any level above 0? It costs a look at three words; where it is false, a level has to be asked.
pub fn none_watches(vp: &Record) -> bool
    ensures { result ≡ none_watches vp.now }
{
    (vp[WORD_OF_ONE] == 0) & (vp[WORD_OF_TWO] == 0) & (vp[WORD_OF_THREE] == 0)
}

// Sets the word and the masks of a level; beyond M nothing changes.
pub fn set_watch(shape: Shape, vp: &mut Record, level: Level, watch: Watch)
    ensures { vp_of vp.new ≡ set_watch shape (vp_of vp.old) level.0 watch }
{
    record::set_level_word(shape, vp, level, record::INTERCEPTS, watch.intercepts);
    record::set_level_word(shape, vp, level, record::CR0_MASK, watch.cr0_mask);
    record::set_level_word(shape, vp, level, record::CR4_MASK, watch.cr4_mask);
}
