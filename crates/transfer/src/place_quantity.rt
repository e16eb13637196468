// The quantity at a place of a machine whose parts are lent.
ghost use Rattle.std.specs.Prelude.{true, [], ◌≡◌, ◌+◌, ◌*◌, ◌<◌, get_or, length};
ghost use Rattle.word.specs.Field.{bit};
ghost use Rattle.processor.specs.Record.{level_words, record_words};
ghost use Rattle.records.specs.Places.{has};
ghost use Rattle.records.specs.Values.{number as number_of, value_at};
ghost use Rattle.state.specs.Lent.{state_of};

use model::machine::Setup;
use model::quantity::{Level, Processor};
use model::register::DR6;
use model::set::{LevelSet, in_set};
use partition::level::{config_at, enabled_for, mbec_for};
use partition::mask::mask_at;
use processor::record;
use processor::record::Record;
use records::place::Place;
use state::parts::Parts;
use word::field::one_if;

// A word of a slice.
fn word_at(words: &[u64], i: u64) -> u64
    requires { i < length words.now }
    ensures { result ≡ get_or words.now i 0 }
{
    words[i as usize]
}

// A word of the record of a processor.
fn record_word(vps: &[Record; 4], vp: Processor, i: u64) -> u64
    requires { (vp.0 < 4) × (i < record_words) }
    ensures { result ≡ get_or (get_or vps.now vp.0 []) i 0 }
{
    word_at(&vps[vp.0 as usize], i)
}

// The word at an offset in the row of a level.
fn row_word(vps: &[Record; 4], vp: Processor, level: Level, offset: u64) -> u64
    requires { (vp.0 < 4) × (level.0 < 4) × (offset < level_words) }
    ensures { result ≡ get_or (get_or vps.now vp.0 []) (22 + level_words * level.0 + offset) 0 }
{
    record_word(
        vps,
        vp,
        record::LEVELS + record::LEVEL_WORDS * level.0 + offset,
    )
}

// Is the level in the set of the levels enabled on the processor?
fn is_enabled(vps: &[Record; 4], vp: Processor, level: Level) -> u64
    requires { vp.0 < 4 }
    ensures { result ≡ number_of (bit (get_or (get_or vps.now vp.0 []) 1 0) level.0) }
{
    one_if(in_set(
        LevelSet(record_word(vps, vp, record::ENABLED as u64)),
        level,
    ))
}

// The quantity at a place that the machine has.
pub(crate) fn quantity(setup: Setup, parts: &Parts, words: &[u64], place: Place) -> u64
    requires { (has setup place ≡ true) × (length words.now ≡ setup.pages) }
    ensures { result ≡ value_at (state_of setup parts.now words.now) place }
{
    let Parts { levels, masks, vps } = parts;
    let shape = setup.shape;
    match place {
        Place::PartitionEnabled(t) => one_if(enabled_for(shape, levels, t)),
        Place::Mbec(t) => one_if(mbec_for(shape, levels, t)),
        Place::Config(t) => config_at(shape, levels, t),
        Place::Active(v) => record_word(vps, v, record::ACTIVE as u64),
        Place::Shared(v, r) => record_word(vps, v, record::SHARED + (r - DR6)),
        Place::Register(v, l, r) => row_word(vps, v, l, r),
        Place::Tpr(v, l) => row_word(vps, v, l, record::TPR),
        Place::Pending(v, l, i) => row_word(vps, v, l, record::PENDING + i),
        Place::Enabled(v, l) => is_enabled(vps, v, l),
        Place::Secure(v, l, k) => row_word(vps, v, l, record::SECURE + k.0),
        Place::Reason(v, l) => row_word(vps, v, l, record::REASON),
        Place::From(v, l) => row_word(vps, v, l, record::FROM),
        Place::Rax(v, l) => row_word(vps, v, l, record::SAVED_RAX),
        Place::Rcx(v, l) => row_word(vps, v, l, record::SAVED_RCX),
        Place::Word(p) => word_at(words, p.0),
        Place::Mask(p, t) => mask_at(shape, setup.pages, masks, t, p),
        Place::Intercepts(v, l) => row_word(vps, v, l, record::INTERCEPTS),
        Place::Cr0Mask(v, l) => row_word(vps, v, l, record::CR0_MASK),
        Place::Cr4Mask(v, l) => row_word(vps, v, l, record::CR4_MASK),
    }
}
