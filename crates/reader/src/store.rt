// A quantity stored at a place of a machine whose parts are lent (02, request 2).
ghost use Rattle.std.specs.Prelude.{◌≡◌, [], ◌+◌, ◌*◌, ◌<◌, get_or, length, set};
ghost use Rattle.word.specs.Field.{put as put_bits};
ghost use Rattle.processor.specs.Record.{level_words, record_words};
ghost use Rattle.reader.specs.Slots.{Room, parts_with, stored};

use model::quantity::{Level, Processor};
use processor::record;
use processor::record::Record;
use records::place::Place;
use state::parts::Parts;
use word::field::put;

// The words of the levels: the sets of those that are enabled and that have MBEC, and the configuration words.
const ENABLED: usize = 0;

const MBEC: usize = 1;

const CONFIGS: u64 = 2;

// The shared register r stands at r - SHARED_GAP of a record: the first, 12, at word 2.
const SHARED_GAP: u64 = 10;

// Stores a word: of the levels, of the masks, of the pages or of a processor's record.
fn set_word(words: &mut [u64], index: u64, value: u64)
    requires { index < length words.old }
    ensures { words.new ≡ set words.old index value }
{
    words[index as usize] = value;
}

// Stores a level's bit in a word that is a set of levels.
fn set_level_bit(words: &mut [u64], index: usize, level: Level, value: u64)
    requires { (index < length words.old) × (level.0 < 4) }
    ensures { words.new ≡ set words.old index (put_bits level.0 1 (get_or words.old index 0) value) }
{
    words[index] = put(words[index], level.0 as u32, 1, value);
}

// The same among the records of four processors.
fn set_in(vps: &mut [Record; 4], vp: Processor, index: u64, value: u64)
    requires { (vp.0 < 4) × (index < record_words) }
    ensures { vps.new
        ≡ set vps.old vp.0 (set (get_or vps.old vp.0 []) index value) }
{
    set_word(&mut vps[vp.0 as usize], index, value);
}

fn set_enabled_in(vps: &mut [Record; 4], vp: Processor, level: Level, value: u64)
    requires { (vp.0 < 4) × (level.0 < 4) }
    ensures { let row = get_or vps.old vp.0 [] in vps.new
        ≡ set vps.old vp.0 (set row 1 (put_bits level.0 1 (get_or row 1 0) value)) }
{
    set_level_bit(&mut vps[vp.0 as usize], record::ENABLED, level, value);
}

// The place in a record of the word at an offset in a level's row.
fn in_row(level: Level, offset: u64) -> u64
    requires { (level.0 < 4) × (offset < level_words) }
    ensures place { result ≡ 22 + level_words * level.0 + offset }
    ensures fits { result < record_words }
{
    record::LEVELS + record::LEVEL_WORDS * level.0 + offset
}

// Stores the quantity at a place.
#[tactic(auto, unfolding(crate::specs::Slots::Room, crate::specs::Slots::slot_of))]
pub(crate) fn store(parts: &mut Parts, words: &mut [u64; 64], place: Place, x: u64)
    requires { Room place }
    ensures { parts_with parts.new words.new ≡ stored place x (parts_with parts.old words.old) }
{
    let Parts { levels, masks, vps } = parts;
    match place {
        Place::PartitionEnabled(t) => set_level_bit(levels, ENABLED, t, x),
        Place::Mbec(t) => set_level_bit(levels, MBEC, t, x),
        Place::Config(t) => set_word(levels, CONFIGS + t.0, x),
        Place::Active(v) => set_in(vps, v, record::ACTIVE as u64, x),
        Place::Shared(v, r) => set_in(vps, v, r - SHARED_GAP, x),
        Place::Register(v, l, r) => set_in(vps, v, in_row(l, r), x),
        Place::Tpr(v, l) => set_in(vps, v, in_row(l, record::TPR), x),
        Place::Pending(v, l, i) => set_in(vps, v, in_row(l, record::PENDING + i), x),
        Place::Enabled(v, l) => set_enabled_in(vps, v, l, x),
        Place::Secure(v, l, k) => set_in(vps, v, in_row(l, record::SECURE + k.0), x),
        Place::Reason(v, l) => set_in(vps, v, in_row(l, record::REASON), x),
        Place::From(v, l) => set_in(vps, v, in_row(l, record::FROM), x),
        Place::Rax(v, l) => set_in(vps, v, in_row(l, record::SAVED_RAX), x),
        Place::Rcx(v, l) => set_in(vps, v, in_row(l, record::SAVED_RCX), x),
        Place::Word(p) => set_word(words, p.0, x),
        Place::Mask(p, t) => set_word(masks, 4 * p.0 + t.0, x),
        Place::Intercepts(v, l) => set_in(vps, v, in_row(l, record::INTERCEPTS), x),
        Place::Cr0Mask(v, l) => set_in(vps, v, in_row(l, record::CR0_MASK), x),
        Place::Cr4Mask(v, l) => set_in(vps, v, in_row(l, record::CR4_MASK), x),
    }
}
