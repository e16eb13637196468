// Interrupt vectors of a level (01, "Events": tpr, ack, int): which are pending, which are ready, and the highest that is both.
// A vector is ready where its class, vector / 16, is above the level's TPR class. RFLAGS.IF plays no part in any of it.
ghost use Rattle.std.specs.Prelude.{◌≡◌};
ghost use Rattle.model.specs.Entry.{is_ready, highest_ready, top_bit, top_vector, enters};
ghost use Rattle.model.specs.State.{above_zero, context};
ghost use Rattle.model.specs.Updates.{set_pending, set_tpr};
ghost use Rattle.processor.specs.Record.{vp_of};

use crate::record;
use crate::record::Record;
use model::machine::Shape;
use model::quantity::Level;

// There are 16 vectors to a class and 64 to a word of pending vectors, of which there are four.
const CLASS_VECTORS: u64 = 16;

const WORD_VECTORS: u64 = 64;

const PENDING_WORDS: u64 = 4;

// The highest bit of a word.
const LAST_BIT: u64 = 63;

// Is the vector ready at the level?
pub fn is_ready(shape: Shape, vp: &Record, level: Level, vector: u64) -> bool
    ensures { result ≡ is_ready (context shape (vp_of vp.now) level.0) vector }
{
    record::level_word(shape, vp, level, record::TPR) < vector / CLASS_VECTORS
}

// The number of the highest bit that is set in a word; 0 if none is. It costs one count of leading zeros.
fn top_bit(word: u64) -> u64
    ensures { result ≡ top_bit word }
{
    if word == 0 {
        return 0;
    }
    LAST_BIT - (u64::leading_zeros(word) as u64)
}

// The vector of the top set bit of the top non-zero word (02, request 4), of the four pending words of a level; 0 if all are 0.
fn top_vector(words: [u64; 4]) -> u64
    ensures { result ≡ top_vector words }
{
    for number in (0..PENDING_WORDS).rev() {
        let word = words[number as usize];
        if word != 0 {
            return WORD_VECTORS * number + top_bit(word);
        }
    }
    0
}

// The highest vector of a level that is pending and ready. That of the top bit decides: no pending vector is higher.
pub fn highest_ready(shape: Shape, vp: &Record, level: Level) -> Option<u64>
    ensures { result ≡ above_zero (highest_ready (context shape (vp_of vp.now) level.0)) }
{
    let tpr = record::level_word(shape, vp, level, record::TPR);
    let vector = top_vector(record::four_words(shape, vp, level, record::PENDING));
    if tpr < vector / CLASS_VECTORS {
        Some(vector)
    } else {
        None
    }
}

// Makes a vector of a level pending where the value is 1, and takes it away where it is 0.
pub fn set_pending(shape: Shape, vp: &mut Record, level: Level, vector: u64, value: u64)
    ensures { vp_of vp.new ≡ set_pending shape (vp_of vp.old) level.0 vector value }
{
    let word = vector / WORD_VECTORS;
    if word >= PENDING_WORDS {
        return;
    }
    record::set_level_bit(shape, vp, level, record::PENDING + word, vector, value);
}

// tpr: sets the class of a level.
pub fn set_tpr(shape: Shape, vp: &mut Record, level: Level, class: u64)
    ensures { vp_of vp.new ≡ set_tpr shape (vp_of vp.old) level.0 class }
{
    record::set_level_word(shape, vp, level, record::TPR, class);
}

// int: is the target entered, being above the active level, with the vector ready?
pub fn enters(shape: Shape, vp: &Record, target: Level, vector: u64) -> bool
    ensures { result ≡ enters shape (vp_of vp.now) target.0 vector }
{
    let ready = is_ready(shape, vp, target, vector);
    (record::active_of(vp).0 < target.0) & ready
}
