// The record of a virtual processor in words, and what stands where (01, "The bench model"; specs/Record.antt says what the words
// mean). First the active level, the set of the enabled levels and the shared registers; then a row of words for each level.
ghost use Rattle.std.specs.Prelude.{◌≡◌, ◌+◌, ◌*◌, ◌%◌, ◌≤◌, ◌<◌, length};
ghost use Rattle.word.specs.Field.{put};
ghost use Rattle.model.specs.Bounded.{bits};
ghost use Rattle.model.specs.State.{active_of, enabled_at};
ghost use Rattle.model.specs.Updates.{with_active};
ghost use Rattle.processor.specs.Record.{record_words, levels, level_words, vp_of, word_in, four_words, word_put};

use model::machine::Shape;
use model::quantity::Level;
use model::set;
use model::set::LevelSet;

// The words of a record. It is words, and not the struct of crate `model`, since the machine of lockstep is words that its caller owns. With it goes
// the shape, by value: a struct that held both would hold a `&mut`, whose every function has to say that it is still the same reference.
pub const RECORD_WORDS: usize = 138;

pub type Record = [u64; RECORD_WORDS];

// The word of the active level, and the word of the set of the enabled levels.
pub const ACTIVE: usize = 0;

pub const ENABLED: usize = 1;

// The first shared register, DR6, and how many there are.
pub const SHARED: u64 = 2;

pub const SHARED_REGISTERS: u64 = 20;

// The first word of level 0's row, and the words of a row.
pub const LEVELS: u64 = 22;

pub const LEVEL_WORDS: u64 = 29;

// Offsets in a row. The private registers come first.
pub const PRIVATE_REGISTERS: u64 = 13;

pub const TPR: u64 = 13;

// Four words of pending vectors.
pub const PENDING: u64 = 14;

// The secure configuration of each of four levels.
pub const SECURE: u64 = 18;

// The control record: why the level was entered, from which level, and RAX and RCX at that time.
pub const REASON: u64 = 22;

pub const FROM: u64 = 23;

pub const SAVED_RAX: u64 = 24;

pub const SAVED_RCX: u64 = 25;

// What the level asks to be told of registers: its intercept control word, and its masks for writes of CR0 and of CR4.
pub const INTERCEPTS: u64 = 26;

pub const CR0_MASK: u64 = 27;

pub const CR4_MASK: u64 = 28;

// The bits of a word.
const WORD_BITS: u64 = 64;

// The place in the record of the word at an offset in a level's row.
fn place(level: Level, offset: u64) -> usize
    requires { (level.0 < 4) × (offset < level_words) }
    ensures place { result ≡ levels + level_words * level.0 + offset }
    ensures fits { result < record_words }
{
    (LEVELS + LEVEL_WORDS * level.0 + offset) as usize
}

// The word at an offset in a level's row; 0 beyond M.
pub(crate) fn level_word(shape: Shape, vp: &Record, level: Level, offset: u64) -> u64
    requires { offset < level_words }
    ensures word { result ≡ word_in shape vp.now level.0 offset }
    ensures size { length vp.now ≡ record_words }
{
    let words: &[u64] = vp;
    if set::is_level(shape, level) {
        let i = place(level, offset);
        return words[i];
    }
    0
}

// The four words from an offset on in a level's row; 0 beyond M.
pub(crate) fn four_words(shape: Shape, vp: &Record, level: Level, offset: u64) -> [u64; 4]
    requires { offset + 4 ≤ level_words }
    ensures words { result ≡ four_words shape vp.now level.0 offset }
    ensures size { length vp.now ≡ record_words }
{
    [
        level_word(shape, vp, level, offset),
        level_word(shape, vp, level, offset + 1),
        level_word(shape, vp, level, offset + 2),
        level_word(shape, vp, level, offset + 3),
    ]
}

// Sets the word at an offset in a level's row; beyond M nothing changes.
pub(crate) fn set_level_word(shape: Shape, vp: &mut Record, level: Level, offset: u64, value: u64)
    requires { offset < level_words }
    ensures { vp_of vp.new ≡ word_put shape (vp_of vp.old) level.0 offset value }
{
    let words: &mut [u64] = vp;
    if set::is_level(shape, level) {
        let i = place(level, offset);
        words[i] = value;
    }
}

// The word with bit `index` % 64 made the low bit of `value`.
pub(crate) fn with_bit(word: u64, index: u64, value: u64) -> u64
    ensures { result ≡ put (index % 64) 1 word value }
{
    word::field::put(word, (index % WORD_BITS) as u32, 1, value)
}

// Makes bit `index` % 64 of the word at an offset in a level's row the low bit of `value`; beyond M nothing changes.
pub(crate) fn set_level_bit(
    shape: Shape,
    vp: &mut Record,
    level: Level,
    offset: u64,
    index: u64,
    value: u64,
)
    requires { offset < level_words }
    ensures { let word = word_in shape vp.old level.0 offset in
        vp_of vp.new
        ≡ word_put shape (vp_of vp.old) level.0 offset (put (index % 64) 1 word value) }
{
    let word = level_word(shape, vp, level, offset);
    set_level_word(shape, vp, level, offset, with_bit(word, index, value));
}

// The active level.
pub fn active_of(vp: &Record) -> Level
    ensures { result.0 ≡ active_of (vp_of vp.now) }
{
    Level(vp[ACTIVE])
}

// Makes a level the active one.
pub fn set_active(vp: &mut Record, level: Level)
    ensures { vp_of vp.new ≡ with_active (vp_of vp.old) level.0 }
{
    let words: &mut [u64] = vp;
    words[ACTIVE] = level.0;
}

// Is the level enabled on the processor?
pub fn enabled_at(shape: Shape, vp: &Record, level: Level) -> bool
    ensures { result ≡ enabled_at shape (vp_of vp.now) level.0 }
{
    set::member(shape, LevelSet(vp[ENABLED]), level)
}

// The levels that are enabled on the processor.
pub fn enabled_set(shape: Shape, vp: &Record) -> LevelSet
    ensures { result.0 ≡ bits 4 (λ l. enabled_at shape (vp_of vp.now) l) }
{
    set::members(shape, LevelSet(vp[ENABLED]))
}
