// What the partition holds of the levels (01, "The bench model"): the sets of the levels that are enabled and that have MBEC, and the
// configuration words. A level above the maximum is in no set and has the word 0, and so has level 0.
ghost use Rattle.std.specs.Prelude.{◌≡◌, List, ℕ};
ghost use Rattle.model.specs.Bounded.{bits};
ghost use Rattle.model.specs.Masks.{protects_in};
ghost use Rattle.model.specs.State.{in_set, config_in};
ghost use Rattle.model.specs.Updates.{enable_level, set_config};
ghost use Rattle.partition.specs.PartitionView.{enabled_in, mbec_in, configs_in, partition_of};

use crate::config::turns_on;
use model::machine::Shape;
use model::quantity::Level;
use model::set;
use model::set::LevelSet;

// The sets and the configuration words: specs/PartitionView.antt says what each word holds. They are words for the reason that `Record` of crate
// `processor` has, and go with the shape in the same way.
pub type Levels = [u64; 6];

// The configuration word of level l stands at CONFIGS + l.
const ENABLED: usize = 0;

const MBEC: usize = 1;

const CONFIGS: u64 = 2;

// Is a level enabled for the partition?
pub fn enabled_for(shape: Shape, levels: &Levels, level: Level) -> bool
    ensures { result ≡ in_set shape (enabled_in levels.now) level.0 }
{
    set::member(shape, LevelSet(levels[ENABLED]), level)
}

// Has the partition MBEC for a level?
pub fn mbec_for(shape: Shape, levels: &Levels, level: Level) -> bool
    ensures { result ≡ in_set shape (mbec_in levels.now) level.0 }
{
    set::member(shape, LevelSet(levels[MBEC]), level)
}

// The levels that are enabled for the partition.
pub fn enabled_levels(shape: Shape, levels: &Levels) -> LevelSet
    ensures { result.0 ≡ bits 4 (λ l. in_set shape (enabled_in levels.now) l) }
{
    set::members(shape, LevelSet(levels[ENABLED]))
}

// The levels that the partition has MBEC for.
pub fn mbec_levels(shape: Shape, levels: &Levels) -> LevelSet
    ensures { result.0 ≡ bits 4 (λ l. in_set shape (mbec_in levels.now) l) }
{
    set::members(shape, LevelSet(levels[MBEC]))
}

// The configuration word of a level.
pub fn config_at(shape: Shape, levels: &Levels, level: Level) -> u64
    ensures { result ≡ config_in shape (configs_in levels.now) level.0 }
{
    let words: &[u64] = levels;
    let number = level.0;
    let top = shape.max_level.0;
    if number >= 4 {
        return 0;
    }
    let i = (CONFIGS + number) as usize;
    let word = words[i];
    if (0 < number) & (number <= top) {
        word
    } else {
        0
    }
}

// Are the protections of a level on?
pub fn protects_at(shape: Shape, levels: &Levels, level: Level) -> bool
    ensures { result ≡ protects_in shape (configs_in levels.now) level.0 }
{
    turns_on(config_at(shape, levels, level))
}

// Enables a level, with MBEC or without.
pub fn enable_level(shape: Shape, levels: &mut Levels, level: Level, mbec: bool)
    ensures { (masks : List ℕ) → partition_of levels.new masks
        ≡ enable_level shape (partition_of levels.old masks) level.0 mbec }
{
    let words: &mut [u64] = levels;
    let enabled = set::with_level(shape, LevelSet(words[ENABLED]), level, true);
    let with_mbec = set::with_level(shape, LevelSet(words[MBEC]), level, mbec);
    words[ENABLED] = enabled.0;
    words[MBEC] = with_mbec.0;
}

// Stores the configuration word of a level. A level above 3 changes nothing.
pub fn set_config(levels: &mut Levels, level: Level, word: u64)
    ensures { (masks : List ℕ) → partition_of levels.new masks
        ≡ set_config (partition_of levels.old masks) level.0 word }
{
    let words: &mut [u64] = levels;
    let number = level.0;
    if number < 4 {
        let i = (CONFIGS + number) as usize;
        words[i] = word;
    }
}
