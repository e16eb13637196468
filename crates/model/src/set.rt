// A set of levels as a number: bit l is set where level l is in it. The status words of the source hold levels so.
ghost use Rattle.std.specs.Prelude.{◌≡◌, cond, ◌+◌, ◌≤◌, ◌<◌};
ghost use Rattle.word.specs.Field.{bit, put};
ghost use Rattle.model.specs.Bounded.{bits};
ghost use Rattle.model.specs.State.{is_level, in_set, level_count};
ghost use Rattle.model.specs.Updates.{with_level};

use crate::machine::Shape;
use crate::quantity::Level;
use word::field::{has_bit, take};

#[derive(Clone, Copy)]
pub struct LevelSet(pub u64);

// What a level that is in a set, or is not, adds to the number.
fn worth(present: bool, value: u64) -> u64
    ensures equal { result ≡ cond present value 0 }
    ensures most { result ≤ value }
{
    if present { value } else { 0 }
}

// The set of those levels 0 to 3 for which the test holds.
pub fn level_set(zero: bool, one: bool, two: bool, three: bool) -> LevelSet
    ensures { result.0 ≡ cond zero 1 0 + cond one 2 0 + cond two 4 0 + cond three 8 0 }
{
    LevelSet(worth(zero, 1) + worth(one, 2) + worth(two, 4) + worth(three, 8))
}

// Is bit `number` of a word set? No bit past 63 is.
fn has_number(word: u64, number: u64) -> bool
    ensures { result ≡ bit word number }
{
    if number >= 64 {
        return false;
    }
    has_bit(word, number as u32)
}

// Is a level in a set of levels?
pub fn in_set(set: LevelSet, level: Level) -> bool
    ensures { result ≡ bit set.0 level.0 }
{
    has_number(set.0, level.0)
}

// Is a level one of 0 to M?
pub fn is_level(shape: Shape, level: Level) -> bool
    ensures { result ≡ is_level shape level.0 }
{
    (level.0 <= shape.max_level.0) & (level.0 < 4)
}

// Is a level, one of 0 to M, in a set?
pub fn member(shape: Shape, set: LevelSet, level: Level) -> bool
    ensures { result ≡ in_set shape set level.0 }
{
    is_level(shape, level) & in_set(set, level)
}

// How many of the four levels there are.
fn level_count(shape: Shape) -> u32
    ensures { result ≡ level_count shape }
{
    let top = shape.max_level.0;
    if top < 4 { (top + 1) as u32 } else { 4 }
}

// The levels 0 to M of a set.
pub fn members(shape: Shape, set: LevelSet) -> LevelSet
    ensures { result.0 ≡ bits 4 (λ l. in_set shape set l) }
{
    LevelSet(take(set.0, 0, level_count(shape)))
}

// A word with one of its first four bits set or cleared.
fn with_bit(word: u64, number: u64, present: bool) -> u64
    requires { number < 4 }
    ensures { result ≡ put number 1 word (cond present 1 0) }
{
    let bit = number as u32;
    if present {
        return word::field::put(word, bit, 1, 1);
    }
    word::field::put(word, bit, 1, 0)
}

// A set with a level or without it. Beyond M nothing changes.
pub fn with_level(shape: Shape, set: LevelSet, level: Level, present: bool) -> LevelSet
    ensures { result ≡ with_level shape set level.0 present }
{
    if is_level(shape, level) {
        return LevelSet(with_bit(set.0, level.0, present));
    }
    set
}
