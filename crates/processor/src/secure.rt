// The secure configuration that a level holds for each lower level (01, "Events": secure, flush, ret): whether MBEC is on for it,
// and whether its TLB is locked. 001's HV_REGISTER_VSM_VP_SECURE_VTL_CONFIG is the word.
ghost use Rattle.std.specs.Prelude.{◌≡◌, ◌<◌};
ghost use Rattle.word.specs.Field.{bit};
ghost use Rattle.model.specs.Bounded.{bits, any};
ghost use Rattle.model.specs.State.{secure_of, mbec_bit, lock_bit};
ghost use Rattle.model.specs.Updates.{set_secure, unlocked};
ghost use Rattle.processor.specs.Record.{vp_of, lock_cleared};

use crate::record;
use crate::record::Record;
use model::machine::Shape;
use model::quantity::{LEVEL_COUNT, Level};
use model::set::{LevelSet, level_set};
use word::register_word::RegisterWord;
use word::registers::SecureConfig;

// The TLB lock in a configuration word. Only this bit is cleared: a word that is packed anew would lose its reserved bits.
const LOCK_BIT: u64 = 1;

// The secure configuration that a level holds for a lower one.
pub fn secure_of(shape: Shape, vp: &Record, holder: Level, lower: Level) -> u64
    ensures { result ≡ secure_of shape (vp_of vp.now) holder.0 lower.0 }
{
    if lower.0 >= holder.0 {
        return 0;
    }
    if lower.0 >= LEVEL_COUNT {
        return 0;
    }
    record::level_word(shape, vp, holder, record::SECURE + lower.0)
}

// Has the holder MBEC on for the lower level?
fn has_mbec(shape: Shape, vp: &Record, holder: Level, lower: Level) -> bool
    ensures { result ≡ bit (secure_of shape (vp_of vp.now) holder.0 lower.0) mbec_bit }
{
    SecureConfig::unpack(secure_of(shape, vp, holder, lower)).mbec_enabled == 1
}

// Has the holder a TLB lock on the lower level?
fn has_lock(shape: Shape, vp: &Record, holder: Level, lower: Level) -> bool
    ensures { result ≡ bit (secure_of shape (vp_of vp.now) holder.0 lower.0) lock_bit }
{
    SecureConfig::unpack(secure_of(shape, vp, holder, lower)).tlb_locked == 1
}

// The set of the levels that have MBEC on for a level. Level 0 has no lower level.
pub fn mbec_set(shape: Shape, vp: &Record, level: Level) -> LevelSet
    ensures { result.0 ≡ bits 4 (λ t. bit (secure_of shape (vp_of vp.now) t level.0) mbec_bit) }
{
    level_set(
        false,
        has_mbec(shape, vp, Level(1), level),
        has_mbec(shape, vp, Level(2), level),
        has_mbec(shape, vp, Level(3), level),
    )
}

// Does a level hold a TLB lock on the level?
pub fn holds_lock(shape: Shape, vp: &Record, level: Level) -> bool
    ensures { result ≡ any 4 (λ t. bit (secure_of shape (vp_of vp.now) t level.0) lock_bit) }
{
    (1..LEVEL_COUNT).any(|number| has_lock(shape, vp, Level(number), level))
}

// secure: sets the holder's configuration of the lower level.
pub fn set_secure(shape: Shape, vp: &mut Record, holder: Level, lower: Level, value: u64)
    ensures { vp_of vp.new ≡ set_secure shape (vp_of vp.old) holder.0 lower.0 value }
{
    if lower.0 >= LEVEL_COUNT {
        return;
    }
    record::set_level_word(shape, vp, holder, record::SECURE + lower.0, value);
}

// Clears the holder's lock in its configuration of the lower level.
fn clear_lock(shape: Shape, vp: &mut Record, holder: Level, lower: Level)
    requires { lower.0 < 4 }
    ensures { vp_of vp.new ≡ lock_cleared shape (vp_of vp.old) holder.0 lower.0 }
{
    record::set_level_bit(shape, vp, holder, record::SECURE + lower.0, LOCK_BIT, 0);
}

// ret: clears the TLB locks of a level.
pub fn unlock(shape: Shape, vp: &mut Record, level: Level)
    ensures { vp_of vp.new ≡ unlocked shape (vp_of vp.old) level.0 }
{
    for number in 0..LEVEL_COUNT {
        clear_lock(shape, vp, level, Level(number));
    }
}
