// Whose MBEC counts for an access (02, request 1): the acting level's SMEP, which is unavailable, on or off, decides for every level
// at once.
ghost use Rattle.std.specs.Prelude.{◌≡◌};
ghost use Rattle.model.specs.Memory.{smep_allows};
ghost use Rattle.processor.specs.Record.{vp_of};
ghost use Rattle.access_events.specs.Counting.{is_user_fetch, counted_set, counting_set};

use model::machine::Shape;
use model::quantity::{Access, Level, Mode, is_user};
use model::register::{CR4, SMEP_BIT};
use model::set::LevelSet;
use partition::access::Attempt;
use processor::record::Record;
use processor::record_registers::private_of;
use processor::secure::mbec_set;
use word::field::has_bit;

// Is SMEP unavailable, or on at a level?
pub fn smep_allows(shape: Shape, vp: &Record, level: Level) -> bool
    ensures { result ≡ smep_allows shape (vp_of vp.now) level.0 }
{
    if !shape.smep {
        return true;
    }
    has_bit(private_of(shape, vp, level, CR4), SMEP_BIT)
}

// Is it a fetch in user mode?
fn is_user_fetch(mode: Mode, access: Access) -> bool
    ensures { result ≡ is_user_fetch mode access }
{
    (access == Access::Fetch) & is_user(mode)
}

// The levels whose MBEC counts for the acting level.
pub fn counted_set(shape: Shape, vp: &Record, actor: Level) -> LevelSet
    ensures { result.0 ≡ counted_set shape (vp_of vp.now) actor.0 }
{
    if !smep_allows(shape, vp, actor) {
        return LevelSet(0);
    }
    mbec_set(shape, vp, actor)
}

// The same for an attempt. No access but a fetch in user mode needs another bit where MBEC counts, so no other asks.
pub(crate) fn counting_set(shape: Shape, vp: &Record, attempt: Attempt) -> LevelSet
    ensures { result.0 ≡ counting_set shape (vp_of vp.now) attempt }
{
    let mode = attempt.mode;
    let access = attempt.access;
    let actor = attempt.actor;
    if !is_user_fetch(mode, access) {
        return LevelSet(0);
    }
    counted_set(shape, vp, actor)
}
