// The events that only answer: flush, pstat, vstat, caps (01, "Events"). The status words are packed through the structures of 001.
#![tactic(auto)]

ghost use Rattle.std.specs.Prelude.{◌≡◌, true, ◌&&◌, List, ℕ, ltb};
ghost use Rattle.model.specs.Bounded.{bits};
ghost use Rattle.model.specs.declared.event.Action.TheVariants.{Flush, Pstat, Vstat, Caps};
ghost use Rattle.model.specs.Events.{locked as locked_for};
ghost use Rattle.model.specs.State.{State, active, is_level, is_processor, shape as shape_of, partition as partition_in};
ghost use Rattle.model.specs.Step.{acted};
ghost use Rattle.partition.specs.PartitionView.{partition_of};
ghost use Rattle.processor.specs.Record.{vp_of};
ghost use Rattle.promise.specs.Promise.{outcome_of, Runs};

use model::answer::{Answer, Refusal};
use model::machine::Shape;
use model::quantity::{Level, Mode, is_user};
use model::set::{LevelSet, is_level, level_set};
use partition::level::{Levels, enabled_levels, mbec_levels};
use processor::record::{Record, active_of, enabled_set};
use processor::secure::mbec_set;
use word::field::one_if;
use word::register_word::RegisterWord;
use word::registers::{Capabilities, PartitionStatus, VpStatus};

// flush: refused where on any processor any level above the actor holds a lock on the actor's level, as `locked` tells.
pub fn flush(locked: bool, mode: Mode) -> Answer
    ensures { ((s : State) (v : ℕ) → is_processor s v ≡ true → locked_for s (active s v) ≡ locked
        → acted s v mode Flush ≡ outcome_of result s) }
{
    if is_user(mode) {
        return Answer::Refused(Refusal::UserMode);
    }
    if locked {
        return Answer::Refused(Refusal::TlbLocked);
    }
    Answer::Done(0)
}

// pstat: the enabled levels, the maximum level and the levels with MBEC.
pub fn pstat(shape: Shape, levels: &Levels, mode: Mode) -> Answer
    ensures { ((s : State) (v : ℕ) (masks : List ℕ)
        → shape_of s ≡ shape → partition_in s ≡ partition_of levels.now masks
        → acted s v mode Pstat ≡ outcome_of result s) }
{
    if is_user(mode) {
        return Answer::Refused(Refusal::UserMode);
    }
    let enabled = enabled_levels(shape, levels);
    let mbec = mbec_levels(shape, levels);
    let word = PartitionStatus {
        enabled_vtl_set: enabled.0,
        maximum_vtl: shape.max_level.0,
        mbec_enabled_vtl_set: mbec.0,
    }
    .pack();
    Answer::Done(word)
}

// vstat: the actor, whether MBEC is on for it at some level, and the levels that are enabled on its processor.
pub fn vstat(shape: Shape, vp: &Record, mode: Mode) -> Answer
    ensures { ((s : State) (v : ℕ) → Runs shape (vp_of vp.now) s v
        → acted s v mode Vstat ≡ outcome_of result s) }
{
    if is_user(mode) {
        return Answer::Refused(Refusal::UserMode);
    }
    let actor = active_of(vp);
    let mbecs = mbec_set(shape, vp, actor);
    let enabled = enabled_set(shape, vp);
    let word = VpStatus {
        active_vtl: actor.0,
        active_mbec_enabled: one_if(mbecs.0 != 0),
        enabled_vtl_set: enabled.0,
    }
    .pack();
    Answer::Done(word)
}

// The levels 1 to M.
fn levels_above_zero(shape: Shape) -> LevelSet
    ensures { result.0 ≡ bits 4 (λ t. ltb 0 t && is_level shape t) }
{
    level_set(
        false,
        is_level(shape, Level(1)),
        is_level(shape, Level(2)),
        is_level(shape, Level(3)),
    )
}

// caps: DenyLowerVtlStartup 0, MBEC for the levels 1 to M, and whether DR6 is shared.
pub fn caps(shape: Shape, mode: Mode) -> Answer
    ensures { ((s : State) (v : ℕ) → shape_of s ≡ shape → acted s v mode Caps ≡ outcome_of result s) }
{
    if is_user(mode) {
        return Answer::Refused(Refusal::UserMode);
    }
    let mbec = levels_above_zero(shape);
    let word = Capabilities {
        deny_lower_vtl_startup: 0,
        mbec_vtl_mask: mbec.0,
        dr6_shared: one_if(shape.dr6_shared),
    }
    .pack();
    Answer::Done(word)
}
