// The events that move a processor from level to level, start a level on it, or take a vector: call, ret, envp, int, ack (01, "Events").
// Each is given the processor's record, tests the conditions of its rule one after the other and leaves with the first that holds;
// only then the record changes.
#![tactic(auto)]

ghost use Rattle.std.specs.Prelude.{◌≡◌, List, ℕ};
ghost use Rattle.model.specs.declared.event.Action.TheVariants.{Envp, Call, Ret, Ack};
ghost use Rattle.model.specs.declared.event.Event.TheVariants.{Int};
ghost use Rattle.model.specs.declared.quantity.Processor.{Processor};
ghost use Rattle.model.specs.State.{State};
ghost use Rattle.model.specs.Step.{ruled, acted};
ghost use Rattle.model.specs.Updates.{put_vp};
ghost use Rattle.partition.specs.PartitionView.{partition_of};
ghost use Rattle.processor.specs.Record.{vp_of};
ghost use Rattle.promise.specs.Promise.{outcome_of, Runs, Acts, Elsewhere};

use model::answer::{Answer, Refusal};
use model::machine::Shape;
use model::quantity;
use model::quantity::{Level, Mode};
use model::register::{CR0, INTERRUPT_BIT, PROTECTED_BIT, RCX, RFLAGS};
use model::set::is_level;
use partition::level::{Levels, enabled_for};
use processor::control::{InitialContext, start};
use processor::interrupt;
use processor::record::{Record, active_of, enabled_at};
use processor::record_registers::{private_of, shared_of};
use word::field::{has_bit, one_if};

// call: the next enabled level up is entered. The value is that level.
pub fn call(shape: Shape, vp: &mut Record, mode: Mode, length: u64) -> Answer
    ensures { ((s : State) (v : ℕ) → Runs shape (vp_of vp.old) s v
        → acted s v mode (Call length) ≡ outcome_of result (put_vp s v (vp_of vp.new))) }
{
    if (length == 0) | (quantity::LONGEST_INSTRUCTION < length) {
        return Answer::Refused(Refusal::LengthOutOfRange);
    }
    if quantity::is_user(mode) {
        return Answer::Refused(Refusal::UserMode);
    }
    let actor = active_of(vp);
    if !has_bit(private_of(shape, vp, actor, CR0), PROTECTED_BIT) {
        return Answer::Refused(Refusal::CallInRealMode);
    }
    if !(shared_of(vp, RCX) == 0) {
        return Answer::Refused(Refusal::RcxNotZero);
    }
    let Some(next) = entry::next_up(shape, vp) else {
        return Answer::Refused(Refusal::NoHigherLevel);
    };
    entry::vtl_call(shape, vp, next, length);
    Answer::Done(next.0)
}

// ret: back to the level that the rules say. The value is the level now active.
pub fn ret(shape: Shape, vp: &mut Record, mode: Mode, length: u64) -> Answer
    ensures { ((s : State) (v : ℕ) → Runs shape (vp_of vp.old) s v
        → acted s v mode (Ret length) ≡ outcome_of result (put_vp s v (vp_of vp.new))) }
{
    if (length == 0) | (quantity::LONGEST_INSTRUCTION < length) {
        return Answer::Refused(Refusal::LengthOutOfRange);
    }
    if quantity::is_user(mode) {
        return Answer::Refused(Refusal::UserMode);
    }
    let actor = active_of(vp);
    if actor.0 == 0 {
        return Answer::Refused(Refusal::ReturnAtLevelZero);
    }
    if 1 < shared_of(vp, RCX) {
        return Answer::Refused(Refusal::RcxAboveOne);
    }
    entry::vtl_return(shape, vp, length);
    let active = active_of(vp);
    Answer::Done(active.0)
}

// The level that envp starts, and whether it is enabled on another processor than the one whose record is lent. (That one may count too.)
#[derive(Clone, Copy)]
pub struct Target {
    pub level: Level,
    pub elsewhere: bool,
}

// envp, given the record of processor w: the target starts on w with RIP, RSP and CR0 as given. Once it is enabled on any processor, only a level at
// it or above may start it; before that, only a lower one (02, request 5).
pub fn envp(
    shape: Shape,
    levels: &Levels,
    vp: &mut Record,
    actor: Level,
    mode: Mode,
    target: Target,
    initial: InitialContext,
) -> Answer
    ensures { ((s : State) (v pages : ℕ) (w : Processor) (masks : List ℕ)
        → Acts shape pages (partition_of levels.now masks) actor.0 s v
        → Runs shape (vp_of vp.old) s w.0
        → Elsewhere shape (vp_of vp.old) target.level.0 target.elsewhere s
        → acted s v mode (Envp w target.level initial.rip initial.rsp initial.cr0)
        ≡ outcome_of result (put_vp s w.0 (vp_of vp.new))) }
{
    let level = target.level;
    if quantity::HIGHEST_LEVEL < level.0 {
        return Answer::Refused(Refusal::LevelOutOfRange);
    }
    if !has_bit(initial.cr0, PROTECTED_BIT) {
        return Answer::Refused(Refusal::Cr0InRealMode);
    }
    if quantity::is_user(mode) {
        return Answer::Refused(Refusal::UserMode);
    }
    if level.0 == 0 {
        return Answer::Refused(Refusal::LevelZero);
    }
    if shape.max_level.0 < level.0 {
        return Answer::Refused(Refusal::AboveMaximum);
    }
    let here = enabled_at(shape, vp, level);
    let anywhere = here | (is_level(shape, level) & target.elsewhere);
    if !anywhere & (level.0 <= actor.0) {
        return Answer::Refused(Refusal::TargetNotAbove);
    }
    if anywhere & (actor.0 < level.0) {
        return Answer::Refused(Refusal::TargetGuarded);
    }
    if here {
        return Answer::Refused(Refusal::EnabledOnProcessor);
    }
    if !enabled_for(shape, levels, level) {
        return Answer::Refused(Refusal::NotEnabledForPartition);
    }
    start(shape, vp, level, initial);
    Answer::Done(0)
}

// int, given the record of processor w: the vector is made pending, and the target is entered or not. The value is 1 if it is, else 0.
pub fn int(shape: Shape, vp: &mut Record, target: Level, vector: u64) -> Answer
    ensures { ((s : State) (w : Processor) → Runs shape (vp_of vp.old) s w.0
        → ruled s (Int w target vector) ≡ outcome_of result (put_vp s w.0 (vp_of vp.new))) }
{
    if quantity::HIGHEST_LEVEL < target.0 {
        return Answer::Refused(Refusal::LevelOutOfRange);
    }
    if (vector < quantity::FIRST_VECTOR) | (quantity::LAST_VECTOR < vector) {
        return Answer::Refused(Refusal::VectorOutOfRange);
    }
    if shape.max_level.0 < target.0 {
        return Answer::Refused(Refusal::AboveMaximum);
    }
    if !enabled_at(shape, vp, target) {
        return Answer::Refused(Refusal::NotEnabledOnProcessor);
    }
    let entered = one_if(interrupt::enters(shape, vp, target, vector));
    entry::interrupt(shape, vp, target, vector);
    Answer::Done(entered)
}

// ack: the actor takes its highest ready vector, which is pending no more. The value is the vector.
pub fn ack(shape: Shape, vp: &mut Record, mode: Mode) -> Answer
    ensures { ((s : State) (v : ℕ) → Runs shape (vp_of vp.old) s v
        → acted s v mode Ack ≡ outcome_of result (put_vp s v (vp_of vp.new))) }
{
    if quantity::is_user(mode) {
        return Answer::Refused(Refusal::UserMode);
    }
    let actor = active_of(vp);
    let Some(vector) = interrupt::highest_ready(shape, vp, actor) else {
        return Answer::Refused(Refusal::NoReadyVector);
    };
    if !has_bit(private_of(shape, vp, actor, RFLAGS), INTERRUPT_BIT) {
        return Answer::Refused(Refusal::InterruptFlagClear);
    }
    interrupt::set_pending(shape, vp, actor, vector, 0);
    Answer::Done(vector)
}
