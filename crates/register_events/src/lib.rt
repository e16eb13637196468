// The events on registers, the secure configuration and the TPR of the maker's own processor: rreg, wreg, secure, tpr (01, "Events").
// Each is given the processor's record, tests the conditions of its rule one after the other and leaves with the first that holds;
// only then the record changes. The last condition of rreg and wreg, 9, is that a level watches the register (02, request 6): that level
// is entered, reason 2, and the register keeps its value.
#![tactic(auto)]

ghost use Rattle.std.specs.Prelude.{◌≡◌, List, ℕ};
ghost use Rattle.model.specs.declared.answer.Answer.TheVariants.{Intercept};
ghost use Rattle.model.specs.declared.event.Action.TheVariants.{Secure, Rreg, Wreg, Tpr};
ghost use Rattle.model.specs.Entry.{enter, by_interrupt};
ghost use Rattle.model.specs.State.{State, partition as partition_in};
ghost use Rattle.model.specs.Step.{acted};
ghost use Rattle.model.specs.Updates.{put_vp};
ghost use Rattle.partition.specs.PartitionView.{partition_of};
ghost use Rattle.processor.specs.Record.{vp_of};
ghost use Rattle.promise.specs.Promise.{outcome_of, Runs};

use model::answer::{Answer, Refusal};
use model::machine::{BY_INTERRUPT, Shape};
use model::quantity;
use model::quantity::{Level, Mode};
use model::register::{CR0, LAST_REGISTER, PROTECTED_BIT};
use partition::config::secure_reserved_set;
use partition::level::{Levels, mbec_for};
use processor::interrupt::set_tpr;
use processor::record::{Record, active_of, enabled_at};
use processor::record_registers::{register_of, set_register};
use processor::secure::set_secure;
use watch::asking::{read_watcher, write_watcher};
use word::field::has_bit;
use word::register_word::RegisterWord;
use word::registers::SecureConfig;

// secure: the actor's word for a lower level is set.
pub fn secure(
    shape: Shape,
    levels: &Levels,
    vp: &mut Record,
    mode: Mode,
    target: Level,
    word: u64,
) -> Answer
    ensures { ((s : State) (v : ℕ) (masks : List ℕ)
        → Runs shape (vp_of vp.old) s v → partition_in s ≡ partition_of levels.now masks
        → acted s v mode (Secure target word) ≡ outcome_of result (put_vp s v (vp_of vp.new))) }
{
    if quantity::HIGHEST_LEVEL < target.0 {
        return Answer::Refused(Refusal::LevelOutOfRange);
    }
    if secure_reserved_set(word) {
        return Answer::Refused(Refusal::ReservedBits);
    }
    if quantity::is_user(mode) {
        return Answer::Refused(Refusal::UserMode);
    }
    if shape.max_level.0 < target.0 {
        return Answer::Refused(Refusal::AboveMaximum);
    }
    let actor = active_of(vp);
    if actor.0 <= target.0 {
        return Answer::Refused(Refusal::TargetNotBelow);
    }
    if !enabled_at(shape, vp, target) {
        return Answer::Refused(Refusal::NotEnabledOnProcessor);
    }
    let config = SecureConfig::unpack(word);
    if (config.mbec_enabled == 1) & !mbec_for(shape, levels, actor) {
        return Answer::Refused(Refusal::NoMbec);
    }
    set_secure(shape, vp, actor, target, word);
    Answer::Done(0)
}

// 9: the level that watches the register is entered, and nothing else changes.
fn intercept(shape: Shape, vp: &mut Record, receiver: Level) -> Answer
    ensures answer { result ≡ Intercept receiver }
    ensures entered { vp_of vp.new
        ≡ enter shape (vp_of vp.old) receiver.0 by_interrupt }
{
    entry::enter(shape, vp, receiver, BY_INTERRUPT);
    Answer::Intercept(receiver)
}

// rreg: the value is the register.
pub fn rreg(shape: Shape, vp: &mut Record, mode: Mode, target: Level, register: u64) -> Answer
    ensures { ((s : State) (v : ℕ) → Runs shape (vp_of vp.old) s v
        → acted s v mode (Rreg target register) ≡ outcome_of result (put_vp s v (vp_of vp.new))) }
{
    if quantity::HIGHEST_LEVEL < target.0 {
        return Answer::Refused(Refusal::LevelOutOfRange);
    }
    if LAST_REGISTER < register {
        return Answer::Refused(Refusal::NoSuchRegister);
    }
    if quantity::is_user(mode) {
        return Answer::Refused(Refusal::UserMode);
    }
    if shape.max_level.0 < target.0 {
        return Answer::Refused(Refusal::AboveMaximum);
    }
    let actor = active_of(vp);
    if actor.0 < target.0 {
        return Answer::Refused(Refusal::TargetAbove);
    }
    if !enabled_at(shape, vp, target) {
        return Answer::Refused(Refusal::NotEnabledOnProcessor);
    }
    if let Some(receiver) = read_watcher(shape, vp, target, register) {
        return intercept(shape, vp, receiver);
    }
    Answer::Done(register_of(shape, vp, target, register))
}

// wreg: the register gets the value.
pub fn wreg(
    shape: Shape,
    vp: &mut Record,
    mode: Mode,
    target: Level,
    register: u64,
    value: u64,
) -> Answer
    ensures { ((s : State) (v : ℕ) → Runs shape (vp_of vp.old) s v
        → acted s v mode (Wreg target register value) ≡ outcome_of result (put_vp s v (vp_of vp.new))) }
{
    if quantity::HIGHEST_LEVEL < target.0 {
        return Answer::Refused(Refusal::LevelOutOfRange);
    }
    if LAST_REGISTER < register {
        return Answer::Refused(Refusal::NoSuchRegister);
    }
    let real = !has_bit(value, PROTECTED_BIT);
    if (register == CR0) & (0 < target.0) & real {
        return Answer::Refused(Refusal::Cr0InRealMode);
    }
    if quantity::is_user(mode) {
        return Answer::Refused(Refusal::UserMode);
    }
    if shape.max_level.0 < target.0 {
        return Answer::Refused(Refusal::AboveMaximum);
    }
    let actor = active_of(vp);
    if actor.0 < target.0 {
        return Answer::Refused(Refusal::TargetAbove);
    }
    if !enabled_at(shape, vp, target) {
        return Answer::Refused(Refusal::NotEnabledOnProcessor);
    }
    if let Some(receiver) = write_watcher(shape, vp, target, register, value) {
        return intercept(shape, vp, receiver);
    }
    set_register(shape, vp, target, register, value);
    Answer::Done(0)
}

// tpr: sets the actor's own class.
pub fn tpr(shape: Shape, vp: &mut Record, mode: Mode, class: u64) -> Answer
    ensures { ((s : State) (v : ℕ) → Runs shape (vp_of vp.old) s v
        → acted s v mode (Tpr class) ≡ outcome_of result (put_vp s v (vp_of vp.new))) }
{
    if quantity::HIGHEST_CLASS < class {
        return Answer::Refused(Refusal::ClassOutOfRange);
    }
    if quantity::is_user(mode) {
        return Answer::Refused(Refusal::UserMode);
    }
    let actor = active_of(vp);
    set_tpr(shape, vp, actor, class);
    Answer::Done(0)
}
