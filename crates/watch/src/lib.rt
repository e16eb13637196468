// Which accesses to its registers a level's higher levels are told of (02, request 6): here the events cri and crm, by which a level says what
// it asks for. Each is given the processor's record, tests the conditions of its rule one after the other and leaves with the first that
// holds; only then the record changes.
#![tactic(auto)]

ghost use Rattle.std.specs.Prelude.{◌≡◌, ℕ};
ghost use Rattle.model.specs.declared.event.Action.TheVariants.{Cri, Crm};
ghost use Rattle.model.specs.State.{State};
ghost use Rattle.model.specs.Step.{acted};
ghost use Rattle.model.specs.Updates.{put_vp, with_intercepts, with_cr_mask};
ghost use Rattle.processor.specs.Record.{vp_of};
ghost use Rattle.promise.specs.Promise.{outcome_of, Runs};

use model::answer::{Answer, Refusal};
use model::machine::{Shape, Watch};
use model::quantity;
use model::quantity::Mode;
use processor::record::{Record, active_of};
use processor::watch::{intercept_reserved_set, set_watch, watch_of};

pub mod asking; // which level is told of an access to a register
mod table; // the table that ties each bit to a register

// The control registers that crm has masks for: CR0 and CR4.
const MASK_OF_CR0: u64 = 0;

const MASK_OF_CR4: u64 = 4;

// What a level asks for, with another intercept control word.
fn with_intercepts(watch: Watch, word: u64) -> Watch
    ensures { result ≡ with_intercepts watch word }
{
    Watch {
        intercepts: word,
        ..watch
    }
}

// The same with another mask, for CR4 where `four` says so, and else for CR0.
fn with_mask(watch: Watch, four: bool, mask: u64) -> Watch
    ensures { result ≡ with_cr_mask watch four mask }
{
    if four {
        Watch {
            cr4_mask: mask,
            ..watch
        }
    } else {
        Watch {
            cr0_mask: mask,
            ..watch
        }
    }
}

// cri: sets the actor's own intercept control word.
pub fn cri(shape: Shape, vp: &mut Record, mode: Mode, word: u64) -> Answer
    ensures { ((s : State) (v : ℕ) → Runs shape (vp_of vp.old) s v
        → acted s v mode (Cri word) ≡ outcome_of result (put_vp s v (vp_of vp.new))) }
{
    if intercept_reserved_set(word) {
        return Answer::Refused(Refusal::ReservedBits);
    }
    if quantity::is_user(mode) {
        return Answer::Refused(Refusal::UserMode);
    }
    let actor = active_of(vp);
    if actor.0 == 0 {
        return Answer::Refused(Refusal::WatchAtLevelZero);
    }
    let watch = watch_of(shape, vp, actor);
    set_watch(shape, vp, actor, with_intercepts(watch, word));
    Answer::Done(0)
}

// crm: sets the actor's own mask for writes of control register 0 or 4.
pub fn crm(shape: Shape, vp: &mut Record, mode: Mode, control_register: u64, mask: u64) -> Answer
    ensures { ((s : State) (v : ℕ) → Runs shape (vp_of vp.old) s v
        → acted s v mode (Crm control_register mask) ≡ outcome_of result (put_vp s v (vp_of vp.new))) }
{
    let four = control_register == MASK_OF_CR4;
    if !((control_register == MASK_OF_CR0) | four) {
        return Answer::Refused(Refusal::NoSuchMask);
    }
    if quantity::is_user(mode) {
        return Answer::Refused(Refusal::UserMode);
    }
    let actor = active_of(vp);
    if actor.0 == 0 {
        return Answer::Refused(Refusal::WatchAtLevelZero);
    }
    let watch = watch_of(shape, vp, actor);
    set_watch(shape, vp, actor, with_mask(watch, four, mask));
    Answer::Done(0)
}
