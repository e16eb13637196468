// One event on a whole machine (01, "Events"). What the machine holds of levels, pages and processors is lent and changed in place,
// as the words of the pages are: no event copies more than it changes. `lent` of crate `state` says which state the parts are.
#![tactic(auto)]

ghost use Rattle.std.specs.Prelude.{true, cond, List, ◌≡◌, ℕ, ◌≤◌, length};
ghost use Rattle.word.specs.Field.{bit};
ghost use Rattle.model.specs.Bounded.{any};
ghost use Rattle.model.specs.Events.{locked as locked_for};
ghost use Rattle.model.specs.State.{enabled_at, enabled_anywhere, is_index, no_vp, secure_of, lock_bit};
ghost use Rattle.model.specs.Step.{acted as acted_of, ruled as ruled_of, step as step_of};
ghost use Rattle.processor.specs.Record.{vp_of};
ghost use Rattle.promise.specs.Promise.{outcome_of};
ghost use Rattle.state.specs.Lent.{lent, state_of};
ghost use Rattle.step.specs.Stepped.{step_if};

use access_events::Request;
use entry_events::Target;
use level_events::{config, enpart, protect};
use model::answer::{Answer, Refusal};
use model::event::{Action, Event};
use model::machine::{Setup, Shape};
use model::quantity::{Access, Level, Mode, Processor, mode_of};
use processor::control::InitialContext;
use processor::record::{Record, active_of, enabled_at};
use processor::secure::holds_lock;
use register_events::{rreg, secure, tpr, wreg};
use state::parts::Parts;
use state::well_formed_state::well_formed;
use watch::{cri, crm};

// What a level does: the processor on which it is active, the mode, and the action.
#[derive(Clone, Copy)]
struct Operation {
    vp: Processor,
    mode: Mode,
    action: Action,
}

// Is it the index of one of the machine's processors?
fn is_processor(processors: u64, vp: Processor) -> bool
    ensures { result ≡ is_index processors vp.0 }
{
    (vp.0 < processors) & (vp.0 < 4)
}

// How many records are lent. A proof that stores into one asks that there are four.
fn record_count(vps: &[Record; 4]) -> usize
    ensures { length vps.now ≡ 4 }
{
    let all: &[Record] = vps;
    all.len()
}

// Does a level hold a TLB lock on this one, if there is a processor with that record?
fn lock_at(there: bool, shape: Shape, vp: &Record, level: Level) -> bool
    ensures { result
        ≡ any 4 (λ t. bit (secure_of shape (cond there (vp_of vp.now) no_vp) t level.0) lock_bit) }
{
    let held = holds_lock(shape, vp, level);
    there & held
}

// flush: does a level hold a TLB lock on this one on any processor?
fn locked(setup: Setup, vps: &[Record; 4], level: Level) -> bool
    ensures { ((levels masks words : List ℕ)
        → locked_for (lent setup levels masks vps.now words) level.0 ≡ result) }
{
    (0..4).any(|v| lock_at((v as u64) < setup.processors, setup.shape, &vps[v], level))
}

// Is the level enabled on the processor with that record, if there is one?
fn enabled_there(there: bool, shape: Shape, vp: &Record, level: Level) -> bool
    ensures { result ≡ enabled_at shape (cond there (vp_of vp.now) no_vp) level.0 }
{
    let enabled = enabled_at(shape, vp, level);
    there & enabled
}

// envp: is the level enabled on any processor?
fn enabled_anywhere(setup: Setup, vps: &[Record; 4], level: Level) -> bool
    ensures { ((levels masks words : List ℕ)
        → enabled_anywhere (lent setup levels masks vps.now words) level.0 ≡ result) }
{
    (0..4).any(|v| enabled_there((v as u64) < setup.processors, setup.shape, &vps[v], level))
}

// The rule of what a level does on a processor that is there.
fn acted(setup: Setup, parts: &mut Parts, words: &mut [u64], operation: Operation) -> Answer
    requires { (setup.processors ≤ 4) × (is_index setup.processors operation.vp.0 ≡ true) }
    ensures { outcome_of result
        (state_of setup parts.new words.new)
        ≡ acted_of (state_of setup parts.old words.old)
        operation.vp.0 operation.mode operation.action }
{
    let Parts { levels, masks, vps } = parts;
    let shape = setup.shape;
    let mode = operation.mode;
    let action = operation.action;
    record_count(vps);
    let i = operation.vp.0 as usize;
    let actor = active_of(&vps[i]);
    match action {
        Action::Enpart { target, mbec } => enpart(shape, levels, actor, mode, target, mbec),
        Action::Envp {
            on,
            target,
            rip,
            rsp,
            cr0,
        } => {
            if !is_processor(setup.processors, on) {
                return Answer::Refused(Refusal::NoSuchTarget);
            }
            let elsewhere = enabled_anywhere(setup, vps, target);
            let j = on.0 as usize;
            let target = Target {
                level: target,
                elsewhere,
            };
            let initial = InitialContext { rip, rsp, cr0 };
            entry_events::envp(shape, levels, &mut vps[j], actor, mode, target, initial)
        }
        Action::Call { length } => entry_events::call(shape, &mut vps[i], mode, length),
        Action::Ret { length } => entry_events::ret(shape, &mut vps[i], mode, length),
        Action::Read { page } => {
            let request = Request {
                mode,
                page,
                access: Access::Read,
            };
            access_events::access(setup, &mut vps[i], levels, masks, words, request, 0)
        }
        Action::Write { page, value } => {
            let request = Request {
                mode,
                page,
                access: Access::Write,
            };
            access_events::access(setup, &mut vps[i], levels, masks, words, request, value)
        }
        Action::Fetch { page } => {
            let request = Request {
                mode,
                page,
                access: Access::Fetch,
            };
            access_events::access(setup, &mut vps[i], levels, masks, words, request, 0)
        }
        Action::Protect { page, mask } => protect(setup, levels, masks, actor, mode, page, mask),
        Action::Config { target, word } => config(setup, levels, masks, actor, mode, target, word),
        Action::Secure { target, word } => secure(shape, levels, &mut vps[i], mode, target, word),
        Action::Flush => {
            let held = locked(setup, vps, actor);
            status_events::flush(held, mode)
        }
        Action::Rreg { target, register } => rreg(shape, &mut vps[i], mode, target, register),
        Action::Wreg {
            target,
            register,
            value,
        } => wreg(shape, &mut vps[i], mode, target, register, value),
        Action::Tpr { class } => tpr(shape, &mut vps[i], mode, class),
        Action::Ack => entry_events::ack(shape, &mut vps[i], mode),
        Action::Pstat => status_events::pstat(shape, levels, mode),
        Action::Vstat => {
            let vp = &mut vps[i];
            status_events::vstat(shape, vp, mode)
        }
        Action::Caps => status_events::caps(shape, mode),
        Action::Cri { word } => cri(shape, &mut vps[i], mode, word),
        Action::Crm {
            control_register,
            mask,
        } => crm(shape, &mut vps[i], mode, control_register, mask),
    }
}

// The rule of an event. Its processor and its mode are looked at here, once for all events.
fn ruled(setup: Setup, parts: &mut Parts, words: &mut [u64], event: Event) -> Answer
    requires { setup.processors ≤ 4 }
    ensures { outcome_of result
        (state_of setup parts.new words.new)
        ≡ ruled_of
        (state_of setup parts.old words.old) event }
{
    match event {
        Event::Made { vp, mode, action } => {
            if !is_processor(setup.processors, vp) {
                return Answer::Refused(Refusal::NoSuchProcessor);
            }
            if 1 < mode {
                return Answer::Refused(Refusal::NoSuchMode);
            }
            let mode = mode_of(mode);
            acted(setup, parts, words, Operation { vp, mode, action })
        }
        Event::Int { on, target, vector } => {
            if !is_processor(setup.processors, on) {
                return Answer::Refused(Refusal::NoSuchTarget);
            }
            record_count(&parts.vps);
            let j = on.0 as usize;
            entry_events::int(setup.shape, &mut parts.vps[j], target, vector)
        }
    }
}

// One event on a state of which it is known whether it is well formed. One that is not, and one with more than four processors, gets
// answer 1, and nothing changes. A run that begins well formed stays so: whoever makes one asks once.
pub fn step_if(
    formed: bool,
    setup: Setup,
    parts: &mut Parts,
    words: &mut [u64],
    event: Event,
) -> Answer
    ensures { outcome_of result
        (state_of setup parts.new words.new)
        ≡ step_if formed
        (state_of setup parts.old words.old) event }
{
    if formed {
        if setup.processors <= 4 {
            return ruled(setup, parts, words, event);
        }
    }
    Answer::Refused(Refusal::NotWellFormed)
}

// One event on a machine with the words of its pages. A state that is not well formed gets answer 1, and nothing changes.
pub fn step(setup: Setup, parts: &mut Parts, words: &mut [u64], event: Event) -> Answer
    ensures { outcome_of result
        (state_of setup parts.new words.new)
        ≡ step_of
        (state_of setup parts.old words.old) event }
{
    let formed = well_formed(setup, parts, words);
    step_if(formed, setup, parts, words, event)
}
