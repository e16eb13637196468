// Lockstep: a machine in words that the caller owns, opened by a first line, and one event line at a time on it (01, "Script and listing").
// So other code can run beside the model event by event. Every public function takes any arguments.
#![tactic(auto)]

ghost use Rattle.std.specs.Prelude.{true, ◌≡◌, ◌≤◌, length, Err, Ok};
ghost use Rattle.std.proofs.lemmas.List.Edits.{sets};
ghost use Rattle.lockstep.specs.Lockstep.{opened, shown_after, shown_by, shown_words};
ghost use Rattle.lockstep.specs.Lockstep.{stepped, stepped_by, stepped_in};
ghost use Rattle.lockstep.specs.LockstepParts.{AnsweredIn, OpenedAs, reply_of};
ghost use Rattle.lockstep.specs.MachineWords.{machine_words, state_in};
ghost use Rattle.model.specs.Fresh.{admissible as admissible_line};
ghost use Rattle.script.specs.EventForms.{line_event};

use crate::machine_words::WORDS;
use crate::reason_number::{NO_REASON, NOT_ADMISSIBLE, SHORT_SLICE, reason_number, refusal_reason};
use model::answer::Answer;
use model::event::Event;
use model::machine::FirstLine;
use model::quantity::Level;
use processor::record::active_of;
use state::fresh;
use state::parts::Parts;

mod machine_words; // the parts of a machine in words
pub mod reason_number; // the numbers of the reasons

// How many words a machine takes, and how many words a step shows.
pub const MACHINE_WORDS: usize = machine_words::MACHINE_WORDS;

pub const SHOWN_WORDS: usize = 3;

const VALUE: usize = 0;

const LEVEL: usize = 1;

const REASON: usize = 2;

// What a line is answered: number, value and level as the listing shows them, and the number of the reason.
#[derive(Clone, Copy)]
pub(crate) struct Reply {
    pub answer: u64,
    pub value: u64,
    pub level: Level,
    pub reason: u64,
}

// Makes the fresh machine of a first line in the words.
fn open_first(machine: &mut [u64], first: FirstLine)
    requires { (machine_words ≤ length machine.old) × (admissible_line first ≡ true) }
    ensures { OpenedAs first machine.old machine.new }
{
    machine_words::store_setup(machine, first);
    let zeros = [0u64; 64];
    let pages = first.pages as usize;
    machine_words::store_words(machine, WORDS, &zeros[..pages]);
    let parts = Parts {
        levels: fresh::fresh_levels(),
        masks: fresh::fresh_masks(),
        vps: [fresh::fresh_record(); 4],
    };
    machine_words::store_parts(machine, &parts);
}

// Makes the fresh machine of a first line in the words of `machine`. Returns 0, or the number of the reason why there is none: there are fewer
// than MACHINE_WORDS words, the line is malformed, or its numbers are not admissible. Then no word changes.
pub fn open(line: &[u8], machine: &mut [u64]) -> u64
    ensures reason { result ≡ (opened line.now machine.old).reason }
    ensures words { machine.new ≡ (opened line.now machine.old).words }
    ensures state { state_in machine.new ≡ (opened line.now machine.old).state }
{
    if machine.len() < MACHINE_WORDS {
        return SHORT_SLICE;
    }
    let start = script::parse_first(line);
    match start {
        Err(refusal) => refusal_reason(refusal),
        Ok(first) => {
            if !fresh::admissible(first) {
                return NOT_ADMISSIBLE;
            }
            open_first(machine, first);
            NO_REASON
        }
    }
}

// What is told of an answer, where this level is active.
fn told(answer: Answer, active: Level) -> Reply
    ensures { result ≡ reply_of answer active }
{
    let shown = listing::show(answer, active);
    let level = shown.level;
    Reply {
        answer: shown.answer,
        value: shown.value,
        level,
        reason: reason_number(answer),
    }
}

// Answers an event on the words of a machine. They are the caller's: whether their state is well formed is asked at every step.
fn answer_event(machine: &mut [u64], event: Event) -> Reply
    requires { machine_words ≤ length machine.old }
    ensures { AnsweredIn (stepped_by machine.old (Ok event)) result machine.new }
{
    let setup = machine_words::setup_in(machine);
    let mut parts = machine_words::parts_in(machine);
    let end = machine_words::words_end(machine);
    let words = &mut machine[WORDS..end];
    let answer = step::step(setup, &mut parts, words, event);
    machine_words::store_parts(machine, &parts);
    let vp = listing::processor_of(event);
    // The place for vp, which counts only where there is such a processor.
    let place = (vp.0 % 4) as usize;
    let active = listing::level_on(vp, setup.processors, active_of(&parts.vps[place]));
    told(answer, active)
}

// Answers a line on the words of a machine.
fn answer_line(machine: &mut [u64], line: &[u8]) -> Reply
    requires { machine_words ≤ length machine.old }
    ensures { AnsweredIn (stepped_by machine.old (line_event line.now)) result
        machine.new }
{
    let parsed = script::parse(line);
    match parsed {
        Ok(event) => answer_event(machine, event),
        Err(refusal) => told(Answer::Refused(refusal), Level(0)),
    }
}

// The same on any words.
#[tactic(auto, unfolding(crate::specs::Lockstep::stepped_in))]
fn answer_words(machine: &mut [u64], line: &[u8]) -> Reply
    ensures { AnsweredIn (stepped_in machine.old line.now) result machine.new }
{
    if machine.len() < MACHINE_WORDS {
        return Reply {
            answer: 1,
            value: 0,
            level: Level(0),
            reason: SHORT_SLICE,
        };
    }
    answer_line(machine, line)
}

// Stores what is shown of a reply.
fn store_shown(shown: &mut [u64], reply: Reply)
    requires { shown_words ≤ length shown.old }
    ensures { shown.new ≡ sets shown.old 0 (shown_by reply) }
{
    shown[VALUE] = reply.value;
    shown[LEVEL] = reply.level.0;
    shown[REASON] = reply.reason;
}

// One line after the first on the words of a machine. Returns the number of the answer; `shown` gets its value, the level that is now active
// on the processor that the line names, and the number of the reason. Where the machine has fewer than MACHINE_WORDS words or `shown` fewer than
// SHOWN_WORDS the answer is 1 and no word of the machine changes.
pub fn step(machine: &mut [u64], line: &[u8], shown: &mut [u64]) -> u64
    ensures answer { result
        ≡ (stepped machine.old line.now shown.old).reply.answer }
    ensures words { machine.new
        ≡ (stepped machine.old line.now shown.old).words }
    ensures state { state_in machine.new
        ≡ (stepped machine.old line.now shown.old).state }
    ensures shown { shown.new
        ≡ shown_after machine.old line.now shown.old }
{
    if shown.len() < SHOWN_WORDS {
        return 1;
    }
    let reply = answer_words(machine, line);
    store_shown(shown, reply);
    reply.answer
}
