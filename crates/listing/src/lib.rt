// What an event is answered, as the listing shows it (01, "Script and listing"): the processor that the level column is about, and the
// numbers of an answer. Every function takes any arguments.
#![tactic(auto)]

ghost use Rattle.std.specs.Prelude.{◌≡◌};
ghost use Rattle.model.specs.Answers.{refusal_number};
ghost use Rattle.model.specs.LevelColumn.{processor_of};
ghost use Rattle.listing.specs.Answer.{level_on, level_shown, shown_of};

use model::answer::{Answer, Refusal};
use model::event::Event;
use model::quantity::{Level, Processor};

// The processor that the level column is about: v, or w where no v is named.
pub fn processor_of(event: Event) -> Processor
    ensures { result ≡ processor_of event }
{
    match event {
        Event::Made { vp: processor, .. } | Event::Int { on: processor, .. } => processor,
    }
}

// The number of a refusal.
pub fn refusal_number(refusal: Refusal) -> u64
    ensures { result ≡ refusal_number refusal }
{
    match refusal {
        Refusal::LineTooLong
        | Refusal::UnknownWord
        | Refusal::WrongFieldCount
        | Refusal::NotANumber
        | Refusal::NotWellFormed
        | Refusal::NoSuchProcessor
        | Refusal::NoSuchTarget
        | Refusal::NoSuchMode
        | Refusal::LevelOutOfRange
        | Refusal::MbecOutOfRange
        | Refusal::LengthOutOfRange
        | Refusal::ClassOutOfRange
        | Refusal::VectorOutOfRange
        | Refusal::NoSuchRegister
        | Refusal::NoSuchPage
        | Refusal::InvalidMask
        | Refusal::ReservedBits
        | Refusal::Cr0InRealMode
        | Refusal::NoSuchMask => 1,
        Refusal::UserMode
        | Refusal::CallInRealMode
        | Refusal::RcxNotZero
        | Refusal::NoHigherLevel
        | Refusal::ReturnAtLevelZero
        | Refusal::RcxAboveOne => 2,
        Refusal::LevelZero | Refusal::AboveMaximum => 3,
        Refusal::TargetNotAbove
        | Refusal::TargetGuarded
        | Refusal::TargetAbove
        | Refusal::TargetNotBelow
        | Refusal::ProtectAtLevelZero
        | Refusal::WatchAtLevelZero => 4,
        Refusal::EnabledForPartition | Refusal::EnabledOnProcessor => 5,
        Refusal::NotEnabledForPartition
        | Refusal::NotEnabledOnProcessor
        | Refusal::ProtectionsOff
        | Refusal::NoMbec => 6,
        Refusal::ProtectionsCleared | Refusal::DefaultMaskChanged => 7,
        Refusal::KernelOnlyExecute => 8,
        Refusal::NoReceiver => 10,
        Refusal::HostDenies => 11,
        Refusal::TlbLocked => 12,
        Refusal::NoReadyVector | Refusal::InterruptFlagClear => 13,
    }
}

// What the listing shows of an answer: its number, its value, and a level.
#[derive(Clone, Copy)]
pub struct Shown {
    pub answer: u64,
    pub value: u64,
    pub level: Level,
}

// The level column for an answer with this number: the definition goes by the number too.
fn level_shown(number: u64, active: Level) -> Level
    ensures { result ≡ level_shown number active }
{
    if number == 1 { Level(0) } else { active }
}

// What is shown of an answer, where `active` is the level now active.
pub fn show(answer: Answer, active: Level) -> Shown
    ensures { result ≡ shown_of answer active }
{
    match answer {
        Answer::Done(value) => Shown {
            answer: 0,
            value,
            level: active,
        },
        Answer::Refused(refusal) => {
            let number = refusal_number(refusal);
            Shown {
                answer: number,
                value: 0,
                level: level_shown(number, active),
            }
        }
        Answer::Intercept(receiver) => Shown {
            answer: 9,
            value: receiver.0,
            level: active,
        },
    }
}

// The level that is active on a processor, if there is such a processor: `active` is what the machine holds in its place. There are at most four.
pub fn level_on(vp: Processor, processors: u64, active: Level) -> Level
    ensures { result ≡ level_on vp processors active }
{
    if (vp.0 < processors) & (vp.0 < 4) {
        return active;
    }
    Level(0)
}
