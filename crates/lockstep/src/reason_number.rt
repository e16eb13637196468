// The numbers of the reasons for which a line gets its answer: one for each condition of 01. A number once given stays; a condition that is
// added gets the next. include/xalevinda.h has the same table.
ghost use Rattle.std.specs.Prelude.{◌≡◌};
ghost use Rattle.lockstep.specs.ReasonNumbers.{reason_number, refusal_reason};

use model::answer::{Answer, Refusal};

// What is no refusal of the model: the event took place, or is intercepted; a slice is too short; the numbers of a first line are not
// admissible.
pub const NO_REASON: u64 = 0;

pub const INTERCEPTED: u64 = 1;

pub const SHORT_SLICE: u64 = 2;

pub const NOT_ADMISSIBLE: u64 = 3;

// The number of a refusal.
#[tactic(auto, unfolding(crate::specs::ReasonNumbers::refusal_reason))]
pub fn refusal_reason(refusal: Refusal) -> u64
    ensures { result ≡ refusal_reason refusal }
{
    match refusal {
        Refusal::LineTooLong => 16,
        Refusal::UnknownWord => 17,
        Refusal::WrongFieldCount => 18,
        Refusal::NotANumber => 19,
        Refusal::NotWellFormed => 20,
        Refusal::NoSuchProcessor => 21,
        Refusal::NoSuchTarget => 22,
        Refusal::NoSuchMode => 23,
        Refusal::LevelOutOfRange => 24,
        Refusal::MbecOutOfRange => 25,
        Refusal::LengthOutOfRange => 26,
        Refusal::ClassOutOfRange => 27,
        Refusal::VectorOutOfRange => 28,
        Refusal::NoSuchRegister => 29,
        Refusal::NoSuchPage => 30,
        Refusal::InvalidMask => 31,
        Refusal::ReservedBits => 32,
        Refusal::Cr0InRealMode => 33,
        Refusal::UserMode => 34,
        Refusal::CallInRealMode => 35,
        Refusal::RcxNotZero => 36,
        Refusal::NoHigherLevel => 37,
        Refusal::ReturnAtLevelZero => 38,
        Refusal::RcxAboveOne => 39,
        Refusal::LevelZero => 40,
        Refusal::AboveMaximum => 41,
        Refusal::TargetNotAbove => 42,
        Refusal::TargetAbove => 43,
        Refusal::TargetNotBelow => 44,
        Refusal::ProtectAtLevelZero => 45,
        Refusal::EnabledForPartition => 46,
        Refusal::EnabledOnProcessor => 47,
        Refusal::NotEnabledForPartition => 48,
        Refusal::NotEnabledOnProcessor => 49,
        Refusal::ProtectionsOff => 50,
        Refusal::NoMbec => 51,
        Refusal::ProtectionsCleared => 52,
        Refusal::DefaultMaskChanged => 53,
        Refusal::KernelOnlyExecute => 54,
        Refusal::NoReceiver => 55,
        Refusal::HostDenies => 56,
        Refusal::TlbLocked => 57,
        Refusal::NoReadyVector => 58,
        Refusal::InterruptFlagClear => 59,
        Refusal::TargetGuarded => 60,
        Refusal::NoSuchMask => 61,
        Refusal::WatchAtLevelZero => 62,
    }
}

// The number of the reason for an answer.
pub fn reason_number(answer: Answer) -> u64
    ensures { result ≡ reason_number answer }
{
    match answer {
        Answer::Done(_) => NO_REASON,
        Answer::Refused(refusal) => refusal_reason(refusal),
        Answer::Intercept(_) => INTERCEPTED,
    }
}
