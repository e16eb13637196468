// The name of each refusal as bytes: a tab, the name (reason_name of specs/ReasonNames.antt), and a line feed.
ghost use Rattle.std.specs.Prelude.{[], ◌∷◌, ◌++◌, ◌≡◌};
ghost use Rattle.reason.specs.ReasonNames.{reason_name};
ghost use Rattle.script.specs.LineForms.{tab};
ghost use Rattle.script.specs.ListingLine.{line_feed};

use model::answer::Refusal;

// The name of a refusal, after a tab and with the line feed that ends the line.
#[tactic(auto, unfolding(crate::specs::ReasonNames::reason_name))]
pub fn name_of(refusal: Refusal) -> &'static [u8]
    ensures { result.now ≡ tab ∷ reason_name refusal ++ line_feed ∷ [] }
{
    match refusal {
        Refusal::LineTooLong => b"\ttoo-long\n",
        Refusal::UnknownWord => b"\tunknown-word\n",
        Refusal::WrongFieldCount => b"\tfield-count\n",
        Refusal::NotANumber => b"\tnot-a-number\n",
        Refusal::NotWellFormed => b"\tstate-not-well-formed\n",
        Refusal::NoSuchProcessor => b"\tno-such-processor\n",
        Refusal::NoSuchTarget => b"\tno-such-target\n",
        Refusal::NoSuchMode => b"\tmode-above-1\n",
        Refusal::LevelOutOfRange => b"\tlevel-above-15\n",
        Refusal::MbecOutOfRange => b"\tmbec-flag-above-1\n",
        Refusal::LengthOutOfRange => b"\tlength-not-1-to-15\n",
        Refusal::ClassOutOfRange => b"\tclass-above-15\n",
        Refusal::VectorOutOfRange => b"\tvector-not-16-to-255\n",
        Refusal::NoSuchRegister => b"\tregister-above-31\n",
        Refusal::NoSuchPage => b"\tno-such-page\n",
        Refusal::InvalidMask => b"\tmask-invalid\n",
        Refusal::ReservedBits => b"\treserved-bit-set\n",
        Refusal::Cr0InRealMode => b"\tcr0-bit-0-clear\n",
        Refusal::NoSuchMask => b"\tmask-not-cr0-or-cr4\n",
        Refusal::UserMode => b"\tuser-mode\n",
        Refusal::CallInRealMode => b"\tcall-in-real-mode\n",
        Refusal::RcxNotZero => b"\trcx-not-zero\n",
        Refusal::NoHigherLevel => b"\tno-higher-level\n",
        Refusal::ReturnAtLevelZero => b"\treturn-at-level-0\n",
        Refusal::RcxAboveOne => b"\trcx-above-1\n",
        Refusal::LevelZero => b"\ttarget-level-0\n",
        Refusal::AboveMaximum => b"\tlevel-above-maximum\n",
        Refusal::TargetNotAbove => b"\ttarget-not-above-actor\n",
        Refusal::TargetGuarded => b"\ttarget-guarded\n",
        Refusal::TargetAbove => b"\ttarget-above-actor\n",
        Refusal::TargetNotBelow => b"\ttarget-not-below-actor\n",
        Refusal::ProtectAtLevelZero => b"\tprotect-at-level-0\n",
        Refusal::WatchAtLevelZero => b"\twatch-at-level-0\n",
        Refusal::EnabledForPartition => b"\tenabled-for-partition\n",
        Refusal::EnabledOnProcessor => b"\tenabled-on-processor\n",
        Refusal::NotEnabledForPartition => b"\tnot-enabled-for-partition\n",
        Refusal::NotEnabledOnProcessor => b"\tnot-enabled-on-processor\n",
        Refusal::ProtectionsOff => b"\tprotections-off\n",
        Refusal::NoMbec => b"\tno-mbec\n",
        Refusal::ProtectionsCleared => b"\tprotections-turned-off\n",
        Refusal::DefaultMaskChanged => b"\tdefault-mask-changed\n",
        Refusal::KernelOnlyExecute => b"\tkmx-without-umx\n",
        Refusal::NoReceiver => b"\tno-receiver\n",
        Refusal::HostDenies => b"\thost-denies\n",
        Refusal::TlbLocked => b"\tflush-held\n",
        Refusal::NoReadyVector => b"\tno-vector-ready\n",
        Refusal::InterruptFlagClear => b"\tinterrupt-flag-clear\n",
    }
}
