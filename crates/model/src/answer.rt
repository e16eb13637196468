// What an event is answered. specs/Answers.antt gives the number and the value that a listing shows for each case.
use crate::quantity::Level;
// Three kinds side by side, as the rules list them: with `Result` an intercept would stand among the values that an event gives.
#[derive(Clone, Copy, PartialEq, Eq)]
pub enum Answer {
    // The event took place; its value.
    Done(u64),
    // Nothing changed.
    Refused(Refusal),
    // The level was entered on the maker's processor and nothing else changed.
    Intercept(Level),
}

// A case for each condition that 01 and the requests of 02 state; specs/Answers.antt has the number of each.
#[derive(Clone, Copy, PartialEq, Eq)]
pub enum Refusal {
    // a line above 256 bytes
    LineTooLong,
    // a line whose first field is no event's word
    UnknownWord,
    // a line with another number of fields than its event has
    WrongFieldCount,
    // a field that is no decimal number from 0 to 2^64-1
    NotANumber,
    // the state is not well formed
    NotWellFormed,
    // v is not one of the processors
    NoSuchProcessor,
    // w is not one of the processors
    NoSuchTarget,
    // the mode is neither 0 nor 1
    NoSuchMode,
    // a level above 15
    LevelOutOfRange,
    // an MBEC flag that is neither 0 nor 1
    MbecOutOfRange,
    // an instruction's length that is not one of 1 to 15
    LengthOutOfRange,
    // a TPR class above 15
    ClassOutOfRange,
    // a vector that is not one of 16 to 255
    VectorOutOfRange,
    // a register above 31
    NoSuchRegister,
    // p is not one of the pages
    NoSuchPage,
    // a mask that is neither 0 nor has Read
    InvalidMask,
    // a reserved bit of a configuration word, or of the intercept control word, is set
    ReservedBits,
    // a value for CR0 with bit 0 clear, for a level above 0
    Cr0InRealMode,
    // crm: a mask for neither CR0 nor CR4
    NoSuchMask,
    // user mode for anything but read, write, fetch
    UserMode,
    // call: the actor is in real mode, its CR0 bit 0 is clear
    CallInRealMode,
    // call: RCX is not 0
    RcxNotZero,
    // call: no higher level is enabled on the processor
    NoHigherLevel,
    // ret: level 0 is active
    ReturnAtLevelZero,
    // ret: RCX is above 1
    RcxAboveOne,
    // level 0 where a level above 0 is needed
    LevelZero,
    // a level above M
    AboveMaximum,
    // enpart, and envp of a target that is enabled on no processor: the target is not above the actor
    TargetNotAbove,
    // envp: the target is enabled on some processor, and the actor is below it
    TargetGuarded,
    // config, rreg, wreg: the target is above the actor
    TargetAbove,
    // secure: the target is not below the actor
    TargetNotBelow,
    // protect: level 0 is active
    ProtectAtLevelZero,
    // cri, crm: level 0 is active
    WatchAtLevelZero,
    // enpart: the target is enabled for the partition
    EnabledForPartition,
    // envp: the target is enabled on the processor
    EnabledOnProcessor,
    // the target is not enabled for the partition
    NotEnabledForPartition,
    // the target is not enabled on the processor
    NotEnabledOnProcessor,
    // protect: the actor's protections are off
    ProtectionsOff,
    // secure: the partition has no MBEC for the actor
    NoMbec,
    // config: protections cannot be turned off
    ProtectionsCleared,
    // config: the default mask cannot be changed
    DefaultMaskChanged,
    // KMX without UMX where the partition has MBEC for the level
    KernelOnlyExecute,
    // a level denies, but no denying level is enabled on this processor
    NoReceiver,
    // no level denies, the host mask does
    HostDenies,
    // flush: a level above the actor holds a TLB lock on it
    TlbLocked,
    // ack: no vector is ready
    NoReadyVector,
    // ack: RFLAGS bit 9 is clear
    InterruptFlagClear,
}
