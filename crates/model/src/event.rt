// The twenty-one events. One that a level makes has the processor on which that level is active, the mode (0 kernel, 1 user) and
// what the level does; one from outside has only what happens. A field holds the number as it was given: a number out of range
// is refused by the event's rule.
use crate::quantity::{Level, Page, Processor};

#[derive(Clone, Copy)]
pub enum Event {
    Made {
        vp: Processor,
        mode: u64,
        action: Action,
    },
    // From outside: no level makes it.
    Int {
        on: Processor,
        target: Level,
        vector: u64,
    },
}

#[derive(Clone, Copy)]
pub enum Action {
    Enpart {
        target: Level,
        mbec: u64,
    },
    Envp {
        on: Processor,
        target: Level,
        rip: u64,
        rsp: u64,
        cr0: u64,
    },
    Call {
        length: u64,
    },
    Ret {
        length: u64,
    },
    Read {
        page: Page,
    },
    Write {
        page: Page,
        value: u64,
    },
    Fetch {
        page: Page,
    },
    Protect {
        page: Page,
        mask: u64,
    },
    Config {
        target: Level,
        word: u64,
    },
    Secure {
        target: Level,
        word: u64,
    },
    Flush,
    Rreg {
        target: Level,
        register: u64,
    },
    Wreg {
        target: Level,
        register: u64,
        value: u64,
    },
    Tpr {
        class: u64,
    },
    Ack,
    Pstat,
    Vstat,
    Caps,
    // The actor's own intercept control word, and its mask for writes of control register 0 or 4 (02, request 6).
    Cri {
        word: u64,
    },
    Crm {
        control_register: u64,
        mask: u64,
    },
}
