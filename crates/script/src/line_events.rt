// The event that a word and its numbers say (01, "Events"; 02, request 6): the numbers of a line, in the order in which an event's fields are listed there.
ghost use Rattle.std.specs.Prelude.{◌≡◌};
ghost use Rattle.script.specs.EventWords.{action_of, event_of};

use crate::words::{ActionWord, Word};
use model::event::{Action, Event};
use model::quantity::{Level, Page, Processor};

// What a level does, by the word and the numbers after v and mode.
fn action(word: ActionWord, values: &[u64; 7]) -> Action
    ensures { result ≡ action_of word values.now }
{
    let third = values[2];
    let fourth = values[3];
    let fifth = values[4];
    let rsp = values[5];
    let cr0 = values[6];
    let length = third;
    let class = third;
    let page = Page(third);
    let target = Level(third);
    let mbec = fourth;
    let mask = fourth;
    let register = fourth;
    let value = fifth;
    match word {
        ActionWord::Enpart => Action::Enpart { target, mbec },
        ActionWord::Envp => Action::Envp {
            on: Processor(third),
            target: Level(fourth),
            rip: fifth,
            rsp,
            cr0,
        },
        ActionWord::Call => Action::Call { length },
        ActionWord::Ret => Action::Ret { length },
        ActionWord::Read => Action::Read { page },
        ActionWord::Write => Action::Write {
            page,
            value: fourth,
        },
        ActionWord::Fetch => Action::Fetch { page },
        ActionWord::Protect => Action::Protect { page, mask },
        ActionWord::Config => Action::Config {
            target,
            word: fourth,
        },
        ActionWord::Secure => Action::Secure {
            target,
            word: fourth,
        },
        ActionWord::Flush => Action::Flush,
        ActionWord::Rreg => Action::Rreg { target, register },
        ActionWord::Wreg => Action::Wreg {
            target,
            register,
            value,
        },
        ActionWord::Tpr => Action::Tpr { class },
        ActionWord::Ack => Action::Ack,
        ActionWord::Pstat => Action::Pstat,
        ActionWord::Vstat => Action::Vstat,
        ActionWord::Caps => Action::Caps,
        ActionWord::Cri => Action::Cri { word: third },
        ActionWord::Crm => Action::Crm {
            control_register: third,
            mask,
        },
    }
}

// The event of a word, from the first of these numbers on: as many as it takes.
pub fn event(word: Word, values: &[u64; 7]) -> Event
    ensures { result ≡ event_of word values.now }
{
    match word {
        Word::Made(action_word) => Event::Made {
            vp: Processor(values[0]),
            mode: values[1],
            action: action(action_word, values),
        },
        // int w g vector
        Word::Interrupt => Event::Int {
            on: Processor(values[0]),
            target: Level(values[1]),
            vector: values[2],
        },
    }
}
