// The program `save` (02, request 2): reads a script from standard input and writes the records of the state after it to standard output; no
// listing. A bad first line, or an empty input, gives the refusal line. Given the names of files, it writes the records of each, from two
// files on under the file's name; the name - stands for standard input. Where something failed the status is 1. `main` has no contract: what
// the arguments and the files hold is open. `shell::run` says what becomes of it.
#![tactic(auto)]

ghost use Rattle.std.specs.Prelude.{[], refl};
ghost use Rattle.passing.specs.PassingSessions.{saved_text};
ghost use Rattle.session.specs.Session.{last_ended};

use session::{Fed, Session};
use shell::{BUFFER, Transcript};
use std::process::ExitCode;

// The records of the state: nothing is written before the end.
#[derive(Drop)]
struct Saving {
    text: [u8; BUFFER],
}

impl Transcript for Saving {
    ghost told = { λ p chunk. [] };

    ghost ending = { λ p. saved_text (last_ended p).progress };

    ghost bytes = { λ saving. saving.text };

    ghost nothing = { λ p. refl };

    ghost joins = { λ p one two. refl };

    ghost silent = { λ chunk. refl };

    fn feed(&mut self, start: Session, chunk: &[u8]) -> Fed {
        Fed {
            session: passing::consume(start, chunk),
            used: chunk.len(),
            wrote: 0,
        }
    }

    fn bytes(&self) -> &[u8] {
        &self.text
    }

    fn finish(&mut self, current: Session) -> &[u8] {
        let size = passing::save(current, &mut self.text);
        &self.text[..size]
    }
}

fn main(rt: HostRuntime) -> ExitCode {
    shell::run_on_each(&rt, |report, input, name| {
        let mut saving = Saving {
            text: shell::buffer(),
        };
        shell::run(
            report,
            input,
            &mut rt.stdout(),
            &mut saving,
            name,
            session::fresh(),
        )
    })
}
