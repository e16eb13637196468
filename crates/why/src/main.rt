// The program `why`: reads a script from standard input and writes its listing with the reason for every answer. Given the names of files, it
// writes the listing of each, from two files on under the file's name; the name - stands for standard input. Where something failed the
// status is 1. `main` has no contract: what the arguments and the files hold is open. `shell::run` says what becomes of it.
#![tactic(auto)]

ghost use Rattle.reasoned.specs.ReasonedSession.{last_told, told as told_text};
ghost use Rattle.why.specs.ReasonsLaws.{reasons-joins, reasons-nothing, reasons-silent};

use reason::LONGEST_REASONED;
use session::{Fed, Session};
use shell::Transcript;
use std::process::ExitCode;

// The listing with reasons: one line at a time.
#[derive(Drop)]
struct Reasons {
    line: [u8; LONGEST_REASONED],
}

impl Transcript for Reasons {
    ghost told = { told_text };

    ghost ending = { last_told };

    ghost bytes = { λ reasons. reasons.line };

    ghost nothing = { reasons-nothing };

    ghost joins = { reasons-joins };

    ghost silent = { reasons-silent };

    fn feed(&mut self, start: Session, chunk: &[u8]) -> Fed {
        reasoned::feed_line(start, chunk, &mut self.line)
    }

    fn bytes(&self) -> &[u8] {
        &self.line
    }

    fn finish(&mut self, current: Session) -> &[u8] {
        let wrote = reasoned::finish(current, &mut self.line);
        &self.line[..wrote]
    }
}

fn main(rt: HostRuntime) -> ExitCode {
    shell::run_on_each(&rt, |report, input, name| {
        let mut reasons = Reasons {
            line: [0; LONGEST_REASONED],
        };
        shell::run(
            report,
            input,
            &mut rt.stdout(),
            &mut reasons,
            name,
            session::fresh(),
        )
    })
}
