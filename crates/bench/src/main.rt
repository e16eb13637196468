// The bench: reads a script from standard input and writes its listing to standard output. Given the names of files, it writes the
// listing of each, from two files on under the file's name; the name - stands for standard input. Where something failed the status is 1.
// `main` has no contract: what the arguments and the files hold is open.
#![tactic(auto)]

use shell::Listing;
use std::process::ExitCode;

fn main(rt: HostRuntime) -> ExitCode {
    shell::run_on_each(&rt, |report, input, name| {
        let mut listing = Listing::new();
        shell::run(
            report,
            input,
            &mut rt.stdout(),
            &mut listing,
            name,
            session::fresh(),
        )
    })
}
