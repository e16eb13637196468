// The program `resume` (02, request 2): reads the records of a state from standard input, answers them as line 0, and goes on, from line 1,
// with the script without first line that follows them. Records that are refused give the refusal line. Given the names of files, it
// writes the listing of each, from two files on under the file's name; the name - stands for standard input. Where something failed
// the status is 1. `main` has no contract: what the arguments and the files hold is open. `resume` says what becomes of it.
#![tactic(auto)]

ghost use Rattle.std.specs.Prelude.{◌≡◌, ◌&&◌, ◌<◌, ◌-◌, ◌^◌, length, IfSome, OnOk, is_ok};
ghost use Rattle.std.specs.Io.KnownBytes.{Appends};
ghost use Rattle.passing.specs.Passing.{resumed};
ghost use Rattle.shell.specs.Report.{is_done};

use session::LONGEST_RECORD;
use shell::{BUFFER, Listing, Report, Reported};
use std::io::{Read, Write};
use std::process::ExitCode;

// Reads the input to its end, or until its records are refused, and writes what resuming gives. Its first 64 KB, or all of it where it is
// shorter, have the records whole (`ResumedSession` of crate `passing`). Where nothing failed, and the bytes of the input are known and
// fewer than the turns of `shell::run`, all is written that is to be written of them.
fn resume<R: Read, W: Write>(
    report: &mut Report,
    input: &mut R,
    output: &mut W,
    name: &[u8],
) -> Result<(), Reported>
    ensures outcome { is_done report.new.outcome ≡ (is_done report.old.outcome && is_ok result) }
    ensures resumed { OnOk result (IfSome (R.remaining input.old) (λ records.
        length records < 2 ^ 64 - 1 → Appends (W.contents output.old) (W.contents output.new) (resumed records))) }
{
    let mut chunk = shell::buffer::<BUFFER>();
    let n = shell::fill(report, input, name, &mut chunk)?;
    let begun = &chunk[..n];
    shell::hint_records(report.err, name, begun);
    let mut line = [0u8; LONGEST_RECORD];
    let opened = passing::open(begun, &mut line);
    shell::write(report, output, &line[..opened.wrote])?;
    let mut listing = Listing::new();
    let next = shell::turn(
        report,
        output,
        &mut listing,
        opened.session,
        &begun[opened.used..],
    )?;
    if n < BUFFER {
        return shell::close(report, output, &mut listing, next);
    }
    shell::run(report, input, output, &mut listing, name, next)
}

fn main(rt: HostRuntime) -> ExitCode {
    shell::run_on_each(
        &rt,
        |report, input, name| resume(report, input, &mut rt.stdout(), name),
    )
}
