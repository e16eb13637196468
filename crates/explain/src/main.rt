// The program `explain` (02, request 3): reads the records of a state and an access line from standard input, and writes the sheet that says
// why the access is allowed or denied. Where a sheet filled in by hand follows as the last line, it writes the verdict on it instead. Given
// the names of files, it writes the sheet of each, from two files on under the file's name; the name - stands for standard input. Where
// something failed the status is 1. `main` has no contract: what the arguments and the files hold is open. `explain` says what becomes of it.
#![tactic(auto)]

ghost use Rattle.std.specs.Prelude.{◌≡◌, ◌&&◌, IfSome, OnOk, is_ok};
ghost use Rattle.std.specs.Io.KnownBytes.{Appends};
ghost use Rattle.inquiry.specs.Inquiry.{explained};
ghost use Rattle.shell.specs.Report.{is_done};

use shell::{Report, Reported};
use std::io::{Read, Write};
use std::process::ExitCode;

// More bytes than an input may have: one that is longer is refused, and so is its beginning.
const BUFFER: usize = 66560;

// Reads the input, as much of it as counts, and writes the sheet or the verdict.
fn explain<R: Read, W: Write>(
    report: &mut Report,
    input: &mut R,
    output: &mut W,
    name: &[u8],
) -> Result<(), Reported>
    ensures outcome { is_done report.new.outcome ≡ (is_done report.old.outcome && is_ok result) }
    ensures explained { OnOk result (IfSome (R.remaining input.old) (λ asked.
        Appends (W.contents output.old) (W.contents output.new) (explained asked))) }
{
    let mut chunk = shell::buffer::<BUFFER>();
    let n = shell::fill(report, input, name, &mut chunk)?;
    let asked = &chunk[..n];
    shell::hint_records(report.err, name, asked);
    let mut out = [0u8; sheet::LONGEST_VERDICT];
    let size = inquiry::explain(asked, &mut out);
    shell::write(report, output, &out[..size])
}

fn main(rt: HostRuntime) -> ExitCode {
    shell::run_on_each(
        &rt,
        |report, input, name| explain(report, input, &mut rt.stdout(), name),
    )
}
