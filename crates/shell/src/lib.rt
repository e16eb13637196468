// What the programs share: input from standard input or from a file that is named, and what is written of it to standard output, over the
// proved session. The contracts say what is fed and which bytes are handed over to be written, and, of a writer whose bytes are known, that it
// holds them after. Which bytes the system moves, and what it answers, no contract can say.
#![tactic(auto)]

ghost use Rattle.std.specs.Prelude.{◌&&◌, ◌≡◌, ◌<◌, ◌^◌, ◌-◌, ◌≤◌, length, take, IfErr, IfOk, IfSome, IsTrue, OnOk, is_ok};
ghost use Rattle.std.specs.Bool.{IsFalse};
ghost use Rattle.std.specs.Io.KnownBytes.{Appends};
ghost use Rattle.std.specs.Process.{exit_status};
ghost use Rattle.session.specs.Session.{is_stopped, progress_of};
ghost use Rattle.shell.specs.Names.{Filled, Taken, Within, is_input};
ghost use Rattle.shell.specs.Report.{is_done, status_of};
ghost use Rattle.shell.specs.Turns.{ReadWhileOpen, Stands, whole};

use session::Session;
use std::env::{Env, FillError};
use std::fs::File;
use std::io;
use std::io::{ErrorKind, Read, Stderr, Stdin, Write};
use std::process::ExitCode;

mod hints; // what is wrong with a first line
mod transcript; // what a program writes of a script

use hints::say;
pub use hints::{hint, hint_end, hint_records};
pub use transcript::{Listing, Transcript};

// The bytes that are read at once, and as many that are written at once. What is done once a call is then spread over thousands of
// lines.
pub const BUFFER: usize = 65536;

// A name is at most as long as a path may be.
const LONGEST_NAME: usize = 4096;

// The status of a program that SIGPIPE ends, as a shell has it.
const UNREAD: u8 = 141;

pub fn buffer<const N: usize>() -> [u8; N]
    ensures { N ≡ length result }
{
    [0; N]
}

// Is a name the one that stands for standard input?
fn is_input(name: &[u8]) -> bool
    ensures { result ≡ is_input name.now }
{
    matches!(name, [b'-'])
}

// What stands before the number of an error in its text.
const NUMBER: &[u8] = b" (os error ";

// The reason in the text of an error, which bytes of 0 follow: the system's words, without the number that stands behind them.
fn reason(text: &[u8]) -> &[u8] {
    let words = text.split(|byte| *byte == 0).next().unwrap_or(text);
    let end = words.windows(NUMBER.len()).position(|part| part == NUMBER);
    &words[..end.unwrap_or(words.len())]
}

// How far a run of a program has gone well, the worst last. Unread: nobody reads its output any more.
#[derive(Clone, Copy, PartialEq, Eq, PartialOrd, Ord)]
pub enum Outcome {
    Done,
    Failed,
    Unread,
}

// Where failures are reported, and what is on record of them.
#[derive(Clone, Copy)]
pub struct Report {
    pub err: Stderr,
    pub outcome: Outcome,
}

// A failure that was reported, or that is on record without a report.
#[derive(Clone, Copy)]
pub struct Reported;

// A report before the first failure.
pub fn report_to(err: Stderr) -> Report
    ensures { IsTrue (is_done result.outcome) }
{
    Report {
        err,
        outcome: Outcome::Done,
    }
}

// Reports a failure on standard error, as `bench: NAME: reason` with the system's reason. Every failure is reported here, but for output that
// nobody reads.
fn failed(report: &mut Report, name: &[u8], error: io::Error) -> Reported
    ensures { IsFalse (is_done report.new.outcome) }
{
    let mut text = [0u8; 256];
    let mut room: &mut [u8] = &mut text;
    let _ = write!(room, "{error}");
    say(report.err, name, reason(&text));
    report.outcome = report.outcome.max(Outcome::Failed);
    Reported
}

// The output could not be written. That nobody reads it is put on record only: a program that writes for `head` ends quietly.
fn unwritten(report: &mut Report, error: io::Error) -> Reported
    ensures { IsFalse (is_done report.new.outcome) }
{
    if error.kind() != ErrorKind::BrokenPipe {
        return failed(report, b"standard output", error);
    }
    report.outcome = Outcome::Unread;
    Reported
}

// The status of a program: 0, or 1 where something failed. Where nobody reads the output, it is that of a program that the signal for it ends.
pub fn status(report: Report) -> ExitCode
    ensures { exit_status result ≡ status_of report.outcome }
{
    match report.outcome {
        Outcome::Done => ExitCode::from(0),
        Outcome::Failed => ExitCode::from(1),
        Outcome::Unread => ExitCode::from(UNREAD),
    }
}

// An input that is open.
#[derive(Drop)]
pub enum Source {
    Standard(Stdin),
    Named(File),
}

impl Read for Source {
    fn read(&mut self, buf: &mut [u8]) -> io::Result<usize> {
        match self {
            Source::Standard(input) => input.read(buf),
            Source::Named(file) => file.read(buf),
        }
    }
}

// Opens a file by its name. Paths are text here.
fn open_file(rt: &HostRuntime, name: &[u8]) -> io::Result<File> {
    match str::from_utf8(name) {
        Ok(path) => File::open(rt, path),
        Err(_) => Err(io::Error::new(
            ErrorKind::InvalidFilename,
            "a name of a file has to be UTF-8",
        )),
    }
}

// Opens an input by its name; that it fails is reported. Writes the name to standard output first where it is to be shown: it tells the
// listings of several inputs apart. Nothing is known of what the system answers.
pub fn open_named(
    rt: &HostRuntime,
    report: &mut Report,
    name: &[u8],
    shown: bool,
) -> Result<Source, Reported>
    ensures { is_done report.new.outcome ≡ (is_done report.old.outcome && is_ok result) }
{
    if shown {
        write_name(report, &mut rt.stdout(), name)?;
    }
    if is_input(name) {
        return Ok(Source::Standard(rt.stdin()));
    }
    match open_file(rt, name) {
        Ok(file) => Ok(Source::Named(file)),
        Err(error) => Err(failed(report, name, error)),
    }
}

// Closes an input, but for standard input.
pub fn close_named(input: Source) {
    drop(input);
}

// Reads once: how many bytes are now at the start of the buffer, 0 at the end of the input. A read that fails is reported under the name of
// the input.
pub fn read<R: Read>(
    report: &mut Report,
    input: &mut R,
    name: &[u8],
    chunk: &mut [u8],
) -> Result<usize, Reported>
    ensures within { Within result chunk.new }
    ensures outcome { is_done report.new.outcome ≡ (is_done report.old.outcome && is_ok result) }
    ensures taken { Taken (R.remaining input.old) (R.remaining input.new) result chunk.new }
{
    // A match here and in `write`: a proof knows nothing of a report that a closure was lent.
    match input.read(chunk) {
        Ok(n) => Ok(n),
        Err(error) => Err(failed(report, name, error)),
    }
}

// Reads until the buffer is full or the input ends.
pub fn fill<R: Read>(
    report: &mut Report,
    input: &mut R,
    name: &[u8],
    chunk: &mut [u8],
) -> Result<usize, Reported>
    ensures within { Within result chunk.new }
    ensures outcome { is_done report.new.outcome ≡ (is_done report.old.outcome && is_ok result) }
    ensures filled { Filled (R.remaining input.old) (R.remaining input.new) result chunk.new }
{
    // A counter, and not a slice that shrinks: it is the result.
    let mut done: usize = 0;
    while done < chunk.len() {
        let n = read(report, input, name, &mut chunk[done..])?;
        if n == 0 {
            break;
        }
        done += n;
    }
    Ok(done)
}

// Writes bytes to standard output, or to any other writer. A write that fails is reported. Nothing is known of what the system answers.
pub fn write<W: Write>(report: &mut Report, output: &mut W, bytes: &[u8]) -> Result<(), Reported>
    ensures outcome { is_done report.new.outcome ≡ (is_done report.old.outcome && is_ok result) }
    ensures written { OnOk result (Appends (W.contents output.old) (W.contents output.new) bytes.now) }
{
    match output.write_all(bytes) {
        Ok(()) => Ok(()),
        Err(error) => Err(unwritten(report, error)),
    }
}

// Writes the name of an input as a line.
fn write_name<W: Write>(report: &mut Report, output: &mut W, name: &[u8]) -> Result<(), Reported>
    ensures { is_done report.new.outcome ≡ (is_done report.old.outcome && is_ok result) }
{
    write(report, output, name)?;
    write(report, output, b"\n")
}

// A write that failed: the session before the piece that was not written, and how many bytes of the chunk it had used.
#[derive(Clone, Copy)]
pub struct WriteFailed {
    pub session: Session,
    pub used: usize,
}

impl From<WriteFailed> for Reported {
    fn from(_: WriteFailed) -> Reported {
        Reported
    }
}

// Report, output and transcript stand beside one another here and below: a struct that held the three would hold three `&mut`, and each function
// would have to say that they are the same references after it.

// Feeds all of a chunk, piece by piece, and writes the text of each. If a write fails, the piece whose text was not written does not count as
// used, nor does what follows it.
pub fn turn<T: Transcript, W: Write>(
    report: &mut Report,
    output: &mut W,
    transcript: &mut T,
    start: Session,
    chunk: &[u8],
) -> Result<Session, WriteFailed>
    ensures outcome { is_done report.new.outcome ≡ (is_done report.old.outcome && is_ok result) }
    ensures used { IfOk result (λ s. Stands (progress_of start) chunk.now (progress_of s)) }
    ensures written { OnOk result (Appends (W.contents output.old) (W.contents output.new)
        (T.told (progress_of start) chunk.now)) }
    ensures unwritten { IfErr result (λ u. (u.used < length chunk.now)
        × Stands (progress_of start) (take u.used chunk.now) (progress_of u.session)) }
{
    let mut session = start;
    let mut rest = chunk;
    while !rest.is_empty() {
        let fed = transcript.feed(session, rest);
        let text = &transcript.bytes()[..fed.wrote];
        if write(report, output, text).is_err() {
            let used = chunk.len() - rest.len();
            return Err(WriteFailed { session, used });
        }
        rest = &rest[fed.used..];
        session = fed.session;
    }
    Ok(session)
}

// The input has ended: writes what is written at its end, as the record of a last line that lacks its line feed.
pub fn close<T: Transcript, W: Write>(
    report: &mut Report,
    output: &mut W,
    transcript: &mut T,
    current: Session,
) -> Result<(), Reported>
    ensures outcome { is_done report.new.outcome ≡ (is_done report.old.outcome && is_ok result) }
    ensures written { OnOk result (Appends (W.contents output.old) (W.contents output.new)
        (T.ending (progress_of current))) }
{
    write(report, output, transcript.finish(current))
}

// Reads a script, or what is left of it, to its end or until its first line is refused, feeds it to a session and writes what is written of it.
// A read or a write that fails is reported, and ends it. A first line that is refused gets a hint. A proved loop has to end, and nothing says
// that an input does: so it counts up to a number that no run uses up. Where nothing failed, and the bytes of the input are known and fewer
// than that number, all is written that is to be written of them.
pub fn run<T: Transcript, R: Read, W: Write>(
    report: &mut Report,
    input: &mut R,
    output: &mut W,
    transcript: &mut T,
    name: &[u8],
    start: Session,
) -> Result<(), Reported>
    ensures outcome { is_done report.new.outcome ≡ (is_done report.old.outcome && is_ok result) }
    ensures listed { OnOk result (IfSome (R.remaining input.old) (λ script.
        length script < 2 ^ 64 - 1 → Appends (W.contents output.old) (W.contents output.new)
        (whole T.told T.ending (progress_of start) script))) }
    ensures unread { IsTrue (is_stopped (progress_of start)) → R.remaining input.new ≡ R.remaining input.old }
    ensures once { OnOk result (ReadWhileOpen (progress_of start) (R.remaining input.old) (R.remaining input.new)) }
{
    let mut chunk = buffer::<BUFFER>();
    let mut s = start;
    for _turn in 0..u64::MAX {
        if session::stopped(s) {
            break;
        }
        let n = read(report, input, name, &mut chunk)?;
        if n == 0 {
            break;
        }
        let script = &chunk[..n];
        let next = turn(report, output, transcript, s, script)?;
        hint(report.err, name, s, next, script);
        s = next;
    }
    hint_end(report.err, name, s);
    close(report, output, transcript, s)
}

// Is there an argument of that number? The first is number 1.
fn has_argument(rt: &HostRuntime, number: usize) -> bool {
    argument(rt, number, &mut buffer::<LONGEST_NAME>()).is_some()
}

// An argument, put into the buffer, if there is one of that number. One that is longer than any path counts as empty: neither names a file.
// std's `env::args` answers an error for all where one is not UTF-8; here only that one is refused.
fn argument<'a>(rt: &HostRuntime, number: usize, buffer: &'a mut [u8]) -> Option<&'a [u8]>
    ensures { IfSome result (λ name. length name.now ≤ length buffer.old) }
{
    match rt.arg(number, buffer) {
        Ok(n) => Some(&buffer[..n]),
        Err(FillError::TooLong) => Some(b""),
        Err(FillError::NotPresent) => None,
    }
}

// Runs a program on an input that is named.
fn run_on_named<F: Fn(&mut Report, &mut Source, &[u8]) -> Result<(), Reported>>(
    rt: &HostRuntime,
    report: &mut Report,
    program: &F,
    name: &[u8],
    shown: bool,
) -> Result<(), Reported>
    requires { F.IsAlwaysCallable program.now }
{
    let mut input = open_named(rt, report, name, shown)?;
    let ran = program(report, &mut input, name);
    close_named(input);
    ran
}

// Runs a program on standard input, or on each of the files that the arguments name, from two files on under the file's name; the name -
// stands for standard input. After a failure, which is in the report, the next file has its turn.
pub fn run_on_each<F: Fn(&mut Report, &mut Source, &[u8]) -> Result<(), Reported>>(
    rt: &HostRuntime,
    program: F,
) -> ExitCode
    requires { F.IsAlwaysCallable program }
{
    let mut report = report_to(rt.stderr());
    if !has_argument(rt, 1) {
        let mut input = Source::Standard(rt.stdin());
        let _ = program(&mut report, &mut input, b"standard input");
    }
    let shown = has_argument(rt, 2);
    let mut room = buffer::<LONGEST_NAME>();
    for number in 1..usize::MAX {
        let Some(name) = argument(rt, number, &mut room) else {
            break;
        };
        let _ = run_on_named(rt, &mut report, &program, name, shown);
    }
    status(report)
}
