// A machine that is passed on (02, request 2): a session saved as the records of its state, and resumed from them.
#![tactic(auto)]

ghost use Rattle.std.specs.Prelude.{[], ◌≡◌, ◌≤◌, length};
ghost use Rattle.std.proofs.lemmas.List.Edits.{sets};
ghost use Rattle.passing.specs.PassingSessions.{line_zero, opened, saved_text};
ghost use Rattle.reader.specs.Received.{state_in as received_state};
ghost use Rattle.session.specs.Session.{Bounds, consumed, last_ended, later, progress_of, state_in};
ghost use Rattle.transfer.specs.Sent.{sent_text};

use reader::Received;
use session::{Fed, LONGEST_RECORD, Phase, Session};
use transfer::write::LONGEST_TEXT;

// Uses all of a chunk of a script. Its listing is not kept.
pub fn consume(start: Session, chunk: &[u8]) -> Session
    ensures { progress_of result ≡ (consumed (progress_of start) chunk.now).progress }
{
    // Nobody reads these records. They have so much room that there are few pieces.
    let mut records = [0u8; 65536];
    let mut s = start;
    let mut rest = chunk;
    while !rest.is_empty() {
        let fed = session::feed(s, rest, &mut records);
        rest = &rest[fed.used..];
        s = fed.session;
    }
    s
}

// Copies a line to the start of `out`, and returns how many bytes it has. (`put` of `sheet` does it too, but this crate needs no sheets.)
fn put_line(out: &mut [u8], line: &[u8]) -> usize
    requires { length line.now ≤ length out.old }
    ensures value { result ≡ length line.now }
    ensures out_after { out.new ≡ sets out.old 0 line.now }
{
    let size = line.len();
    out[..size].copy_from_slice(line);
    size
}

// Writes the record of line 0, done or refused, at the start of `out`.
fn write_line_zero(out: &mut [u8], done: bool) -> usize
    requires { 8 ≤ length out.old }
    ensures value { result ≡ length (line_zero done) }
    ensures out_after { out.new ≡ sets out.old 0 (line_zero done) }
{
    if done {
        return put_line(out, b"0\t0\t0\t0\n");
    }
    put_line(out, b"0\t1\t0\t0\n")
}

// Writes the records of a session's machine.
fn write_machine(session: Session, out: &mut [u8; LONGEST_TEXT]) -> usize
    ensures value { result ≡ length (sent_text (state_in session)) }
    ensures out_after { out.new ≡ sets out.old 0 (sent_text (state_in session)) }
    ensures bounds { Bounds 0 result [] out.new }
{
    let lent = session::lent_words(&session.words, session.lent);
    transfer::write::write_records(out, session.setup, &session.parts, &session.words[..lent])
}

// Ends a session's script and writes the records of the state that it leaves, or the refusal line where the first line was bad. Returns
// how many bytes that took.
pub fn save(session: Session, out: &mut [u8; LONGEST_TEXT]) -> usize
    ensures wrote { result ≡ length (saved_text (last_ended (progress_of session)).progress) }
    ensures out { out.new
        ≡ sets out.old 0 (saved_text (last_ended (progress_of session)).progress) }
    ensures bounds { Bounds 0 result [] out.new }
{
    let mut record = [0u8; LONGEST_RECORD];
    let ended = session::finish(session, &mut record);
    let last = ended.session;
    match last.phase {
        Phase::First => write_line_zero(out, false),
        Phase::Later => write_machine(last, out),
        Phase::Stopped => write_line_zero(out, false),
    }
}

// A session on the machine that was read.
fn session_of(received: Received) -> Session
    requires { received.setup.pages ≤ 64 }
    ensures { progress_of result ≡ later 1 (received_state received) [] }
{
    session::on_machine(received.setup, received.parts, received.words)
}

// Begins a session with the records at the start of an input, and writes their answer, line 0. The input is whole, or its first LONGEST_TEXT
// bytes at least: more than these are never asked for. What follows the bytes used is fed to the session. Where the records are refused,
// all is used and the session has stopped.
pub fn open(input: &[u8], out: &mut [u8; LONGEST_RECORD]) -> Fed
    ensures session { progress_of result.session ≡ (opened input.now).progress }
    ensures used { result.used ≡ (opened input.now).used }
    ensures wrote { result.wrote ≡ length (opened input.now).text }
    ensures out { out.new ≡ sets out.old 0 (opened input.now).text }
    ensures bounds { Bounds result.used result.wrote input.now out.new }
{
    match reader::read(input) {
        Some(received) => Fed {
            session: session_of(received),
            used: received.used,
            wrote: write_line_zero(out, true),
        },
        None => Fed {
            session: session::refused(),
            used: input.len(),
            wrote: write_line_zero(out, false),
        },
    }
}
