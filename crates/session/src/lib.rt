// A script that comes in chunks, and its listing (01, "Script and listing"). A caller makes a session, feeds it the script's
// chunks in order, and finishes it; what is written on the way is the listing of the whole. Every function takes any arguments.
#![tactic(auto)]

ghost use Rattle.std.specs.Prelude.{◌≡◌, min, [], ◌∷◌, length};
ghost use Rattle.std.proofs.lemmas.List.Edits.{sets};
ghost use Rattle.session.specs.Session.{Bounds, fed, first, is_stopped, last_ended, last_text, later, lent_of};
ghost use Rattle.session.specs.Session.{progress_of, stopped as stopped_session};
ghost use Rattle.state.specs.Lent.{state_of};

use chunk::HeldLine;
use model::machine::Setup;
use state::parts::Parts;

mod line_answer; // what a line is answered
mod lines; // lines that end
mod listing_record; // the record of a line

pub use lines::{after_line, keep};

// The length of the longest record of a listing: four numbers of 20 digits, each followed by a tab or a line feed.
pub const LONGEST_RECORD: usize = 84;

// How far a session has come.
#[derive(Clone, Copy)]
pub enum Phase {
    First,
    Later,
    Stopped,
}

// What is kept from chunk to chunk. Any values make a session. What the buffer holds beyond the line, and the words beyond those lent, are no part of it: no
// contract speaks of them.
#[derive(Clone, Copy)]
pub struct Session {
    pub phase: Phase,
    // The number of the line that comes next.
    pub number: u64,
    // The beginning of a line that goes on in the next chunk.
    pub line: HeldLine,
    // The machine in its parts: what stays the same, and what it holds of levels, masks and processors.
    pub setup: Setup,
    pub parts: Parts,
    // The words of its pages: the first `lent` of the array, and no `Vec`, since the library takes no heap.
    pub lent: usize,
    pub words: [u64; 64],
}

// The session after a chunk, how much of the chunk was used, and how much was written.
#[derive(Clone, Copy)]
pub struct Fed {
    pub session: Session,
    pub used: usize,
    pub wrote: usize,
}

// The session after a line, and how many bytes its record has.
#[derive(Clone, Copy)]
pub struct Written {
    pub session: Session,
    pub wrote: usize,
}

// A session before the first byte.
pub fn fresh() -> Session
    ensures { progress_of result ≡ first [] }
{
    lines::blank(Phase::First)
}

// A session whose first line was refused: it has stopped.
pub fn refused() -> Session
    ensures { progress_of result ≡ stopped_session }
{
    lines::blank(Phase::Stopped)
}

// A session before line 1 on a machine whose parts are given, with as many words as the machine has pages.
pub fn on_machine(setup: Setup, parts: Parts, words: [u64; 64]) -> Session
    ensures { progress_of result ≡ later 1 (state_of setup parts (lent_of words setup.pages)) [] }
{
    Session {
        phase: Phase::Later,
        number: 1,
        line: HeldLine::new(),
        setup,
        parts,
        lent: setup.pages as usize,
        words,
    }
}

// How many words of a session's array are lent.
pub fn lent_words(words: &[u64; 64], lent: usize) -> usize
    ensures number { result ≡ min lent 64 }
    ensures size { length words.now ≡ 64 }
{
    lent.min(words.len())
}

// Whether a session has stopped after a refused first line: what follows is not read.
pub fn stopped(session: Session) -> bool
    ensures { result ≡ is_stopped (progress_of session) }
{
    lines::has_stopped(session.phase)
}

// Uses as much of a chunk as `out` has room for the records of, and says how much that was: no line is ended while the longest
// record has no room. A line that lies whole in the chunk is not copied. Every byte of `out` is fixed; of the session its progress is, and
// the bytes of its buffer beyond the line and the words beyond the pages, which nothing reads, are left open.
pub fn feed(start: Session, chunk: &[u8], out: &mut [u8]) -> Fed
    ensures session { progress_of result.session
        ≡ (fed (progress_of start) chunk.now (length out.old)).progress }
    ensures used { result.used ≡ (fed (progress_of start) chunk.now (length out.old)).used }
    ensures wrote { result.wrote
        ≡ length (fed (progress_of start) chunk.now (length out.old)).text }
    ensures out { out.new
        ≡ sets out.old 0 (fed (progress_of start) chunk.now (length out.old)).text }
    ensures bounds { Bounds result.used result.wrote chunk.now out.new }
{
    if lines::has_stopped(start.phase) {
        return Fed {
            session: start,
            used: chunk.len(),
            wrote: 0,
        };
    }
    if lines::is_later(start.phase) & (start.line.length == 0) {
        return lines::feed_later(start, chunk, 0, out, 0);
    }
    let end = chunk::line_end(chunk, 0);
    if chunk.len() <= end {
        return Fed {
            session: lines::keep(start, chunk),
            used: end,
            wrote: 0,
        };
    }
    if out.len() < LONGEST_RECORD {
        return Fed {
            session: start,
            used: 0,
            wrote: 0,
        };
    }
    let line = lines::keep(start, &chunk[..end]);
    let ended = lines::end_line(line, out);
    let next = ended.session;
    if lines::has_stopped(next.phase) {
        return Fed {
            session: next,
            used: chunk.len(),
            wrote: ended.wrote,
        };
    }
    lines::feed_later(next, chunk, end + 1, out, ended.wrote)
}

// Ends the input: writes the record of a last line that lacks its line feed, or of an empty input, and says how many bytes that took.
pub fn finish(session: Session, out: &mut [u8; LONGEST_RECORD]) -> Written
    ensures session { progress_of result.session ≡ (last_ended (progress_of session)).progress }
    ensures wrote { result.wrote ≡ length (last_text (progress_of session)) }
    ensures out { out.new ≡ sets out.old 0 (last_text (progress_of session)) }
    ensures bounds { Bounds 0 result.wrote [] out.new }
{
    if lines::is_later(session.phase) & (session.line.len() == 0) {
        return Written { session, wrote: 0 };
    }
    let buffer: &mut [u8] = out;
    lines::end_line(session, buffer)
}
