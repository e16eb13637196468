// A script that comes in chunks, and its listing with reasons. The session is that of crate `session`, and comes as far: here each line that
// ends is written with its reason. One call ends one line at most, so a buffer for the longest line is always room. Every public function
// takes any arguments.
#![tactic(auto)]

ghost use Rattle.std.specs.Prelude.{◌≡◌, ◌≤◌, [], length, take};
ghost use Rattle.std.proofs.lemmas.List.Edits.{sets};
ghost use Rattle.chunk.specs.HeldBytes.{held_bytes};
ghost use Rattle.reason.specs.ReasonedListing.{first_reason};
ghost use Rattle.reasoned.specs.ReasonedParts.{EndedWith, first_line};
ghost use Rattle.reasoned.specs.ReasonedSession.{last_told, line_used, told};
ghost use Rattle.script.specs.First.{line_first};
ghost use Rattle.session.specs.Session.{Bounds, consumed, first, later, progress_of, state_in};
ghost use Rattle.session.specs.declared.Phase.TheVariants as phase_is;

use line_reason::tell;
use listing::Shown;
use model::quantity::Level;
use reason::{LONGEST_REASONED, Reason, write_line};
use session::{Fed, LONGEST_RECORD, Phase, Session, Written};

mod line_reason; // a later line, with its reason

// Why the first line is refused, or nothing where it is not.
fn first_reason(start: Session) -> Reason
    ensures { result ≡ first_reason (line_first (held_bytes start.line)) }
{
    match start.line.parse_first() {
        Ok(first) => {
            if state::fresh::admissible(first) {
                return Reason::Nothing;
            }
            Reason::OutOfRange
        }
        Err(refusal) => Reason::Named(refusal),
    }
}

// Writes the line of the first line: done, or refused for a reason.
fn write_first(out: &mut [u8; LONGEST_REASONED], refused: Option<Reason>) -> usize
    ensures value { result ≡ length (first_line refused) }
    ensures out_after { out.new ≡ sets out.old 0 (first_line refused) }
    ensures upper_bound { result ≤ length out.new }
{
    let shown = Shown {
        answer: u64::from(refused.is_some()),
        value: 0,
        level: Level(0),
    };
    write_line(out, 0, shown, refused.unwrap_or(Reason::Nothing))
}

// Ends the first line. The session after it is the one that ending the listing leaves.
fn end_first(start: Session, out: &mut [u8; LONGEST_REASONED]) -> Written
    requires { start.phase ≡ phase_is.First }
    ensures { EndedWith (first (held_bytes start.line)) result out.old out.new }
{
    let mut record = [0u8; LONGEST_RECORD];
    let ended = session::finish(start, &mut record);
    let session = ended.session;
    if session::stopped(session) {
        let wrote = write_first(out, Some(first_reason(start)));
        return Written { session, wrote };
    }
    let wrote = write_first(out, None);
    Written { session, wrote }
}

// Ends a later line.
fn end_later(start: Session, out: &mut [u8; LONGEST_REASONED]) -> Written
    ensures { EndedWith (later start.number (state_in start) (held_bytes start.line)) result
        out.old out.new }
{
    let number = start.number;
    let next = std::num::wrapping_add_u64(number, 1);
    let mut parts = start.parts;
    let mut words = start.words;
    let lent = session::lent_words(&words, start.lent);
    let parsed = script::parse(start.line.bytes());
    let told = tell(start.setup, &mut parts, &mut words[..lent], parsed);
    let wrote = write_line(out, number, told.shown, told.why);
    let session = session::after_line(start, next, parts, words);
    Written { session, wrote }
}

// Ends the line whose bytes the session holds.
fn end_line(start: Session, out: &mut [u8; LONGEST_REASONED]) -> Written
    ensures { EndedWith (progress_of start) result out.old out.new }
{
    match start.phase {
        Phase::First => end_first(start, out),
        Phase::Later => end_later(start, out),
        Phase::Stopped => Written {
            session: start,
            wrote: 0,
        },
    }
}

// Uses a chunk up to the end of its first line, writes that line with its reason at the start of `out`, and says how much was used and
// written. Where no line ends in the chunk all of it is used, and nothing is written.
pub fn feed_line(start: Session, chunk: &[u8], out: &mut [u8; LONGEST_REASONED]) -> Fed
    ensures session { progress_of result.session
        ≡ (consumed (progress_of start) (take (line_used chunk.now) chunk.now)).progress }
    ensures used { result.used ≡ line_used chunk.now }
    ensures wrote { result.wrote
        ≡ length (told (progress_of start) (take (line_used chunk.now) chunk.now)) }
    ensures out { out.new
        ≡ sets out.old 0
        (told (progress_of start) (take (line_used chunk.now) chunk.now)) }
    ensures bounds { Bounds result.used result.wrote chunk.now out.new }
{
    let end = chunk::line_end(chunk, 0);
    if chunk.len() <= end {
        return Fed {
            session: session::keep(start, chunk),
            used: end,
            wrote: 0,
        };
    }
    let line = session::keep(start, &chunk[..end]);
    let ended = end_line(line, out);
    Fed {
        session: ended.session,
        used: end + 1,
        wrote: ended.wrote,
    }
}

// Ends the script: writes the line of a last line that lacks its line feed, or of an empty script, and says how many bytes that took.
pub fn finish(start: Session, out: &mut [u8; LONGEST_REASONED]) -> usize
    ensures wrote { result ≡ length (last_told (progress_of start)) }
    ensures out { out.new ≡ sets out.old 0 (last_told (progress_of start)) }
    ensures bounds { Bounds 0 result [] out.new }
{
    if start.line.len() == 0 {
        return finish_empty(start, out);
    }
    let ended = end_line(start, out);
    ended.wrote
}

// The same where the session holds no bytes of a line.
fn finish_empty(start: Session, out: &mut [u8; LONGEST_REASONED]) -> usize
    requires { held_bytes start.line ≡ [] }
    ensures value { result ≡ length (last_told (progress_of start)) }
    ensures out_after { out.new ≡ sets out.old 0 (last_told (progress_of start)) }
    ensures upper_bound { result ≤ length out.new }
{
    match start.phase {
        Phase::First => write_first(out, Some(Reason::EmptyInput)),
        Phase::Later => 0,
        Phase::Stopped => 0,
    }
}
