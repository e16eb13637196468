// Lines that end: the first, later ones, and those that lie whole in a chunk. What is written is the record of the line.
ghost use Rattle.std.specs.Prelude.{◌≡◌, ◌-◌, ◌≤◌, true, [], ◌∷◌, length, drop, replicate, None, Some};
ghost use Rattle.model.specs.Fresh.{admissible, fresh};
ghost use Rattle.state.specs.Lent.{state_of};
ghost use Rattle.session.specs.SessionParts.{EndedBy, FedFrom, blank_in, has_stopped, is_later};
ghost use Rattle.session.specs.Session.{begun, ended, extended, fed, first, kept, later, lent_of};
ghost use Rattle.session.specs.Session.{progress_in, progress_of, state_in};
ghost use Rattle.chunk.specs.HeldBytes.{held_bytes};
ghost use Rattle.script.specs.ListingLine.{listing_line, longest_record};
ghost use Rattle.std.proofs.lemmas.List.Edits.{sets};

use crate::line_answer::answer_line;
use crate::{Fed, LONGEST_RECORD, Phase, Session, Written, lent_words, listing_record};
use chunk::HeldLine;
use listing::Shown;
use model::machine::FirstLine;
use model::quantity::Level;
use state::fresh;
use state::parts::Parts;
use state::well_formed_state::well_formed;

// Whether a session is in this phase: stopped after a refused first line, or in a later line.
pub(crate) fn has_stopped(phase: Phase) -> bool
    ensures { result ≡ has_stopped phase }
{
    matches!(phase, Phase::Stopped)
}

pub(crate) fn is_later(phase: Phase) -> bool
    ensures { result ≡ is_later phase }
{
    matches!(phase, Phase::Later)
}

// The session of a phase with the machine that a first line describes. It holds nothing of a line, and all words are 0.
fn opened(phase: Phase, number: u64, first: FirstLine, lent: usize) -> Session
    ensures progress { progress_of result ≡ progress_in phase number (state_in result) [] }
    ensures state { state_in result
        ≡ record { machine = (fresh first).machine; words = lent_of (replicate 64 0) lent } }
{
    Session {
        phase,
        number,
        line: HeldLine::new(),
        setup: fresh::setup_of(first),
        parts: Parts {
            levels: fresh::fresh_levels(),
            masks: fresh::fresh_masks(),
            vps: [fresh::fresh_record(); 4],
        },
        lent,
        words: [0; 64],
    }
}

// A session that holds nothing of a line. Its machine has no processor.
pub(crate) fn blank(phase: Phase) -> Session
    ensures { progress_of result ≡ blank_in phase (state_in result) }
{
    let none = FirstLine {
        processors: 0,
        max_level: Level(0),
        pages: 0,
        dr6_shared: 0,
        host_mask: 0,
        smep: 0,
    };
    opened(phase, 0, none, 0)
}

// The session before a later line, with the machine and the words that the line before it left.
pub fn after_line(start: Session, number: u64, parts: Parts, words: [u64; 64]) -> Session
    ensures { progress_of result
        ≡ later number (state_of start.setup parts (lent_of words start.lent)) [] }
{
    Session {
        phase: Phase::Later,
        number,
        line: HeldLine::new(),
        parts,
        words,
        ..start
    }
}

// The session with more bytes of a line that has not ended.
pub fn keep(start: Session, more: &[u8]) -> Session
    ensures { progress_of result ≡ kept (extended (progress_of start) more.now) }
{
    let mut session = start;
    session.line.append(more);
    session
}

// Writes the record of line 0 at the start of `out`, with this answer, and returns the place after it.
fn write_first(out: &mut [u8], answer: u64) -> usize
    requires { longest_record ≤ length out.old }
    ensures value { result ≡ length (listing_line 0 answer 0 0) }
    ensures out_after { out.new ≡ sets out.old 0 (listing_line 0 answer 0 0) }
{
    let shown = Shown {
        answer,
        value: 0,
        level: Level(0),
    };
    listing_record::write_record(out, 0, listing_record::line_number(0), shown)
}

// Refuses the first line: the session stops.
fn refuse_first(out: &mut [u8]) -> Written
    requires { longest_record ≤ length out.old }
    ensures { EndedBy (begun None) result out.old out.new }
{
    let session = blank(Phase::Stopped);
    let wrote = write_first(out, 1);
    Written { session, wrote }
}

// Begins with the machine that the first line describes. All words are 0.
fn begin(first: FirstLine, out: &mut [u8]) -> Written
    requires longest_record_in_bounds { longest_record ≤ length out.old }
    requires first_value { admissible first ≡ true }
    ensures { EndedBy (begun (Some (fresh first))) result out.old out.new }
{
    let session = opened(Phase::Later, 1, first, first.pages as usize);
    let wrote = write_first(out, 0);
    Written { session, wrote }
}

// Ends the first line.
fn end_first(start: Session, out: &mut [u8]) -> Written
    requires { longest_record ≤ length out.old }
    ensures { EndedBy (ended (first (held_bytes start.line))) result
        out.old out.new }
{
    let Ok(first) = start.line.parse_first() else {
        return refuse_first(out);
    };
    if !state::fresh::admissible(first) {
        return refuse_first(out);
    }
    begin(first, out)
}

// Ends a later line.
fn end_later(start: Session, out: &mut [u8]) -> Written
    requires { longest_record ≤ length out.old }
    ensures { EndedBy (ended (later start.number (state_in start) (held_bytes start.line))) result
        out.old out.new }
{
    let number = start.number;
    let next = std::num::wrapping_add_u64(number, 1);
    let setup = start.setup;
    let mut parts = start.parts;
    let mut words = start.words;
    let lent = lent_words(&words, start.lent);
    let formed = well_formed(setup, &parts, &words[..lent]);
    let shown = answer_line(
        formed,
        setup,
        &mut parts,
        &mut words[..lent],
        start.line.bytes(),
    );
    let wrote = listing_record::write_record(out, 0, listing_record::line_number(number), shown);
    let session = after_line(start, next, parts, words);
    Written { session, wrote }
}

// Ends the line whose bytes the session holds.
pub(crate) fn end_line(start: Session, out: &mut [u8]) -> Written
    requires { longest_record ≤ length out.old }
    ensures { EndedBy (ended (progress_of start)) result out.old out.new }
{
    match start.phase {
        Phase::First => end_first(start, out),
        Phase::Later => end_later(start, out),
        Phase::Stopped => Written {
            session: start,
            wrote: 0,
        },
    }
}

// Feeds a session that holds no bytes of a line what is left of a chunk from `from` on; the records go into `out` from `at` on.
// The machine stays in locals of this loop, which lends them; a line is read where it lies in the chunk. Whether the state is well
// formed is asked once, since every line keeps it so.
pub(crate) fn feed_later(
    start: Session,
    chunk: &[u8],
    from: usize,
    out: &mut [u8],
    at: usize,
) -> Fed
    requires from_in_bounds { from ≤ length chunk.now }
    requires at_in_bounds { at ≤ length out.old }
    ensures { FedFrom from at
        (fed (later start.number (state_in start) []) (drop from chunk.now)
        (length out.old - at))
        result out.old out.new }
{
    let setup = start.setup;
    let mut parts = start.parts;
    let mut words = start.words;
    let mut line = listing_record::line_number(start.number);
    let lent = lent_words(&words, start.lent);
    let formed = well_formed(setup, &parts, &words[..lent]);
    let mut i = from;
    let mut wrote = at;
    // Two ends, each with its own answer: no line ends any more, or `out` has no room.
    loop {
        let end = chunk::line_end(chunk, i);
        if chunk.len() <= end {
            let session = after_line(start, line.number, parts, words);
            return Fed {
                session: keep(session, &chunk[i..]),
                used: end,
                wrote,
            };
        }
        if out.len() - wrote < LONGEST_RECORD {
            return Fed {
                session: after_line(start, line.number, parts, words),
                used: i,
                wrote,
            };
        }
        let bytes = &chunk[i..end];
        i = end + 1;
        let shown = answer_line(formed, setup, &mut parts, &mut words[..lent], bytes);
        wrote = listing_record::write_record(out, wrote, line, shown);
        line = listing_record::next_number(line);
    }
}
