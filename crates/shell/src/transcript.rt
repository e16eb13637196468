// What a program writes of a script: of each piece that it is fed, and at the end. The session is that of crate `session` for each, and comes
// as far: only the texts differ.
ghost use Rattle.std.specs.Prelude.{◌≡◌, ◌<◌, ◌≤◌, ◌++◌, ℕ, List, [], length, take};
ghost use Rattle.session.specs.Session.{Progress, consumed, last_text, progress_of, stopped};
ghost use Rattle.shell.specs.Cutting.{listing-joins, listing-nothing, listing-silent};

use crate::{BUFFER, buffer};
use session::{Fed, LONGEST_RECORD, Session};

pub trait Transcript {
    // What is written of all of a chunk by a session that has come so far.
    ghost told: { Progress → List ℕ → List ℕ };

    // What is written at the end of the input.
    ghost ending: { Progress → List ℕ };

    // The bytes of the buffer that holds the text of a piece.
    ghost bytes: { Self → List ℕ };

    // Feeds the beginning of a chunk, which has at least one byte where the chunk has any, and puts its text at the start of the buffer.
    fn feed(&mut self, start: Session, chunk: &[u8]) -> Fed
        ensures session { progress_of result.session
            ≡ (consumed (progress_of start) (take result.used chunk.now)).progress }
        ensures within { result.used ≤ length chunk.now }
        ensures some { 0 < length chunk.now → 0 < result.used }
        ensures wrote { result.wrote ≤ length (bytes self.new) }
        ensures text { take result.wrote (bytes self.new)
            ≡ told (progress_of start) (take result.used chunk.now) };

    // The buffer.
    fn bytes(&self) -> &[u8]
        ensures { result.now ≡ bytes self.now };

    // Ends the input, and gives the last text.
    fn finish(&mut self, current: Session) -> &[u8]
        ensures { result.now ≡ ending (progress_of current) };

    // Of nothing nothing is written, of two pieces one after the other, and after a refused first line nothing more.
    ghost nothing: { (p : Progress) → told p [] ≡ [] };

    ghost joins: { (p : Progress) (one two : List ℕ)
        → told p (one ++ two) ≡ told p one ++ told (consumed p one).progress two };

    ghost silent: { (chunk : List ℕ) → told stopped chunk ≡ [] };
}

// The listing: the records of as many lines at a time as have room.
#[derive(Drop)]
pub struct Listing {
    records: [u8; BUFFER],
    last: [u8; LONGEST_RECORD],
}

impl Listing {
    pub fn new() -> Listing
        ensures records { 65536 ≡ length result.records }
        ensures last { 84 ≡ length result.last }
    {
        Listing {
            records: buffer(),
            last: [0; LONGEST_RECORD],
        }
    }
}

impl Transcript for Listing {
    ghost told = { λ p chunk. (consumed p chunk).text };

    ghost ending = { last_text };

    ghost bytes = { λ listing. listing.records };

    ghost nothing = { listing-nothing };

    ghost joins = { listing-joins };

    ghost silent = { listing-silent };

    fn feed(&mut self, start: Session, chunk: &[u8]) -> Fed {
        session::feed(start, chunk, &mut self.records)
    }

    fn bytes(&self) -> &[u8] {
        &self.records
    }

    fn finish(&mut self, current: Session) -> &[u8] {
        let ended = session::finish(current, &mut self.last);
        &self.last[..ended.wrote]
    }
}
