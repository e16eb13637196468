// A text written into a lent buffer by way of a buffer of fixed size: so the room that a session asks for beyond the records that it
// writes is never asked of the caller.
ghost use Rattle.std.specs.Prelude.{◌≡◌, ◌≤◌, ℕ, suc, ◌+◌, ◌*◌, List, length};
ghost use Rattle.decimal.specs.Write.{with_text};
ghost use Rattle.listing.specs.Listing.{listing};
ghost use Rattle.passing.specs.Passing.{resumed};
ghost use Rattle.script.specs.Records.{lines_in};
ghost use Rattle.session.specs.Session.{consumed, finished, progress_of};
ghost use Rattle.xalevinda.specs.Exports.{at_most_word, size_of};
ghost use Rattle.xalevinda.specs.StoredListing.{Stored};

use script::search::occurrences;
use session::{LONGEST_RECORD, Session};
use sheet::put;
use transfer::write::LONGEST_TEXT;

// What is written of an input.
pub(crate) trait Text {
    ghost text: { List ℕ → List ℕ };

    // Room that is known to be enough without a run: the largest number where none is known.
    fn enough(input: &[u8]) -> usize
        ensures { size_of (text input.now) ≤ result };

    // Runs an input. Writes its text into `out` where it has room, and returns how many bytes it has. Where it has no room `out` holds
    // parts of it.
    fn write(input: &[u8], out: &mut [u8]) -> usize
        ensures { Stored (text input.now) 0 result out.old out.new };
}

// The listing of a script.
pub(crate) struct Listing;

// What resuming gives of the records of a state, which a script without first line follows.
pub(crate) struct Resumed;

// How many lines of an input end in a line feed.
fn line_feeds(input: &[u8]) -> usize
    ensures { result ≡ length (lines_in input.now).complete }
{
    occurrences(input, b'\n')
}

// The sum, or the largest number where it does not fit.
pub(crate) fn added(size: usize, more: usize) -> usize
    ensures { result ≡ at_most_word (size + more) }
{
    size.saturating_add(more)
}

// A longest record for every line feed and for one line more.
fn enough_for_records(input: &[u8]) -> usize
    ensures { at_most_word (84 * suc (length (lines_in input.now).complete)) ≤ result }
{
    added(line_feeds(input), 1).saturating_mul(LONGEST_RECORD)
}

// Feeds a script, or what is left of one, to a session, and ends it. Writes its records into `out` from `begun` on where they have room,
// and returns the place after them. Where they have no room `out` holds parts of them.
fn write(start: Session, script: &[u8], out: &mut [u8], begun: usize) -> usize
    ensures { Stored (finished (consumed (progress_of start) script.now)) begun result
        out.old out.new }
{
    // The records of a piece: so much room that there are few pieces, and little to clear.
    let mut records = [0u8; LONGEST_TEXT];
    let mut s = start;
    let mut size = begun;
    let mut rest = script;
    while !rest.is_empty() {
        let fed = session::feed(s, rest, &mut records);
        let wrote = fed.wrote;
        put(out, size, &records[..wrote]);
        size = added(size, wrote);
        rest = &rest[fed.used..];
        s = fed.session;
    }
    let mut last = [0u8; LONGEST_RECORD];
    let ended = session::finish(s, &mut last);
    let wrote = ended.wrote;
    put(out, size, &last[..wrote]);
    added(size, wrote)
}

impl Text for Listing {
    ghost text = { listing };

    fn enough(input: &[u8]) -> usize {
        enough_for_records(input)
    }

    fn write(input: &[u8], out: &mut [u8]) -> usize {
        write(session::fresh(), input, out, 0)
    }
}

impl Text for Resumed {
    ghost text = { resumed };

    fn enough(input: &[u8]) -> usize {
        enough_for_records(input)
    }

    // The answer to the records, and then the records of the script that follows them.
    fn write(input: &[u8], out: &mut [u8]) -> usize {
        let mut line = [0u8; LONGEST_RECORD];
        let opened = passing::open(input, &mut line);
        let wrote = opened.wrote;
        put(out, 0, &line[..wrote]);
        let session = opened.session;
        let used = opened.used;
        write(session, &input[used..], out, wrote)
    }
}

// Writes all that is written of an input at the start of `out`, or nothing where it has no room, and returns how many bytes it has. The input
// is run once to count them, and once more to write them; once only where `out` is known to have room.
pub(crate) fn whole<T: Text>(input: &[u8], out: &mut [u8]) -> usize
    ensures size { result ≡ size_of (T.text input.now) }
    ensures out { out.new ≡ with_text out.old 0 (T.text input.now) }
{
    if T::enough(input) <= out.len() {
        return T::write(input, out);
    }
    let mut nothing = [0u8; 0];
    let size = T::write(input, &mut nothing);
    if size <= out.len() {
        T::write(input, out);
    }
    size
}
