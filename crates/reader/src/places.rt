// The records after the first, read line after line along the walk (02, request 2), and stored.
ghost use Rattle.std.specs.Prelude.{◌≡◌, min, ◌+◌, ◌≤◌, length};
ghost use Rattle.reader.specs.Received.{Few, Taken, blank_parts};
ghost use Rattle.reader.specs.Slots.{parts_with};

use crate::line::line_value;
use crate::store::store;
use chunk::line_end;
use model::machine::Setup;
use records::walk;
use state::parts::Parts;

// The place after a line that ends at `end`, and after its line feed if it has one.
pub(crate) fn after_line(input: &[u8], end: usize) -> usize
    ensures { result ≡ min (end + 1) (length input.now) }
{
    if end < input.len() {
        return end + 1;
    }
    input.len()
}

// Reads the records from `from` on into the parts, and says where they end.
pub(crate) fn read_places(
    input: &[u8],
    from: usize,
    setup: Setup,
    parts: &mut Parts,
    words: &mut [u64; 64],
) -> Option<usize>
    requires from_in_bounds { from ≤ length input.now }
    requires few { Few setup }
    requires words_value { parts_with parts.old words.old ≡ blank_parts setup }
    ensures { Taken setup input.now from result
        (parts_with parts.new words.new) }
{
    let mut at = from;
    let mut due = walk::first(setup);
    while let Some(place) = due {
        if input.len() <= at {
            return None;
        }
        let end = line_end(input, at);
        let value = line_value(place, &input[at..end])?;
        store(parts, words, place, value);
        at = after_line(input, end);
        due = walk::next(setup, place);
    }
    Some(at)
}
