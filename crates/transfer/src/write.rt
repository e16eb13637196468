// The records of a machine whose parts are lent (02, request 2), written one after the other along the walk.
ghost use Rattle.std.specs.Prelude.{true, ◌≡◌, ◌+◌, ◌≤◌, length};
ghost use Rattle.std.proofs.lemmas.List.Edits.{sets};
ghost use Rattle.decimal.specs.Write.{after_text, with_text};
ghost use Rattle.model.specs.WellFormed.{well_formed};
ghost use Rattle.records.specs.RecordTexts.{longest_text, records_text};
ghost use Rattle.state.specs.Lent.{state_of};
ghost use Rattle.transfer.specs.Sent.{places_text, sent_text};

use crate::place_quantity::quantity;
use crate::record_text::{put, write_first, write_record};
use model::machine::Setup;
use records::walk;
use state::parts::Parts;
use state::well_formed_state::well_formed;

// The room that the records of any well-formed machine need.
pub const LONGEST_TEXT: usize = 65536;

// Writes all records after the first from `start` on, and returns the place after them.
fn write_places(out: &mut [u8], start: usize, setup: Setup, parts: &Parts, words: &[u64]) -> usize
    requires words_value { well_formed (state_of setup parts.now words.now) ≡ true }
    requires words_in_bounds { start + length (places_text (state_of setup parts.now words.now))
        ≤ length out.old }
    ensures value { result ≡ start + length (places_text (state_of setup parts.now words.now)) }
    ensures out_after { out.new ≡ sets out.old start (places_text (state_of setup parts.now words.now)) }
{
    let mut at = start;
    let mut due = walk::first(setup);
    while let Some(place) = due {
        let value = quantity(setup, parts, words, place);
        at = write_record(out, at, place, value);
        due = walk::next(setup, place);
    }
    at
}

// Writes all records at the start of a buffer that has room for them, and returns how many bytes they take.
fn write_all(out: &mut [u8], setup: Setup, parts: &Parts, words: &[u64]) -> usize
    requires words_value { well_formed (state_of setup parts.now words.now) ≡ true }
    requires longest_text_in_bounds { longest_text ≤ length out.old }
    ensures value { result ≡ length (records_text (state_of setup parts.now words.now)) }
    ensures out_after { out.new ≡ sets out.old 0 (records_text (state_of setup parts.now words.now)) }
{
    let end = write_first(out, setup);
    write_places(out, end, setup, parts, words)
}

// Writes all records at the start of a buffer of any size, by way of one that has room; nothing where they have none.
fn write_within(out: &mut [u8], setup: Setup, parts: &Parts, words: &[u64]) -> usize
    requires { well_formed (state_of setup parts.now words.now) ≡ true }
    ensures value { result ≡ after_text out.old 0 (sent_text (state_of setup parts.now words.now)) }
    ensures out_after { out.new ≡ with_text out.old 0 (sent_text (state_of setup parts.now words.now)) }
{
    let mut text = [0; LONGEST_TEXT];
    let size = write_all(&mut text, setup, parts, words);
    if out.len() < size {
        return 0;
    }
    put(out, 0, &text[..size])
}

// Writes the records of a machine at the start of `out`, and returns how many bytes they take. Where the machine is not well formed, or
// its records have no room, nothing is written and 0 is returned. LONGEST_TEXT bytes are always room.
pub fn write_records(out: &mut [u8], setup: Setup, parts: &Parts, words: &[u64]) -> usize
    ensures value { result ≡ after_text out.old 0 (sent_text (state_of setup parts.now words.now)) }
    ensures out_after { out.new ≡ with_text out.old 0 (sent_text (state_of setup parts.now words.now)) }
{
    if !well_formed(setup, parts, words) {
        return 0;
    }
    if LONGEST_TEXT <= out.len() {
        return write_all(out, setup, parts, words);
    }
    write_within(out, setup, parts, words)
}
