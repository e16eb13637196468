// The text of a record, written into a buffer that the caller lends: its word, its indices and its number, each with the byte that
// closes it. The caller gives room for it.
ghost use Rattle.std.specs.Prelude.{◌++◌, ◌≡◌, ◌+◌, ◌≤◌, length};
ghost use Rattle.std.proofs.lemmas.List.Edits.{sets};
ghost use Rattle.records.specs.RecordTexts.{closed, front as front_text};
ghost use Rattle.script.specs.ListingLine.{cell};
ghost use Rattle.transfer.specs.Sent.{first_record_text, record_text};

use model::machine::Setup;
use records::head::{indices_of, word_of};
use records::place::Place;
use script::storing::store;
use word::field::one_if;

// Copies bytes into `out` from `at` on, and returns the place after them.
pub(crate) fn put(out: &mut [u8], at: usize, bytes: &[u8]) -> usize
    requires { at + length bytes.now ≤ length out.old }
    ensures value { result ≡ at + length bytes.now }
    ensures out_after { out.new ≡ sets out.old at bytes.now }
{
    store(out, at, bytes);
    at + bytes.len()
}

// Writes a number and the byte `closing`.
fn write_cell(out: &mut [u8], at: usize, value: u64, closing: u8) -> usize
    requires { at + length (cell value closing) ≤ length out.old }
    ensures value { result ≡ at + length (cell value closing) }
    ensures out_after { out.new ≡ sets out.old at (cell value closing) }
{
    let end = decimal::write(out, at, value);
    out[end] = closing;
    end + 1
}

// Writes numbers, each with a tab after it.
fn write_closed(out: &mut [u8], at: usize, numbers: &[u64]) -> usize
    requires { at + length (closed numbers.now) ≤ length out.old }
    ensures value { result ≡ at + length (closed numbers.now) }
    ensures out_after { out.new ≡ sets out.old at (closed numbers.now) }
{
    let mut end = at;
    for number in numbers {
        end = write_cell(out, end, *number, b'\t');
    }
    end
}

// Writes a word, which ends in a tab, and indices.
fn write_head(out: &mut [u8], at: usize, word: &[u8], indices: &[u64]) -> usize
    requires { at + length (word.now ++ closed indices.now) ≤ length out.old }
    ensures value { result ≡ at + length (word.now ++ closed indices.now) }
    ensures out_after { out.new
        ≡ sets out.old at (word.now ++ closed indices.now) }
{
    let end = put(out, at, word);
    write_closed(out, end, indices)
}

// Writes the word and the indices of a place.
fn write_front(out: &mut [u8], at: usize, place: Place) -> usize
    requires { at + length (front_text place) ≤ length out.old }
    ensures value { result ≡ at + length (front_text place) }
    ensures out_after { out.new ≡ sets out.old at (front_text place) }
{
    write_head(out, at, word_of(place), indices_of(place).as_slice())
}

// Writes the record of a place with the quantity `value`.
pub(crate) fn write_record(out: &mut [u8], at: usize, place: Place, value: u64) -> usize
    requires { at + length (record_text place value) ≤ length out.old }
    ensures value { result ≡ at + length (record_text place value) }
    ensures out_after { out.new ≡ sets out.old at (record_text place value) }
{
    let end = write_front(out, at, place);
    write_cell(out, end, value, b'\n')
}

// Writes the first record, which has seven fields, at the start of `out`.
pub(crate) fn write_first(out: &mut [u8], setup: Setup) -> usize
    requires { length (first_record_text setup) ≤ length out.old }
    ensures value { result ≡ length (first_record_text setup) }
    ensures out_after { out.new ≡ sets out.old 0 (first_record_text setup) }
{
    let shape = setup.shape;
    let numbers = [
        setup.processors,
        shape.max_level.0,
        setup.pages,
        one_if(shape.dr6_shared),
        setup.host_mask,
    ];
    let end = write_head(out, 0, b"vsm\t", &numbers);
    write_cell(out, end, one_if(shape.smep), b'\n')
}
