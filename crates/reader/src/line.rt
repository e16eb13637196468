// What a line says as the record of a place (02, request 2): it begins with the record's word and indices, each with a tab behind it,
// byte for byte, and ends with a number as 01 writes them.
ghost use Rattle.std.specs.Prelude.{false, true, [], ◌∷◌, ◌≡◌, ◌<◌, ◌≤◌, length};
ghost use Rattle.records.specs.Reading.{is_flag, line_value, taken};
ghost use Rattle.records.specs.RecordTexts.{closed, front};
ghost use Rattle.reader.specs.PastBytes.{After, TwoDigits};
ghost use Rattle.reader.specs.Slots.{Room};
ghost use Rattle.script.specs.LineForms.{tab};
ghost use Rattle.script.specs.ListingLine.{cell};

use records::head::{indices_of, word_of};
use records::place::Place;

// The place behind one byte that a line must have.
fn past_byte(line: &[u8], at: usize, byte: u8) -> Option<usize>
    ensures { After line.now at (byte ∷ []) result }
{
    if line.len() <= at {
        return None;
    }
    if line[at] == byte {
        return Some(at + 1);
    }
    None
}

// The place behind a byte and a tab.
fn past_last(line: &[u8], at: usize, byte: u8) -> Option<usize>
    ensures { After line.now at (byte ∷ tab ∷ []) result }
{
    let next = past_byte(line, at, byte)?;
    past_byte(line, next, b'\t')
}

// The place behind an index and a tab. An index has one digit or two.
fn past_index(line: &[u8], at: usize, index: u64) -> Option<usize>
    requires { index < 100 }
    ensures { After line.now at (cell index tab) result }
{
    if index < 10 {
        return past_last(line, at, b'0' + index as u8);
    }
    let next = past_byte(line, at, b'0' + (index / 10) as u8)?;
    past_last(line, next, b'0' + (index % 10) as u8)
}

// The place behind a word at the beginning of the line.
fn past_word(line: &[u8], word: &[u8]) -> Option<usize>
    ensures { After line.now 0 word.now result }
{
    line.starts_with(word).then_some(word.len())
}

// The place behind indices, each with its tab.
fn past_indices(line: &[u8], at: usize, indices: &[u64]) -> Option<usize>
    requires at_in_bounds { at ≤ length line.now }
    requires two_digits { TwoDigits indices.now }
    ensures { After line.now at (closed indices.now) result }
{
    let mut end = at;
    for index in indices {
        end = past_index(line, end, *index)?;
    }
    Some(end)
}

// The place behind the word and the indices of a place's record.
fn past_front(line: &[u8], place: Place) -> Option<usize>
    requires { Room place }
    ensures { After line.now 0 (front place) result }
{
    let next = past_word(line, word_of(place))?;
    past_indices(line, next, indices_of(place).as_slice())
}

// Does the quantity at a place say yes or no?
#[tactic(auto, unfolding(records::specs::Reading::is_flag))]
fn is_flag(place: Place) -> bool
    ensures { result ≡ is_flag place }
{
    matches!(
        place,
        Place::PartitionEnabled(_) | Place::Mbec(_) | Place::Enabled(_, _)
    )
}

// A number that says yes or no is 0 or 1.
fn flag(number: Option<u64>) -> Option<u64>
    ensures { taken false result ≡ taken true number }
{
    number.filter(|value| *value <= 1)
}

// The number that a line says of a place.
pub(crate) fn line_value(place: Place, line: &[u8]) -> Option<u64>
    requires { Room place }
    ensures { taken false result ≡ line_value place line.now }
{
    let end = past_front(line, place)?;
    let number = decimal::read(&line[end..]);
    if is_flag(place) {
        return flag(number);
    }
    number
}
