// The record of a line (01, "Script and listing"), written into a buffer that has room for the longest. The digits of the line number
// are kept from line to line. All but the last are stored by one store of eight bytes, of which some stand after the number: the rest of
// the record, which is longer than they are, is written over them.
ghost use Rattle.std.specs.Prelude.{◌≡◌, ◌+◌, ◌<◌, ◌≤◌, length};
ghost use Rattle.std.proofs.lemmas.List.Edits.{sets};
ghost use Rattle.listing.specs.Answer.{shown_text};
ghost use Rattle.listing.specs.Listing.{number_after};
ghost use Rattle.script.specs.LineForms.{tab};
ghost use Rattle.script.specs.ListingLine.{cell, longest_record};
ghost use Rattle.session.specs.LineNumbers.{Ahead, Numbered, Packed, packed};

use listing::Shown;

// The digits of a number in a word, the first in the lowest byte.
#[derive(Clone, Copy)]
struct Digits {
    word: u64,
    width: usize,
}

// A line number, the digits before its last where they are at most eight, and the last. A width of 9 says that they are not kept: an
// `Option<Digits>` would be a word more, in what is written anew for every line.
#[derive(Clone, Copy)]
pub struct LineNumber {
    pub number: u64,
    front: u64,
    width: usize,
    last: u8,
}

// The digits of a number; 0 has none.
fn digits_of(number: u64) -> Digits
    requires { number < 100000000 }
    ensures { Packed number result }
{
    let mut word: u64 = 0;
    let mut width: usize = 0;
    let mut rest = number;
    // A division a digit: there is no list of digits to go over.
    while rest > 0 {
        word = word * 256 + (48 + rest % 10);
        width += 1;
        rest = rest / 10;
    }
    Digits { word, width }
}

// The line number with its digits.
pub(crate) fn line_number(number: u64) -> LineNumber
    ensures { Numbered result number }
{
    if number < 1000000000 {
        let digits = digits_of(number / 10);
        return LineNumber {
            number,
            front: digits.word,
            width: digits.width,
            last: b'0' + (number % 10) as u8,
        };
    }
    LineNumber {
        number,
        front: 0,
        width: 9,
        last: 0,
    }
}

// The next line number. Of ten numbers nine differ from the one before in the last digit only.
pub(crate) fn next_number(line: LineNumber) -> LineNumber
    requires { Numbered line line.number }
    ensures { Numbered result (number_after line.number) }
{
    let number = std::num::wrapping_add_u64(line.number, 1);
    if line.width <= 8 {
        if line.last < b'9' {
            return LineNumber {
                number,
                front: line.front,
                width: line.width,
                last: line.last + 1,
            };
        }
    }
    line_number(number)
}

// Stores the eight bytes of a word, the lowest first.
fn store_word(out: &mut [u8], at: usize, word: u64)
    requires { at + 8 ≤ length out.old }
    ensures { out.new ≡ sets out.old at (packed 8 word) }
{
    out[at..at + 8].copy_from_slice(&word.to_le_bytes());
}

// Writes `value` and the byte `closing` into `out` from `at` on, and returns the place after them. Most values have one digit.
fn write_cell(out: &mut [u8], at: usize, value: u64, closing: u8) -> usize
    requires { at + length (cell value closing) ≤ length out.old }
    ensures value { result ≡ at + length (cell value closing) }
    ensures out_after { out.new ≡ sets out.old at (cell value closing) }
{
    if value < 10 {
        out[at] = b'0' + value as u8;
        out[at + 1] = closing;
        return at + 2;
    }
    let end = decimal::write(out, at, value);
    out[end] = closing;
    end + 1
}

// Writes the line number and a tab, in the same way, with bytes after them that the rest of the record covers.
fn write_number(out: &mut [u8], at: usize, line: LineNumber) -> usize
    requires longest_record_in_bounds { at + longest_record ≤ length out.old }
    requires numbered { Numbered line line.number }
    ensures value { result ≡ at + length (cell line.number tab) }
    ensures ahead { Ahead out.old at (cell line.number tab) out.new }
{
    if 8 < line.width {
        return write_cell(out, at, line.number, b'\t');
    }
    store_word(out, at, line.front);
    let end = at + line.width;
    out[end] = line.last;
    out[end + 1] = b'\t';
    end + 2
}

// Writes the record of a line into `out` from `at` on, and returns the place after it.
pub(crate) fn write_record(out: &mut [u8], at: usize, line: LineNumber, shown: Shown) -> usize
    requires longest_record_in_bounds { at + longest_record ≤ length out.old }
    requires numbered { Numbered line line.number }
    ensures value { result ≡ at + length (shown_text line.number shown) }
    ensures out_after { out.new ≡ sets out.old at (shown_text line.number shown) }
{
    let after_number = write_number(out, at, line);
    let after_answer = write_cell(out, after_number, shown.answer, b'\t');
    let after_value = write_cell(out, after_answer, shown.value, b'\t');
    write_cell(out, after_value, shown.level.0, b'\n')
}
