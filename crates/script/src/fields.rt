// The fields of a line (01, "Script and listing"), found from tab to tab and handed on as parts of the line, and the numbers that they say.
ghost use Rattle.std.specs.Prelude.{◌≡◌, ◌<◌, ◌≤◌, length};
ghost use Rattle.script.specs.NumberRows.{NumberEnd, fields_after, numbers_after, refusal_in, row_in};

use crate::search::{find_byte, occurrences};
use model::answer::Refusal;

// Where the field that starts at `start` ends. Most numbers have one digit, so the byte after it is looked at first.
fn number_end(line: &[u8], start: usize) -> usize
    requires { start < length line.now }
    ensures { NumberEnd line.now start result }
{
    let next = start + 1;
    match line.get(next) {
        None => line.len(),
        Some(b'\t') => next,
        Some(_) => find_byte(line, next + 1, b'\t'),
    }
}

// How many fields come after the one that ends at `from`: as many as tabs.
pub(crate) fn count_after(line: &[u8], from: usize) -> usize
    ensures { result ≡ length (fields_after line.now from) }
{
    if line.len() <= from {
        return 0;
    }
    1 + occurrences(&line[from + 1..], b'\t')
}

// Why the fields after the one that ends at `from` are refused: there are not `takes` of them, or one is not a number.
// Only a refused line pays for it.
fn refusal(line: &[u8], from: usize, takes: usize) -> Refusal
    ensures { result ≡ refusal_in takes (fields_after line.now from) }
{
    if count_after(line, from) == takes {
        return Refusal::NotANumber;
    }
    Refusal::WrongFieldCount
}

// The numbers of the fields after the one that ends at `from`, in front of zeros, where there are exactly `takes` of them. This and
// `numbers` are inlined, so that the row is not copied at each line.
#[inline(always)]
fn row(line: &[u8], from: usize, takes: usize) -> Option<[u64; 7]>
    requires from_in_bounds { from ≤ length line.now }
    requires takes_bound { takes ≤ 7 }
    ensures { result ≡ row_in takes (fields_after line.now from) }
{
    let mut values = [0; 7];
    let mut at = from;
    for count in 0..takes {
        let start = at + 1;
        if line.len() <= start {
            return None;
        }
        let end = number_end(line, start);
        values[count] = decimal::read(&line[start..end])?;
        at = end;
    }
    if at < line.len() {
        return None;
    }
    Some(values)
}

// The same numbers, or why the fields are refused.
#[inline(always)]
pub(crate) fn numbers(line: &[u8], from: usize, takes: usize) -> Result<[u64; 7], Refusal>
    requires from_in_bounds { from ≤ length line.now }
    requires takes_bound { takes ≤ 7 }
    ensures { result ≡ numbers_after takes (fields_after line.now from) }
{
    row(line, from, takes).ok_or_else(|| refusal(line, from, takes))
}
