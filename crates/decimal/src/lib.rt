// Decimal numbers as text: a field of bytes read as a number, and a number written into a buffer that the caller lends.
// Numbers are decimal, 0 to 2^64-1, no leading zeros. Every function takes any arguments.
#![tactic(auto)]

ghost use Rattle.std.specs.Prelude.{◌≡◌, length};
ghost use Rattle.decimal.specs.Read.{digit_of, extended, read_decimal};
ghost use Rattle.decimal.specs.Write.{after_text, decimal, with_text};

// Numbers end at 2^64-1.
const LARGEST: u64 = u64::MAX;

// The digit that a byte is, if it is one.
fn digit(byte: u8) -> Option<u64>
    ensures { result ≡ digit_of byte }
{
    if (b'0' <= byte) & (byte <= b'9') {
        return Some((byte - b'0') as u64);
    }
    None
}

// The number `value` with the digit `byte` after it. Most numbers are far below the largest, and are known by two tests.
fn extend(value: u64, byte: u8) -> Option<u64>
    ensures { result ≡ extended value byte }
{
    let last = digit(byte)?;
    if value == 0 {
        return None;
    }
    if value < LARGEST / 10 {
        return Some(value * 10 + last);
    }
    if LARGEST / 10 < value {
        return None;
    }
    if LARGEST % 10 < last {
        return None;
    }
    Some(value * 10 + last)
}

// The number that the whole field says, if it is one.
pub fn read(field: &[u8]) -> Option<u64>
    ensures { result ≡ read_decimal field.now }
{
    let (first, rest) = field.split_first()?;
    let mut value = digit(*first)?;
    for byte in rest {
        value = extend(value, *byte)?;
    }
    Some(value)
}

// How many digits `value` has.
pub fn digit_count(value: u64) -> usize
    ensures { result ≡ length (decimal value) }
{
    value.checked_ilog10().unwrap_or(0) as usize + 1
}

// Writes a number of several digits, its last digit first.
fn write_long(out: &mut [u8], at: usize, value: u64) -> usize
    ensures value { result ≡ after_text out.old at (decimal value) }
    ensures out_after { out.new ≡ with_text out.old at (decimal value) }
{
    let count = digit_count(value);
    if out.len() < at {
        return at;
    }
    if out.len() - at < count {
        return at;
    }
    let end = at + count;
    let mut rest = value;
    for i in (at..end).rev() {
        // `rest % 10` would take more work.
        let tenth = rest / 10;
        out[i] = b'0' + (rest - tenth * 10) as u8;
        rest = tenth;
    }
    end
}

// Writes `value` into `out` from `at` on, and returns the place after it. Where it has no room, nothing is written, and `at` is
// returned, as `after_text` says. Most numbers have one digit.
pub fn write(out: &mut [u8], at: usize, value: u64) -> usize
    ensures value { result ≡ after_text out.old at (decimal value) }
    ensures out_after { out.new ≡ with_text out.old at (decimal value) }
{
    if 9 < value {
        return write_long(out, at, value);
    }
    if out.len() <= at {
        return at;
    }
    out[at] = b'0' + value as u8;
    at + 1
}
