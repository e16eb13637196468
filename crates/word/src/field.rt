// A field of a 64-bit word: `width` bits from bit `offset` up, as in the C types of document 001. The definitions are those of
// specs/Field.antt. At an offset and a width that are constants a call costs a shift and a mask.
ghost use Rattle.std.specs.Prelude.{◌≡◌, ◌+◌, ◌≤◌, if◌then◌else◌};
ghost use Rattle.word.specs.Field.{bit, field, field_at, put_at, put_word};

use std::num::wrapping_add_u64;

// The field. Bits past bit 63 are 0.
pub fn take(word: u64, offset: u32, width: u32) -> u64
    ensures { result ≡ field offset width word }
{
    if offset >= 64 {
        return 0;
    }
    let from = word >> offset;
    if width >= 64 {
        return from;
    }
    from % (1 << width)
}

// The word with the field replaced by the low bits of `value`. Bits past bit 63 are dropped.
pub fn put(word: u64, offset: u32, width: u32, value: u64) -> u64
    ensures { result ≡ put_word offset width word value }
{
    if offset >= 64 {
        return word;
    }
    let old = take(word, offset, width) << offset;
    let new = take(value, 0, width) << offset;
    wrapping_add_u64(word - old, new)
}

// Is the bit set? Bits past bit 63 are not.
pub fn has_bit(word: u64, index: u32) -> bool
    ensures { result ≡ bit word index }
{
    take(word, index, 1) == 1
}

// Where a field stands in its word: its offset, and its width in bits.
#[derive(Clone, Copy)]
pub struct FieldPosition(pub u32, pub u32);

impl FieldPosition {
    // The field.
    pub fn take(self, word: u64) -> u64
        ensures { result ≡ field_at self word }
    {
        take(word, self.0, self.1)
    }

    // The word with the field, which ends by bit 64, replaced by the low bits of `value`.
    pub(crate) fn put(self, word: u64, value: u64) -> u64
        requires { self.0 + self.1 ≤ 64 }
        ensures { result ≡ put_at self word value }
    {
        put(word, self.0, self.1, value)
    }
}

// 1 if the condition holds, else 0: the value of a field of one bit.
pub fn one_if(condition: bool) -> u64
    ensures { result ≡ (if condition then 1 else 0) }
{
    if condition { 1 } else { 0 }
}
