// Where a byte stands, and how often: a tab that ends a field, or a line feed that ends a line. Every public function takes any arguments.
ghost use Rattle.std.specs.Prelude.{cond, ◌≡◌, ◌+◌, ◌≤◌, ltb, length};
ghost use Rattle.script.specs.Search.{byte_at, times};

// Where `byte` next stands from `start` on, or the end of the bytes, as `byte_at` has it. A place past the end is answered as it is.
// (`position` proves too, and costs 6 instructions a line more.)
pub fn find_byte(bytes: &[u8], start: usize, byte: u8) -> usize
    ensures { result ≡ byte_at byte bytes.now start }
{
    for i in start..bytes.len() {
        if bytes[i] == byte {
            return i;
        }
    }
    start.max(bytes.len())
}

// How often `byte` stands in the bytes. A loop: the library's `filter` and `count` take twice as long a byte.
pub fn occurrences(bytes: &[u8], byte: u8) -> usize
    ensures count { result ≡ times byte bytes.now }
    ensures within { result ≤ length bytes.now }
{
    let mut count: usize = 0;
    for found in bytes {
        if *found == byte {
            count += 1;
        }
    }
    count
}

// How many of the four bytes from `start` on stand before `byte`.
fn bytes_before(bytes: &[u8], start: usize, byte: u8) -> usize
    requires { start + 4 ≤ length bytes.now }
    ensures { byte_at byte bytes.now start
        ≡ cond (ltb result 4) (start + result) (byte_at byte bytes.now (start + 4)) }
{
    if bytes[start] == byte {
        return 0;
    }
    if bytes[start + 1] == byte {
        return 1;
    }
    if bytes[start + 2] == byte {
        return 2;
    }
    if bytes[start + 3] == byte {
        return 3;
    }
    4
}

// The same as `find_byte`, for a byte that stands far from `start`: four bytes are looked at a turn, so that a byte costs half. One at a time,
// by `position` too, misses that speed; the kit has a faster search, which would be one more library to trust.
pub fn find_far_byte(bytes: &[u8], start: usize, byte: u8) -> usize
    ensures { result ≡ byte_at byte bytes.now start }
{
    let mut i = start;
    if bytes.len() < 4 {
        return find_byte(bytes, i, byte);
    }
    let last = bytes.len() - 4;
    while i <= last {
        let passed = bytes_before(bytes, i, byte);
        if passed < 4 {
            return i + passed;
        }
        i += 4;
    }
    find_byte(bytes, i, byte)
}
