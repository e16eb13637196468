// Lines in a chunk: where one ends, and the beginning of one that goes on in the next chunk.
#![tactic(auto)]

ghost use Rattle.std.specs.Prelude.{◌++◌, ◌≡◌, List, [], ℕ, length, take};
ghost use lib.ListN;
ghost use Rattle.script.specs.First.{line_first};
ghost use Rattle.chunk.specs.Chunk.{held, kept_bytes, line_end};
ghost use Rattle.chunk.specs.HeldBytes.{held_bytes};

use model::answer::Refusal;
use model::machine::FirstLine;
use script::search::find_far_byte;

// A line has at most 256 bytes; one more is kept, so that a longer line is known to be too long.
pub const KEPT_BYTES: usize = script::LONGEST_LINE + 1;

// Where the line that starts at `start` ends: at the next line feed, or at the chunk's end.
pub fn line_end(chunk: &[u8], start: usize) -> usize
    ensures { result ≡ line_end chunk.now start }
{
    find_far_byte(chunk, start, b'\n')
}

// The beginning of a line that goes on in the next chunk: the first `length` bytes of a buffer, since the library takes no memory of the heap.
#[derive(Clone, Copy)]
pub struct HeldLine {
    pub buffer: [u8; KEPT_BYTES],
    pub length: usize,
}

impl HeldLine {
    // No byte of a line.
    pub fn new() -> HeldLine
        ensures { held_bytes result ≡ [] }
    {
        HeldLine {
            buffer: [0; KEPT_BYTES],
            length: 0,
        }
    }

    // The bytes that are held.
    pub fn bytes(&self) -> &[u8]
        ensures { result.now ≡ held_bytes self.now }
    {
        &self.buffer[..self.len()]
    }

    // How many they are.
    pub fn len(&self) -> usize
        ensures { result ≡ length (held_bytes self.now) }
    {
        self.length.min(KEPT_BYTES)
    }

    // Holds more bytes, as far as there is room. What the buffer has beyond them is no part of the line, and nothing is promised of it.
    pub fn append(&mut self, more: &[u8])
        ensures { held_bytes self.new ≡ take kept_bytes (held_bytes self.old ++ more.now) }
    {
        let at = self.length.min(KEPT_BYTES);
        let count = more.len().min(KEPT_BYTES - at);
        self.buffer[at..at + count].copy_from_slice(&more[..count]);
        self.length = at + count;
    }

    // What the bytes say as a first line.
    pub fn parse_first(&self) -> Result<FirstLine, Refusal>
        ensures { result ≡ line_first (held_bytes self.now) }
    {
        script::parse_first(self.bytes())
    }
}
