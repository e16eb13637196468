// A hint on standard error where the first line of an input is refused: what is wrong with its form. It is an aid for whoever wrote the
// line. Standard output says the same with it and without it, and no contract speaks of it.
use script::search::occurrences;
use session::{LONGEST_RECORD, Session};
use std::io::{Print, Stderr};

// A first line has the word vsm and five numbers, each after a tab, and perhaps a sixth. The first record of a state always has the sixth.
const FEWEST_TABS: usize = 5;

// What is wrong with a first line: the first of these that applies.
#[derive(Clone, Copy, PartialEq, Eq)]
enum Fault {
    Spaces,
    Return,
    Word,
    Count,
    Number,
}

impl Fault {
    // What is wrong with a first line that was refused. It should have at least `fewest` tabs.
    fn of(input: &[u8], fewest: usize) -> Fault {
        let line = first_line(input);
        if line.contains(&b' ') {
            return Fault::Spaces;
        }
        if line.contains(&b'\r') {
            return Fault::Return;
        }
        if !line.starts_with(b"vsm\t") {
            return Fault::Word;
        }
        let tabs = occurrences(line, b'\t');
        if tabs < fewest || FEWEST_TABS + 1 < tabs {
            return Fault::Count;
        }
        Fault::Number
    }

    fn text(self) -> &'static [u8] {
        match self {
            Fault::Spaces => b"first line refused: it has a space, but tabs separate the fields",
            Fault::Return =>
                b"first line refused: it has a carriage return, but a line ends with a line feed alone",
            Fault::Word => b"first line refused: it does not begin with the word vsm and a tab",
            Fault::Count =>
                b"first line refused: after vsm it needs 5 or 6 numbers, each after a tab",
            Fault::Number => b"first line refused: one of its numbers is malformed or out of range",
        }
    }
}

// The bytes before the first line feed, or all.
fn first_line(input: &[u8]) -> &[u8] {
    input.split(|byte| *byte == b'\n').next().unwrap_or(input)
}

// Writes one line to standard error: the name of the input, and the hint or the reason of a failure. Where that fails, nothing comes of it.
pub fn say(err: Stderr, name: &[u8], text: &[u8]) {
    let parts: [&[u8]; 5] = [b"bench: ", name, b": ", text, b"\n"];
    for part in parts {
        let _ = Print::write_all(&err, part);
    }
}

// The hint for a first line that begins with what a session has kept of it, and goes on with these bytes.
fn hint_line(err: Stderr, name: &[u8], before: Session, more: &[u8]) {
    let mut line = before.line;
    line.append(more);
    line.append(b"\n");
    say(err, name, Fault::of(line.bytes(), FEWEST_TABS).text());
}

// Gives a hint where the first line was refused in this chunk.
pub fn hint(err: Stderr, name: &[u8], before: Session, after: Session, chunk: &[u8]) {
    if session::stopped(after) {
        hint_line(err, name, before, chunk);
    }
}

// Gives a hint where the first line lacks its line feed, and is refused at the end of the input. An empty input gets none, nor does a session
// that has stopped: it had its hint.
pub fn hint_end(err: Stderr, name: &[u8], current: Session) {
    if current.line.len() == 0 || session::stopped(current) {
        return;
    }
    let mut record = [0u8; LONGEST_RECORD];
    let ended = session::finish(current, &mut record);
    if session::stopped(ended.session) {
        hint_line(err, name, current, b"");
    }
}

// Gives a hint where an input does not begin with records: its first line is no first record. An empty input gets none.
pub fn hint_records(err: Stderr, name: &[u8], input: &[u8]) {
    if !input.is_empty() && Fault::of(input, FEWEST_TABS + 1) != Fault::Number {
        say(
            err,
            name,
            b"refused: the input does not begin with records as save writes them",
        );
    }
}
