// A machine read from its records (02, request 2). A script without first line may follow them.
#![tactic(auto)]

ghost use Rattle.std.specs.Prelude.{◌≡◌, ◌≤◌, length};
ghost use Rattle.records.specs.Reading.{passed_on};
ghost use Rattle.reader.specs.Received.{Few, Placed, Used, blank_record, blank_rows, passed_in, wanted};
ghost use Rattle.script.specs.Records.{lines};

use crate::first::first_record;
use crate::places::{after_line, read_places};
use chunk::line_end;
use model::machine::Setup;
use processor::record::{ENABLED, RECORD_WORDS, Record};
use state::fresh::{admissible, setup_of};
use state::parts::Parts;
use state::well_formed_state::well_formed;

mod first; // the first record
mod line; // what a line says of a place
mod places; // the records after the first
mod store; // a quantity stored at a place

// What reading gives: how many bytes the records take, and the machine in its parts: what stays the same, what it holds
// of levels, masks and processors, and the words of the pages, as many as there are. The words beyond the pages are left open.
#[derive(Clone, Copy)]
pub struct Received {
    pub used: usize,
    pub setup: Setup,
    pub parts: Parts,
    pub words: [u64; 64],
}

// The words of the levels and of a processor before any quantity is stored: level 0 is enabled.
const LEVEL_ZERO_ALONE: u64 = 1;

fn blank_record(on: bool) -> Record
    ensures { result ≡ blank_record on }
{
    let mut words = [0; RECORD_WORDS];
    if on {
        words[ENABLED] = LEVEL_ZERO_ALONE;
        return words;
    }
    words
}

// The records of four processors before any quantity is stored.
fn blank_records(processors: u64) -> [Record; 4]
    ensures { result ≡ blank_rows processors }
{
    [
        blank_record(0 < processors),
        blank_record(1 < processors),
        blank_record(2 < processors),
        blank_record(3 < processors),
    ]
}

// The machine that the records from `from` on say, if it is well formed.
fn receive(input: &[u8], from: usize, setup: Setup) -> Option<Received>
    requires from_in_bounds { from ≤ length input.now }
    requires few { Few setup }
    ensures passed { passed_in result input.now ≡ wanted setup input.now from }
    ensures used { Placed setup from result input.now }
{
    let mut parts = Parts {
        levels: [LEVEL_ZERO_ALONE, 0, 0, 0, 0, 0],
        masks: [0; 256],
        vps: blank_records(setup.processors),
    };
    let mut words = [0u64; 64];
    let used = read_places(input, from, setup, &mut parts, &mut words)?;
    let pages = setup.pages as usize;
    if !well_formed(setup, &parts, &words[..pages]) {
        return None;
    }
    Some(Received {
        used,
        setup,
        parts,
        words,
    })
}

// Reads a machine from the records that the input begins with: the state and the lines after them are those of `passed_on`, or nothing is
// accepted.
pub fn read(input: &[u8]) -> Option<Received>
    ensures passed { passed_in result input.now ≡ passed_on (lines input.now) }
    ensures used { Used result input.now }
{
    if input.len() == 0 {
        return None;
    }
    let end = line_end(input, 0);
    let Ok(first) = first_record(&input[..end]) else {
        return None;
    };
    if !admissible(first) {
        return None;
    }
    receive(input, after_line(input, end), setup_of(first))
}
