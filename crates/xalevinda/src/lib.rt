// The library for other programs: functions over numbers and slices. Each takes any arguments, calls nothing of the system and allocates
// nothing. crates/xalevinda_c exports them to C under the same names, since a function of a library is not exported.
#![tactic(auto)]

ghost use Rattle.std.specs.Prelude.{◌≡◌};
ghost use Rattle.decimal.specs.Write.{with_text};
ghost use Rattle.inquiry.specs.Inquiry.{explained};
ghost use Rattle.listing.specs.Listing.{listing};
ghost use Rattle.lockstep.specs.Lockstep.{opened, shown_after, stepped};
ghost use Rattle.lockstep.specs.MachineWords.{state_in};
ghost use Rattle.passing.specs.Passing.{resumed, saved};
ghost use Rattle.reason.specs.ReasonedListing.{reasoned};
ghost use Rattle.word.specs.RegisterFields.{field_of, with_field};
ghost use Rattle.xalevinda.specs.Exports.{size_of};

use reasoned_text::Reasons;
use transfer::write::LONGEST_TEXT;
use written::{Listing, Resumed};

mod reasoned_text; // the listing with reasons, written into a buffer
mod written; // a text written into a buffer

// The listing of a whole script (01, "Script and listing"), written at the start of `out`: all of it, or nothing where it has no room.
// Returns how many bytes the listing has, or the largest number where it has more. The script is run once to count them, and once more
// to write them. Where `out` has room for a longest record for every line feed and for one line more, it is run once only.
pub fn xalevinda_listing(script: &[u8], out: &mut [u8]) -> usize
    ensures size { result ≡ size_of (listing script.now) }
    ensures out { out.new ≡ with_text out.old 0 (listing script.now) }
{
    written::whole::<Listing>(script, out)
}

// What saving after a script writes (02, request 2): the records of the state after it, or the refusal line where its first line is bad. All of
// it at the start of `out`, or nothing where it has no room. Returns how many bytes it has: fewer than 64 KB. The script is run once.
pub fn xalevinda_save(script: &[u8], out: &mut [u8]) -> usize
    ensures size { result ≡ size_of (saved script.now) }
    ensures out { out.new ≡ with_text out.old 0 (saved script.now) }
{
    let mut text = [0u8; LONGEST_TEXT];
    let start = session::fresh();
    let after = passing::consume(start, script);
    let size = passing::save(after, &mut text);
    sheet::put(out, 0, &text[..size]);
    size
}

// What resuming writes (02, request 2) of an input: the records of a state, and then a script without first line. The answer to the records
// is line 0. It is written, counted and run as for `xalevinda_listing`.
pub fn xalevinda_resume(input: &[u8], out: &mut [u8]) -> usize
    ensures size { result ≡ size_of (resumed input.now) }
    ensures out { out.new ≡ with_text out.old 0 (resumed input.now) }
{
    written::whole::<Resumed>(input, out)
}

// Why an access is allowed or denied (02, request 3): the sheet of the access line that follows the records of a state, or the verdict on the
// sheet that follows it. All of it at the start of `out`, or nothing where it has no room. Returns how many bytes it has: at most 261.
pub fn xalevinda_explain(input: &[u8], out: &mut [u8]) -> usize
    ensures size { result ≡ size_of (explained input.now) }
    ensures out { out.new ≡ with_text out.old 0 (explained input.now) }
{
    let mut said = [0u8; sheet::LONGEST_VERDICT];
    let size = inquiry::explain(input, &mut said);
    sheet::put(out, 0, &said[..size]);
    size
}

// The listing of a whole script with the reason for every answer, written at the start of `out`: all of it, or nothing where it has no room.
// Returns how many bytes it has, or the largest number where it has more. The script is run once to count them, and once more to write them.
pub fn xalevinda_why(script: &[u8], out: &mut [u8]) -> usize
    ensures size { result ≡ size_of (reasoned script.now) }
    ensures out { out.new ≡ with_text out.old 0 (reasoned script.now) }
{
    written::whole::<Reasons>(script, out)
}

// Lockstep: makes the fresh machine of a first line (01, "Script and listing") in the words of `machine`. Returns 0, or the number of the reason
// why there is none: fewer than lockstep::MACHINE_WORDS words, a malformed line, or numbers that are not admissible. Then no word changes.
pub fn xalevinda_open(line: &[u8], machine: &mut [u64]) -> u64
    ensures reason { result ≡ (opened line.now machine.old).reason }
    ensures words { machine.new ≡ (opened line.now machine.old).words }
    ensures state { state_in machine.new ≡ (opened line.now machine.old).state }
{
    lockstep::open(line, machine)
}

// Lockstep: answers one line after the first on the words of `machine`, whatever they hold. Returns the number of the answer; `shown` gets its
// value, the level column and the number of the reason. A slice that is too short gets answer 1 and no word of the machine changes.
pub fn xalevinda_step(machine: &mut [u64], line: &[u8], shown: &mut [u64]) -> u64
    ensures answer { result
        ≡ (stepped machine.old line.now shown.old).reply.answer }
    ensures words { machine.new
        ≡ (stepped machine.old line.now shown.old).words }
    ensures state { state_in machine.new
        ≡ (stepped machine.old line.now shown.old).state }
    ensures shown { shown.new
        ≡ shown_after machine.old line.now shown.old }
{
    lockstep::step(machine, line, shown)
}

// The value of a field of a register's word. Registers and their used fields are numbered from 0 in the order of 001; any other number
// of a register or a field gives 0.
pub fn xalevinda_field(register: u64, field: u64, word: u64) -> u64
    ensures { result ≡ field_of register field word }
{
    word::registers::field_of(register, field, word)
}

// The word with that field replaced by the low bits of `value`; the other bits stay. Any other number of a register or a field gives
// the word as it is.
pub fn xalevinda_with_field(register: u64, field: u64, word: u64, value: u64) -> u64
    ensures { result ≡ with_field register field word value }
{
    word::registers::with_field(register, field, word, value)
}
