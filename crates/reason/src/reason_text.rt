// A line of the listing with reasons (reasoned_line of specs/Reasons.antt), written into a buffer that has room for it.
ghost use Rattle.std.specs.Prelude.{[], ◌∷◌, ◌++◌, ◌≡◌, ◌+◌, ◌≤◌, length};
ghost use Rattle.std.proofs.lemmas.List.Edits.{sets};
ghost use Rattle.decimal.specs.Write.{decimal};
ghost use Rattle.reason.specs.ReasonNames.{reason_name};
ghost use Rattle.reason.specs.Reasons.{longest_reason, reason_end, reasoned_text};
ghost use Rattle.script.specs.LineForms.{tab};
ghost use Rattle.script.specs.ListingLine.{line_feed};
ghost use Rattle.sheet.specs.Sheets.{sheet_text};

use crate::reason_names::name_of;
use crate::{LONGEST_REASONED, Reason};
use explanation::Explanation;
use listing::Shown;
use model::answer::Refusal;
use sheet::{LONGEST_SHEET, put};

// Writes a tab and a number. Crate sheet has the same inside: a public one would have to take any buffer.
fn write_number(out: &mut [u8], at: usize, value: u64) -> usize
    requires { at + length (tab ∷ decimal value) ≤ length out.old }
    ensures value { result ≡ at + length (tab ∷ decimal value) }
    ensures out_after { out.new ≡ sets out.old at (tab ∷ decimal value) }
{
    out[at] = b'\t';
    decimal::write(out, at + 1, value)
}

// Writes a tab, the name of a refusal, and the line feed.
fn write_name(out: &mut [u8], at: usize, refusal: Refusal) -> usize
    requires { at + longest_reason ≤ length out.old }
    ensures value { result ≡ at + length (tab ∷ reason_name refusal ++ line_feed ∷ []) }
    ensures out_after { out.new ≡ sets out.old at (tab ∷ reason_name refusal ++ line_feed ∷ []) }
{
    put(out, at, name_of(refusal))
}

// Writes a tab, the line of an explanation, and its line feed.
fn write_sheet(out: &mut [u8], at: usize, explanation: Explanation) -> usize
    requires { at + longest_reason ≤ length out.old }
    ensures value { result ≡ at + length (tab ∷ sheet_text explanation) }
    ensures out_after { out.new ≡ sets out.old at (tab ∷ sheet_text explanation) }
{
    let mut text = [0u8; LONGEST_SHEET];
    let size = sheet::write_line(&mut text, explanation);
    out[at] = b'\t';
    put(out, at + 1, &text[..size])
}

// Writes the fields of a reason, each after a tab, and the line feed.
fn write_reason(out: &mut [u8], at: usize, why: Reason) -> usize
    requires { at + longest_reason ≤ length out.old }
    ensures value { result ≡ at + length (reason_end why) }
    ensures out_after { out.new ≡ sets out.old at (reason_end why) }
{
    match why {
        Reason::Nothing => put(out, at, b"\n"),
        Reason::Named(refusal) => write_name(out, at, refusal),
        Reason::Denied(explanation) => write_sheet(out, at, explanation),
        Reason::RegisterWatched => put(out, at, b"\tregister-watched\n"),
        Reason::OutOfRange => put(out, at, b"\tfirst-line-out-of-range\n"),
        Reason::EmptyInput => put(out, at, b"\tempty-input\n"),
    }
}

// Writes a line of the listing with reasons at the start of `out`, with its line feed, and returns how many bytes it has.
pub fn write_line(out: &mut [u8; LONGEST_REASONED], number: u64, shown: Shown, why: Reason) -> usize
    ensures wrote { result ≡ length (reasoned_text number shown.answer shown.value shown.level.0 why) }
    ensures out { out.new
        ≡ sets out.old 0 (reasoned_text number shown.answer shown.value shown.level.0 why) }
    ensures within { result ≤ length out.new }
{
    let buffer: &mut [u8] = out;
    let after_number = decimal::write(buffer, 0, number);
    let after_answer = write_number(buffer, after_number, shown.answer);
    let after_value = write_number(buffer, after_answer, shown.value);
    let after_level = write_number(buffer, after_value, shown.level.0);
    write_reason(buffer, after_level, why)
}
