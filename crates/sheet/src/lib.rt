// The sheet that says why an access is allowed or denied (02, request 3): the line of an explanation, and what is written of a sheet
// that was filled in by hand. Every public function takes any arguments.
#![tactic(auto)]

ghost use Rattle.std.specs.Prelude.{[], ◌∷◌, ◌≡◌, ◌≤◌, length};
ghost use Rattle.std.proofs.lemmas.List.Edits.{sets};
ghost use Rattle.decimal.specs.Write.{after_text, with_text};
ghost use Rattle.records.specs.RecordTexts.{ended};
ghost use Rattle.script.specs.LineForms.{fields};
ghost use Rattle.sheet.specs.Sheets.{sheet_fields, sheet_text};
ghost use Rattle.sheet.specs.Verdicts.{mark, refusal, same_fields, verdict};

use crate::sheet_text::write_sheet;
use explanation::Explanation;

mod sheet_form; // the form of a sheet
mod sheet_text; // the line of an explanation
mod shown_fields; // the fields of a sheet, one a line

pub use sheet_text::put;

// The room that the line of any explanation needs, with its line feed.
pub const LONGEST_SHEET: usize = 171;

// The length of a verdict's first line, with its line feed.
const MARK_LENGTH: usize = 4;

// The room that the verdict on any sheet needs.
pub const LONGEST_VERDICT: usize = MARK_LENGTH + script::LONGEST_LINE + 1;

// Writes the line of an explanation with its line feed at the start of `out`, and returns how many bytes it takes. Where it has no room,
// nothing is written and 0 is returned. LONGEST_SHEET bytes are always room.
pub fn write_line(out: &mut [u8], explanation: Explanation) -> usize
    ensures value { result ≡ after_text out.old 0 (sheet_text explanation) }
    ensures out_after { out.new ≡ with_text out.old 0 (sheet_text explanation) }
{
    let mut text = [0u8; LONGEST_SHEET];
    let end = write_sheet(&mut text, explanation);
    text[end] = b'\n';
    let size = end + 1;
    put(out, 0, &text[..size])
}

// Writes the refusal at the start of `out`, in the same way.
pub fn write_refusal(out: &mut [u8]) -> usize
    ensures value { result ≡ after_text out.old 0 (ended refusal) }
    ensures out_after { out.new ≡ with_text out.old 0 (ended refusal) }
{
    put(out, 0, b"1\t0\n")
}

// Whether a sheet is, field for field, the line of an explanation.
fn is_right(sheet: &[u8], explanation: Explanation) -> bool
    ensures { result ≡ same_fields (fields sheet.now) (sheet_fields explanation) }
{
    let mut text = [0u8; LONGEST_SHEET];
    let size = write_sheet(&mut text, explanation);
    sheet == &text[..size]
}

// Writes the first line of a verdict at the start of `out`, and returns its length.
fn write_mark(out: &mut [u8], right: bool) -> usize
    requires { length (ended (mark right ∷ [])) ≤ length out.old }
    ensures value { result ≡ length (ended (mark right ∷ [])) }
    ensures out_after { out.new ≡ sets out.old 0 (ended (mark right ∷ [])) }
{
    if right {
        return put(out, 0, b"0\t1\n");
    }
    put(out, 0, b"0\t0\n")
}

// Writes the verdict on a sheet at the start of `out`, and returns how many bytes it takes. Where it has no room, nothing is written and
// 0 is returned. LONGEST_VERDICT bytes are always room.
pub fn write_verdict(out: &mut [u8], explanation: Explanation, sheet: &[u8]) -> usize
    ensures value { result ≡ after_text out.old 0 (verdict explanation sheet.now) }
    ensures out_after { out.new ≡ with_text out.old 0 (verdict explanation sheet.now) }
{
    if !sheet_form::good_form(sheet) {
        return write_refusal(out);
    }
    if out.len() < MARK_LENGTH + sheet.len() + 1 {
        return 0;
    }
    let end = write_mark(out, is_right(sheet, explanation));
    shown_fields::show_fields(out, end, sheet)
}
