// The fields of a sheet (02, request 3), one a line, shown as parts of the sheet that was read: each is handed on from tab to tab.
ghost use Rattle.std.specs.Prelude.{[], ◌∷◌, ◌++◌, ◌≡◌, ◌+◌, ◌≤◌, length};
ghost use Rattle.std.proofs.lemmas.List.Edits.{sets};
ghost use Rattle.records.specs.RecordTexts.{ended};
ghost use Rattle.script.specs.LineForms.{fields};
ghost use Rattle.script.specs.ListingLine.{line_feed};

use crate::sheet_text::put;

// Shows one field with its line feed.
fn show_field(out: &mut [u8], at: usize, field: &[u8]) -> usize
    requires { at + length (field.now ++ line_feed ∷ []) ≤ length out.old }
    ensures value { result ≡ at + length (field.now ++ line_feed ∷ []) }
    ensures out_after { out.new ≡ sets out.old at (field.now ++ line_feed ∷ []) }
{
    let end = put(out, at, field);
    out[end] = b'\n';
    end + 1
}

// Shows the fields of a sheet from `from` on, and returns the place after them.
pub(crate) fn show_fields(out: &mut [u8], from: usize, sheet: &[u8]) -> usize
    requires { from + length (ended (fields sheet.now)) ≤ length out.old }
    ensures value { result ≡ from + length (ended (fields sheet.now)) }
    ensures out_after { out.new ≡ sets out.old from (ended (fields sheet.now)) }
{
    let mut at = from;
    for field in sheet.split(|byte| *byte == b'\t') {
        at = show_field(out, at, field);
    }
    at
}
