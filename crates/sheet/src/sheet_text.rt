// The line of an explanation (02, request 3), written into a buffer that has room for it.
ghost use Rattle.std.specs.Prelude.{◌∷◌, ◌≡◌, ◌+◌, ◌≤◌, length};
ghost use Rattle.std.proofs.lemmas.List.Edits.{sets};
ghost use Rattle.decimal.specs.Write.{after_text, decimal, with_text};
ghost use Rattle.script.specs.LineForms.{tab};
ghost use Rattle.script.specs.Texts.{parted};
ghost use Rattle.sheet.specs.Sheets.{group, kind_field, longest_sheet, receiver_field, sheet_line};

use explanation::{Denial, Explanation};
use model::quantity::Level;
use script::storing::store;

// Copies a text into `out` from `at` on, and returns the place after it. Where it has no room, nothing is written and `at` is returned.
pub fn put(out: &mut [u8], at: usize, text: &[u8]) -> usize
    ensures value { result ≡ after_text out.old at text.now }
    ensures out_after { out.new ≡ with_text out.old at text.now }
{
    if out.len() < at {
        return at;
    }
    if out.len() - at < text.len() {
        return at;
    }
    store(out, at, text);
    at + text.len()
}

// Writes a tab and a number.
fn write_number(out: &mut [u8], at: usize, value: u64) -> usize
    requires { at + length (tab ∷ decimal value) ≤ length out.old }
    ensures value { result ≡ at + length (tab ∷ decimal value) }
    ensures out_after { out.new ≡ sets out.old at (tab ∷ decimal value) }
{
    out[at] = b'\t';
    decimal::write(out, at + 1, value)
}

// Writes a tab, and `mbec` or `plain`.
fn write_kind(out: &mut [u8], at: usize, mbec: bool) -> usize
    requires { at + length (tab ∷ kind_field mbec) ≤ length out.old }
    ensures value { result ≡ at + length (tab ∷ kind_field mbec) }
    ensures out_after { out.new ≡ sets out.old at (tab ∷ kind_field mbec) }
{
    if mbec {
        return put(out, at, b"\tmbec");
    }
    put(out, at, b"\tplain")
}

// Writes the fields of a level, each after a tab, where it denies.
fn write_group(out: &mut [u8], at: usize, level: Level, denial: Option<Denial>) -> usize
    requires { at + length (parted (group level.0 denial)) ≤ length out.old }
    ensures value { result ≡ at + length (parted (group level.0 denial)) }
    ensures out_after { out.new ≡ sets out.old at (parted (group level.0 denial)) }
{
    let Some(by) = denial else {
        return at;
    };
    let after_level = write_number(out, at, level.0);
    let after_mask = write_number(out, after_level, by.mask);
    let after_wanted = write_number(out, after_mask, by.wanted);
    write_kind(out, after_wanted, by.mbec)
}

// Writes the receiver at the start of `out`.
fn write_receiver(out: &mut [u8], receiver: Option<Level>) -> usize
    requires { length (receiver_field receiver) ≤ length out.old }
    ensures value { result ≡ length (receiver_field receiver) }
    ensures out_after { out.new ≡ sets out.old 0 (receiver_field receiver) }
{
    match receiver {
        None => put(out, 0, b"none"),
        Some(level) => decimal::write(out, 0, level.0),
    }
}

// Writes the line of an explanation, without its line feed, at the start of `out`, and returns how many bytes it takes.
pub(crate) fn write_sheet(out: &mut [u8], explanation: Explanation) -> usize
    requires { longest_sheet ≤ length out.old }
    ensures value { result ≡ length (sheet_line explanation) }
    ensures out_after { out.new ≡ sets out.old 0 (sheet_line explanation) }
{
    match explanation {
        Explanation::Allowed => put(out, 0, b"allowed"),
        Explanation::Host => put(out, 0, b"host"),
        Explanation::Levels {
            receiver,
            first,
            second,
            third,
        } => {
            let after_receiver = write_receiver(out, receiver);
            let after_first = write_group(out, after_receiver, Level(1), first);
            let after_second = write_group(out, after_first, Level(2), second);
            write_group(out, after_second, Level(3), third)
        }
    }
}
