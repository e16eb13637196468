// Why an access is allowed or denied (02, request 3): an input holds the records of a machine, an access line, and perhaps a sheet that was
// filled in by hand. What is written is the sheet of the access, or the verdict on the sheet that follows.
#![tactic(auto)]

ghost use Rattle.std.specs.Prelude.{◌≡◌, ◌≤◌, drop, length};
ghost use Rattle.std.proofs.lemmas.List.Edits.{sets};
ghost use Rattle.asked.specs.AskedAccess.{asked_by};
ghost use Rattle.explanation.specs.Explained.{explanation_of};
ghost use Rattle.inquiry.specs.AskedLines.{Wrote, ranged_by};
ghost use Rattle.inquiry.specs.Inquiry.{explained, sheet_with};
ghost use Rattle.reader.specs.Received.{state_in};
ghost use Rattle.records.specs.RecordTexts.{ended};
ghost use Rattle.script.specs.EventForms.{line_event};
ghost use Rattle.script.specs.Records.{lines};
ghost use Rattle.sheet.specs.Verdicts.{refusal};

use access_events::Request;
use asked::{Asked, asked_by};
use chunk::line_end;
use explanation::Explanation;
use model::machine::Setup;
use model::quantity::{Processor, mode_of};
use reader::Received;
use sheet::LONGEST_VERDICT;

// An input of more bytes is refused, whatever it says (`LongRefused`). So a program that reads one byte more has all that counts.
pub const LONGEST_INQUIRY: usize = 66049;

// The access that a line asks for on a machine, if it does: there are such a processor, such a mode and such a page.
fn access_line(setup: Setup, line: &[u8]) -> Option<Asked>
    ensures { result ≡ ranged_by setup (asked_by (line_event line.now)) }
{
    let asked = asked_by(script::parse(line))?;
    if (asked.vp.0 < setup.processors) & (asked.mode <= 1) & (asked.page.0 < setup.pages) {
        return Some(asked);
    }
    None
}

// Why an access is allowed or denied on the machine that was read.
fn explain_on(received: &Received, vp: Processor, request: Request) -> Explanation
    ensures { result
        ≡ explanation_of (state_in received.now) vp.0 request.mode request.page.0 request.access }
{
    explanation::explain_in(received.setup, &received.parts, vp, request)
}

// Writes the refusal.
fn refuse(out: &mut [u8; LONGEST_VERDICT]) -> usize
    ensures { Wrote (ended refusal) result out.old out.new }
{
    sheet::write_refusal(out)
}

// Writes the sheet of an explanation, or the verdict on the sheet that the rest of the input is, or the refusal where more lines follow.
fn write_with(
    out: &mut [u8; LONGEST_VERDICT],
    explanation: Explanation,
    input: &[u8],
    from: usize,
) -> usize
    requires { from ≤ length input.now }
    ensures { Wrote (sheet_with explanation (lines (drop from input.now))) result
        out.old out.new }
{
    if input.len() <= from {
        return sheet::write_line(out, explanation);
    }
    let end = line_end(input, from);
    if end + 1 < input.len() {
        return refuse(out);
    }
    sheet::write_verdict(out, explanation, &input[from..end])
}

// Writes why the access that an input asks for is allowed or denied, and returns how many bytes that takes.
pub fn explain(input: &[u8], out: &mut [u8; LONGEST_VERDICT]) -> usize
    ensures wrote { result ≡ length (explained input.now) }
    ensures out { out.new ≡ sets out.old 0 (explained input.now) }
    ensures bounds { Wrote (explained input.now) result out.old out.new }
{
    let Some(received) = reader::read(input) else {
        return refuse(out);
    };
    let used = received.used;
    if input.len() <= used {
        return refuse(out);
    }
    let end = line_end(input, used);
    let Some(asked) = access_line(received.setup, &input[used..end]) else {
        return refuse(out);
    };
    let request = Request {
        mode: mode_of(asked.mode),
        page: asked.page,
        access: asked.access,
    };
    let explanation = explain_on(&received, asked.vp, request);
    write_with(out, explanation, input, (end + 1).min(input.len()))
}
