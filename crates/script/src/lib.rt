// The lines of a script (01, "Script and listing"): a line as an event, and the first line as what a machine is made from. Every
// function takes any arguments.
#![tactic(auto)]

ghost use Rattle.std.specs.Prelude.{◌≡◌, eqb, length};
ghost use Rattle.script.specs.EventForms.{line_event};
ghost use Rattle.script.specs.First.{first_form, line_first};
ghost use Rattle.script.specs.NumberRows.{fields_after};

use model::answer::Refusal;
use model::event::Event;
use model::machine::FirstLine;
use model::quantity::Level;

mod fields; // the fields of a line, and their numbers
mod line_events; // the event of each word
pub mod search; // where a byte stands, and how often
pub mod storing; // elements stored over others
mod words; // the event words

// The greatest length of a line without its line feed.
pub const LONGEST_LINE: usize = 256;

// What a line after the first says, or why it says nothing.
pub fn parse(line: &[u8]) -> Result<Event, Refusal>
    ensures { result ≡ line_event line.now }
{
    if LONGEST_LINE < line.len() {
        return Err(Refusal::LineTooLong);
    }
    let named = words::word_of(line).ok_or(Refusal::UnknownWord)?;
    let values = fields::numbers(line, named.end, named.takes)?;
    Ok(line_events::event(named.word, &values))
}

// How many numbers follow the word `vsm`: six where the line has a seventh field, else five.
fn first_takes(line: &[u8]) -> usize
    ensures { result ≡ (first_form (eqb (length (fields_after line.now 3)) 6)).count }
{
    if fields::count_after(line, 3) == 6 {
        6
    } else {
        5
    }
}

// What the first line says, or why it says nothing. Without a seventh field SMEP is not available.
pub fn parse_first(line: &[u8]) -> Result<FirstLine, Refusal>
    ensures { result ≡ line_first line.now }
{
    if LONGEST_LINE < line.len() {
        return Err(Refusal::LineTooLong);
    }
    if !words::begins(line, b"vsm") {
        return Err(Refusal::UnknownWord);
    }
    let [processors, max_level, pages, dr6_shared, host_mask, smep, _] = fields::numbers(
        line,
        3,
        first_takes(line),
    )?;
    Ok(FirstLine {
        processors,
        max_level: Level(max_level),
        pages,
        dr6_shared,
        host_mask,
        smep,
    })
}
