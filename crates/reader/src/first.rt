// The first record (02, request 2): a first line with seven fields.
ghost use Rattle.std.specs.Prelude.{List, ◌≡◌, ℕ, length};
ghost use Rattle.records.specs.Reading.{first_record, from_first};
ghost use Rattle.script.specs.LineForms.{fields};

use model::answer::Refusal;
use model::machine::FirstLine;
use script::search::occurrences;

// The fields of a first record.
const FIRST_FIELDS: usize = 7;

// How many fields a line has: one more than tabs.
fn field_count(line: &[u8]) -> usize
    ensures { result ≡ length (fields line.now) }
{
    1 + occurrences(line, b'\t')
}

// What the first record says.
pub(crate) fn first_record(line: &[u8]) -> Result<FirstLine, Refusal>
    ensures { (rest : List (List ℕ)) → from_first result rest ≡ from_first (first_record line.now) rest }
{
    if field_count(line) != FIRST_FIELDS {
        return Err(Refusal::WrongFieldCount);
    }
    script::parse_first(line)
}
