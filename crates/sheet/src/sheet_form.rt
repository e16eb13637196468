// The form of a sheet that was filled in by hand (02, request 3). A field is found from tab to tab and handed on as a part of the sheet.
ghost use Rattle.std.specs.Prelude.{◌≡◌};
ghost use Rattle.script.specs.NumberRows.{fields_after};
ghost use Rattle.sheet.specs.PassedFields.{group_passed, is_part, passed};
ghost use Rattle.sheet.specs.SheetForms.{either, good_form, is_alone, is_groups, is_kind, is_number, is_receiver};

use script::search::find_byte;

// Whether a field is one of two words.
fn is_either(field: &[u8], one: &[u8], other: &[u8]) -> bool
    ensures { result ≡ either one.now other.now field.now }
{
    field == one || field == other
}

// Whether a field is a whole sheet.
fn is_alone(field: &[u8]) -> bool
    ensures { result ≡ is_alone field.now }
{
    is_either(field, b"allowed", b"host")
}

// Whether a field says whether MBEC counted.
fn is_kind(field: &[u8]) -> bool
    ensures { result ≡ is_kind field.now }
{
    is_either(field, b"mbec", b"plain")
}

// Whether a field is a number.
#[tactic(auto, unfolding(crate::specs::SheetForms::is_number))]
fn is_number(field: &[u8]) -> bool
    ensures { result ≡ is_number field.now }
{
    decimal::read(field).is_some()
}

// Whether a field is a receiver.
fn is_receiver(field: &[u8]) -> bool
    ensures { result ≡ is_receiver field.now }
{
    field == b"none".as_slice() || is_number(field)
}

// Whether a field is what stands last in a group, or before that.
fn is_part(field: &[u8], last: bool) -> bool
    ensures { result ≡ is_part last field.now }
{
    if last {
        return is_kind(field);
    }
    is_number(field)
}

// The end of the field after the tab at `at`, where there is one and it is what stands there in a group.
fn pass_part(sheet: &[u8], at: usize, last: bool) -> Option<usize>
    ensures { result ≡ passed (is_part last) sheet.now at }
{
    if sheet.len() <= at {
        return None;
    }
    let start = at + 1;
    let end = find_byte(sheet, start, b'\t');
    is_part(&sheet[start..end], last).then_some(end)
}

// The end of the group after the tab at `at`, where there is one.
#[tactic(auto, unfolding(crate::specs::PassedFields::group_passed))]
fn pass_group(sheet: &[u8], at: usize) -> Option<usize>
    ensures { result ≡ group_passed sheet.now at }
{
    let after_level = pass_part(sheet, at, false)?;
    let after_mask = pass_part(sheet, after_level, false)?;
    let after_wanted = pass_part(sheet, after_mask, false)?;
    pass_part(sheet, after_wanted, true)
}

// Whether the fields after the tab at `from` are groups, one at least.
fn good_groups(sheet: &[u8], from: usize) -> bool
    ensures { result ≡ is_groups (fields_after sheet.now from) }
{
    let mut at = from;
    while let Some(end) = pass_group(sheet, at) {
        if sheet.len() <= end {
            return true;
        }
        at = end;
    }
    false
}

// Whether a sheet has the form of one.
pub(crate) fn good_form(sheet: &[u8]) -> bool
    ensures { result ≡ good_form sheet.now }
{
    if script::LONGEST_LINE < sheet.len() {
        return false;
    }
    let end = find_byte(sheet, 0, b'\t');
    if sheet.len() <= end {
        return is_alone(&sheet[..end]);
    }
    if !is_receiver(&sheet[..end]) {
        return false;
    }
    good_groups(sheet, end)
}
