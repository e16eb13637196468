// A machine's records written (02, request 2), from the parts that code lends. `write::write_records` takes any parts and any buffer.
#![tactic(auto)]

mod place_quantity; // the quantity at a place
mod record_text; // the text of one record
pub mod write; // all records of a machine
