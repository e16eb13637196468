// Why a line got its answer: the name of the condition that gave it, or, for a denied access, why it is denied (demand 1 of 01; 02, request
// 3). Every public function takes any arguments.
#![tactic(auto)]

ghost use Rattle.std.specs.Prelude.{List, ◌≡◌, ℕ};
ghost use Rattle.reason.specs.Reasons.{cause_of, denied_by, is_denial, reason_for};
ghost use Rattle.state.specs.Lent.{state_of};

use access_events::Request;
use asked::Asked;
use explanation::{Explanation, explain_in};
use model::answer::{Answer, Refusal};
use model::machine::Setup;
use model::quantity::mode_of;
use state::parts::Parts;

mod reason_names; // the name of each refusal
mod reason_text; // a line of the listing with reasons

pub use reason_text::write_line;

// A buffer of so many bytes has room for every line of the listing with reasons, with its line feed.
pub const LONGEST_REASONED: usize = 255;

// Why a line got its answer.
#[derive(Clone, Copy)]
pub enum Reason {
    // it is done
    Nothing,
    // the refusal's condition holds
    Named(Refusal),
    // the access is denied
    Denied(Explanation),
    // a level watches the register that is read or written (02, request 6)
    RegisterWatched,
    // the first line has a number out of range
    OutOfRange,
    // the script has no first line
    EmptyInput,
}

// Why the access that a line asks for, if it asks for one, is allowed or denied on a machine whose parts are lent. The words of the pages do not matter.
pub fn cause_of(setup: Setup, parts: &Parts, asked: Option<Asked>) -> Option<Explanation>
    ensures { (words : List ℕ)
        → cause_of (state_of setup parts.now words) asked ≡ result }
{
    let asked = asked?;
    let request = Request {
        mode: mode_of(asked.mode),
        page: asked.page,
        access: asked.access,
    };
    Some(explain_in(setup, parts, asked.vp, request))
}

// A denied access has its explanation as the reason, any other event the reason that is given.
fn denied_by(cause: Option<Explanation>, other: Reason) -> Reason
    ensures { result ≡ denied_by cause other }
{
    match cause {
        None => other,
        Some(explanation) => Reason::Denied(explanation),
    }
}

// Whether a refusal denies an access.
fn is_denial(refusal: Refusal) -> bool
    ensures { result ≡ is_denial refusal }
{
    matches!(refusal, Refusal::NoReceiver | Refusal::HostDenies)
}

// The reason for an answer, where `cause` tells of the access that the line asked for in the state before it.
pub fn reason_for(cause: Option<Explanation>, answer: Answer) -> Reason
    ensures { result ≡ reason_for cause answer }
{
    match answer {
        Answer::Done(value) => Reason::Nothing,
        Answer::Refused(refusal) => {
            let named = Reason::Named(refusal);
            if is_denial(refusal) {
                return denied_by(cause, named);
            }
            named
        }
        Answer::Intercept(receiver) => denied_by(cause, Reason::RegisterWatched),
    }
}
