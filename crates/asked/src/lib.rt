// The access that a line asks for: `read`, `write` and `fetch` are accesses (01, "Events"). Whoever explains an access asks here which
// it is (02, request 3). Every function takes any arguments.
#![tactic(auto)]

ghost use Rattle.std.specs.Prelude.{◌≡◌};
ghost use Rattle.asked.specs.AskedAccess.{asked_by, asked_of};

use model::answer::Refusal;
use model::event::{Action, Event};
use model::quantity::{Access, Page, Processor};

// An access that a line asks for.
#[derive(Clone, Copy)]
pub struct Asked {
    pub vp: Processor,
    pub mode: u64,
    pub page: Page,
    pub access: Access,
}

// The access that an action is. Any other action is none.
fn asked_of(vp: Processor, mode: u64, action: Action) -> Option<Asked>
    ensures { result ≡ asked_of vp mode action }
{
    let (page, access) = match action {
        Action::Read { page } => (page, Access::Read),
        Action::Write { page, .. } => (page, Access::Write),
        Action::Fetch { page } => (page, Access::Fetch),
        _ => return None,
    };
    Some(Asked {
        vp,
        mode,
        page,
        access,
    })
}

// The access that a line asks for, by what it says.
pub fn asked_by(said: Result<Event, Refusal>) -> Option<Asked>
    ensures { result ≡ asked_by said }
{
    match said {
        Ok(Event::Made { vp, mode, action }) => asked_of(vp, mode, action),
        Ok(Event::Int { .. }) => None,
        Err(_) => None,
    }
}
