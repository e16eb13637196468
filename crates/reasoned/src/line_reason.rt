// A line after the first, answered on the machine with the reason for its answer. Why an access is denied is asked of the state before the
// step: at an intercept the step changes it.
ghost use Rattle.std.specs.Prelude.{Err, Ok};
ghost use Rattle.asked.specs.AskedAccess.{asked_by};
ghost use Rattle.reason.specs.Reasons.{cause_of};
ghost use Rattle.reasoned.specs.ReasonedParts.{ToldBy};
ghost use Rattle.state.specs.Lent.{state_of};

use asked::asked_by;
use explanation::Explanation;
use listing::Shown;
use model::answer::{Answer, Refusal};
use model::event::Event;
use model::machine::Setup;
use model::quantity::Level;
use processor::record::active_of;
use reason::{Reason, cause_of, reason_for};
use state::parts::Parts;
use state::well_formed_state::well_formed;

// What the listing shows of an answer, and the reason for it.
#[derive(Clone, Copy)]
pub struct Told {
    pub shown: Shown,
    pub why: Reason,
}

// What an event is answered, with the reason, where `cause` tells of the access that it asks for.
fn tell_event(
    cause: Option<Explanation>,
    setup: Setup,
    parts: &mut Parts,
    words: &mut [u64],
    event: Event,
) -> Told
    ensures { ToldBy cause (Ok event) result
        (state_of setup parts.old words.old)
        (state_of setup parts.new words.new) }
{
    let formed = well_formed(setup, parts, words);
    let vp = listing::processor_of(event);
    let answer = step::step_if(formed, setup, parts, words, event);
    // The place for vp, which counts only where there is such a processor.
    let place = (vp.0 % 4) as usize;
    let active = listing::level_on(vp, setup.processors, active_of(&parts.vps[place]));
    Told {
        shown: listing::show(answer, active),
        why: reason_for(cause, answer),
    }
}

// What a line is answered, with the reason, from what it says.
pub(crate) fn tell(
    setup: Setup,
    parts: &mut Parts,
    words: &mut [u64],
    parsed: Result<Event, Refusal>,
) -> Told
    ensures { ToldBy
        (cause_of (state_of setup parts.old words.old)
        (asked_by parsed)) parsed result
        (state_of setup parts.old words.old)
        (state_of setup parts.new words.new) }
{
    let asked = asked_by(parsed);
    let cause = cause_of(setup, parts, asked);
    match parsed {
        Ok(event) => tell_event(cause, setup, parts, words, event),
        Err(refusal) => {
            let answer = Answer::Refused(refusal);
            Told {
                shown: listing::show(answer, Level(0)),
                why: reason_for(cause, answer),
            }
        }
    }
}
