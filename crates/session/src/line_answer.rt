// A line after the first (01, "Script and listing"): what it says, and the event on the machine, whose parts are lent.
ghost use Rattle.std.specs.Prelude.{◌≡◌, Err, Ok};
ghost use Rattle.model.specs.WellFormed.{well_formed};
ghost use Rattle.script.specs.EventForms.{line_event};
ghost use Rattle.session.specs.SessionParts.{AnsweredBy};
ghost use Rattle.state.specs.Lent.{state_of};

use listing::Shown;
use model::answer::Answer;
use model::event::Event;
use model::machine::Setup;
use model::quantity::Level;
use processor::record::active_of;
use state::parts::Parts;

// What an event is answered, in a state that is well formed as `formed` tells.
fn answer_event(
    formed: bool,
    setup: Setup,
    parts: &mut Parts,
    words: &mut [u64],
    event: Event,
) -> Shown
    requires { formed ≡ well_formed (state_of setup parts.old words.old) }
    ensures { AnsweredBy formed (Ok event) result
        (state_of setup parts.old words.old)
        (state_of setup parts.new words.new) }
{
    let vp = listing::processor_of(event);
    let answer = step::step_if(formed, setup, parts, words, event);
    // The place for vp, which counts only where there is such a processor.
    let place = (vp.0 % 4) as usize;
    let active = listing::level_on(vp, setup.processors, active_of(&parts.vps[place]));
    listing::show(answer, active)
}

// What a line is answered: the bytes of `line`, in a state that is well formed as `formed` tells.
pub(crate) fn answer_line(
    formed: bool,
    setup: Setup,
    parts: &mut Parts,
    words: &mut [u64],
    line: &[u8],
) -> Shown
    requires { formed ≡ well_formed (state_of setup parts.old words.old) }
    ensures { AnsweredBy formed (line_event line.now) result
        (state_of setup parts.old words.old)
        (state_of setup parts.new words.new) }
{
    let parsed = script::parse(line);
    match parsed {
        Ok(event) => answer_event(formed, setup, parts, words, event),
        Err(refusal) => listing::show(Answer::Refused(refusal), Level(0)),
    }
}
