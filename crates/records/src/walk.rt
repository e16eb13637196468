// The walk along the sequence of the records (specs/Walk.antt): the place that is due after another. The functions to_.. give the first place of a
// loop from a number on, those named after_.. the place after a number of a loop, and each what follows the loop where there is none. They take
// places and machines of any numbers.
ghost use Rattle.std.specs.Prelude.{◌≡◌, ◌+◌};
ghost use Rattle.records.specs.Places.{private_count};
ghost use Rattle.records.specs.Walk.{upper_from, upper_at, to_cr_mask, to_intercepts};
ghost use Rattle.records.specs.Walk.{to_page, to_mask, to_contexts, to_context, to_register, to_pending, to_secure};
ghost use Rattle.records.specs.Walk.{to_processor, to_shared, to_level, next_of, first_due};

use crate::place::Place;
use model::machine::{Setup, Shape};
use model::quantity::{Level, Page, Processor};
use model::register::{DR6, LAST_REGISTER};

// The last of the four words of pending vectors of a level.
const LAST_PENDING: u64 = 3;

// How many registers are private to a level: those before DR6, and DR6 where it is not shared.
fn private_count(shape: Shape) -> u64
    ensures { result ≡ private_count shape }
{
    if shape.dr6_shared { DR6 } else { DR6 + 1 }
}

// The levels from 1 of all processors: the first one from a processor on, and the one after a level of a processor.
#[tactic(auto, unfolding(model::specs::State::top))]
fn upper_from(setup: Setup, vp: Processor) -> Option<(Processor, Level)>
    ensures { result ≡ upper_from setup vp.0 }
{
    if (vp.0 < setup.processors) & (0 < setup.shape.max_level.0) {
        return Some((vp, Level(1)));
    }
    None
}

#[tactic(auto, unfolding(crate::specs::Walk::upper_at, model::specs::State::top))]
fn upper_after(setup: Setup, vp: Processor, level: Level) -> Option<(Processor, Level)>
    ensures { result ≡ upper_at setup vp (level.0 + 1) }
{
    if level.0 < setup.shape.max_level.0 {
        return Some((vp, Level(level.0 + 1)));
    }
    if vp.0 < setup.processors {
        return upper_from(setup, Processor(vp.0 + 1));
    }
    None
}

fn to_cr_mask(upper: Option<(Processor, Level)>) -> Option<Place>
    ensures { result ≡ to_cr_mask upper }
{
    upper.map(|(v, t)| Place::Cr0Mask(v, t))
}

fn to_intercepts(setup: Setup, upper: Option<(Processor, Level)>) -> Option<Place>
    ensures { result ≡ to_intercepts setup upper }
{
    match upper {
        Some((v, t)) => Some(Place::Intercepts(v, t)),
        None => to_cr_mask(upper_from(setup, Processor(0))),
    }
}

#[tactic(auto, unfolding(crate::specs::Walk::to_page))]
fn to_page(setup: Setup, page: Page) -> Option<Place>
    ensures { result ≡ to_page setup page.0 }
{
    if page.0 < setup.pages {
        return Some(Place::Word(page));
    }
    to_intercepts(setup, upper_from(setup, Processor(0)))
}

#[tactic(auto, unfolding(crate::specs::Walk::to_page))]
fn after_page(setup: Setup, page: Page) -> Option<Place>
    ensures { result ≡ to_page setup (page.0 + 1) }
{
    if page.0 < setup.pages {
        return to_page(setup, Page(page.0 + 1));
    }
    to_intercepts(setup, upper_from(setup, Processor(0)))
}

#[tactic(auto, unfolding(crate::specs::Walk::to_mask, model::specs::State::top))]
fn after_mask(setup: Setup, page: Page, level: Level) -> Option<Place>
    ensures { result ≡ to_mask setup page (level.0 + 1) }
{
    if level.0 < setup.shape.max_level.0 {
        return Some(Place::Mask(page, Level(level.0 + 1)));
    }
    after_page(setup, page)
}

#[tactic(auto, unfolding(crate::specs::Walk::to_contexts))]
fn to_contexts(setup: Setup, vp: Processor) -> Option<Place>
    ensures { result ≡ to_contexts setup vp.0 }
{
    if vp.0 < setup.processors {
        return Some(Place::Register(vp, Level(0), 0));
    }
    to_page(setup, Page(0))
}

#[tactic(auto, unfolding(crate::specs::Walk::to_contexts))]
fn after_contexts(setup: Setup, vp: Processor) -> Option<Place>
    ensures { result ≡ to_contexts setup (vp.0 + 1) }
{
    if vp.0 < setup.processors {
        return to_contexts(setup, Processor(vp.0 + 1));
    }
    to_page(setup, Page(0))
}

#[tactic(auto, unfolding(crate::specs::Walk::to_context, model::specs::State::top))]
fn after_context(setup: Setup, vp: Processor, level: Level) -> Option<Place>
    ensures { result ≡ to_context setup vp (level.0 + 1) }
{
    if level.0 < setup.shape.max_level.0 {
        return Some(Place::Register(vp, Level(level.0 + 1), 0));
    }
    after_contexts(setup, vp)
}

#[tactic(auto, unfolding(crate::specs::Walk::to_register))]
fn after_register(setup: Setup, vp: Processor, level: Level, register: u64) -> Option<Place>
    ensures { result ≡ to_register setup vp level (register + 1) }
{
    if register < private_count(setup.shape) - 1 {
        return Some(Place::Register(vp, level, register + 1));
    }
    Some(Place::Tpr(vp, level))
}

#[tactic(auto, unfolding(crate::specs::Walk::to_pending))]
fn after_pending(setup: Setup, vp: Processor, level: Level, word: u64) -> Option<Place>
    ensures { result ≡ to_pending setup vp level (word + 1) }
{
    if word < LAST_PENDING {
        return Some(Place::Pending(vp, level, word + 1));
    }
    if level.0 == 0 {
        return after_context(setup, vp, level);
    }
    Some(Place::Enabled(vp, level))
}

#[tactic(auto, unfolding(crate::specs::Walk::to_secure))]
fn to_secure(vp: Processor, level: Level, lower: Level) -> Option<Place>
    ensures { result ≡ to_secure vp level lower.0 }
{
    if lower.0 < level.0 {
        return Some(Place::Secure(vp, level, lower));
    }
    Some(Place::Reason(vp, level))
}

#[tactic(auto, unfolding(crate::specs::Walk::to_secure))]
fn after_secure(vp: Processor, level: Level, lower: Level) -> Option<Place>
    ensures { result ≡ to_secure vp level (lower.0 + 1) }
{
    if lower.0 < level.0 {
        return to_secure(vp, level, Level(lower.0 + 1));
    }
    Some(Place::Reason(vp, level))
}

#[tactic(auto, unfolding(crate::specs::Walk::to_processor))]
fn to_processor(setup: Setup, vp: Processor) -> Option<Place>
    ensures { result ≡ to_processor setup vp.0 }
{
    if vp.0 < setup.processors {
        return Some(Place::Active(vp));
    }
    to_contexts(setup, Processor(0))
}

#[tactic(auto, unfolding(crate::specs::Walk::to_processor))]
fn after_processor(setup: Setup, vp: Processor) -> Option<Place>
    ensures { result ≡ to_processor setup (vp.0 + 1) }
{
    if vp.0 < setup.processors {
        return to_processor(setup, Processor(vp.0 + 1));
    }
    to_contexts(setup, Processor(0))
}

#[tactic(auto, unfolding(crate::specs::Walk::to_shared))]
fn after_shared(setup: Setup, vp: Processor, register: u64) -> Option<Place>
    ensures { result ≡ to_shared setup vp (register + 1) }
{
    if register < LAST_REGISTER {
        return Some(Place::Shared(vp, register + 1));
    }
    after_processor(setup, vp)
}

#[tactic(auto, unfolding(crate::specs::Walk::to_level, model::specs::State::top))]
fn after_level(setup: Setup, level: Level) -> Option<Place>
    ensures { result ≡ to_level setup (level.0 + 1) }
{
    if level.0 < setup.shape.max_level.0 {
        return Some(Place::PartitionEnabled(Level(level.0 + 1)));
    }
    to_processor(setup, Processor(0))
}

// The first place of the sequence.
pub fn first(setup: Setup) -> Option<Place>
    ensures { result ≡ first_due setup }
{
    after_level(setup, Level(0))
}

// The place that is due after another.
#[tactic(auto, unfolding(crate::specs::Walk::next_of))]
pub fn next(setup: Setup, place: Place) -> Option<Place>
    ensures { result ≡ next_of setup place }
{
    match place {
        Place::PartitionEnabled(t) => Some(Place::Mbec(t)),
        Place::Mbec(t) => Some(Place::Config(t)),
        Place::Config(t) => after_level(setup, t),
        Place::Active(v) => Some(Place::Shared(v, private_count(setup.shape))),
        Place::Shared(v, r) => after_shared(setup, v, r),
        Place::Register(v, l, r) => after_register(setup, v, l, r),
        Place::Tpr(v, l) => Some(Place::Pending(v, l, 0)),
        Place::Pending(v, l, i) => after_pending(setup, v, l, i),
        Place::Enabled(v, l) => to_secure(v, l, Level(0)),
        Place::Secure(v, l, k) => after_secure(v, l, k),
        Place::Reason(v, l) => Some(Place::From(v, l)),
        Place::From(v, l) => Some(Place::Rax(v, l)),
        Place::Rax(v, l) => Some(Place::Rcx(v, l)),
        Place::Rcx(v, l) => after_context(setup, v, l),
        Place::Word(p) => after_mask(setup, p, Level(0)),
        Place::Mask(p, t) => after_mask(setup, p, t),
        Place::Intercepts(v, t) => to_intercepts(setup, upper_after(setup, v, t)),
        Place::Cr0Mask(v, t) => Some(Place::Cr4Mask(v, t)),
        Place::Cr4Mask(v, t) => to_cr_mask(upper_after(setup, v, t)),
    }
}
