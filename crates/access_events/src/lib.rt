// The accesses to a page: read, write, fetch (01, "Events" and "Memory"). An intercept enters its receiver; a write that is done stores
// its word; all else changes nothing.
#![tactic(auto)]

ghost use Rattle.std.specs.Prelude.{◌≡◌, ℕ, get_or};
ghost use Rattle.model.specs.State.{State, active_of};
ghost use Rattle.model.specs.Step.{acted};
ghost use Rattle.partition.specs.PartitionView.{partition_of};
ghost use Rattle.processor.specs.Record.{vp_of};
ghost use Rattle.promise.specs.Promise.{outcome_of, Runs, Acts, Lends};
ghost use Rattle.access_events.specs.Access.{accessed, access_value, words_done, put_access};

use model::answer::{Answer, Refusal};
use model::machine::{BY_INTERRUPT, Setup};
use model::quantity::{Access, Mode, Page};
use partition::access::{Attempt, denying_set, host_denies, lowest};
use partition::level::Levels;
use partition::mask::Masks;
use processor::record::{Record, active_of, enabled_set};

pub mod mbec; // whose MBEC counts

// What a level asks for: a kind of access to a page, in a mode. A write has the value that it stores beside it.
#[derive(Clone, Copy)]
pub struct Request {
    pub mode: Mode,
    pub page: Page,
    pub access: Access,
}

// The word of a page; 0 past the words that are lent.
fn word_at(words: &[u64], page: Page) -> u64
    ensures { result ≡ get_or words.now page.0 0 }
{
    words.get(page.0 as usize).copied().unwrap_or(0)
}

// The value of an access that is done, with the page's word.
fn access_value(access: Access, word: u64) -> u64
    ensures { result ≡ access_value access word }
{
    if access == Access::Read { word } else { 0 }
}

// A write that is done stores its word; another access leaves the words.
fn store_word(words: &mut [u64], page: Page, access: Access, value: u64)
    ensures { words.new ≡ words_done words.old page.0 access value }
{
    let i = page.0 as usize;
    if (access == Access::Write) & (i < words.len()) {
        words[i] = value;
    }
}

// An access: an intercept enters its receiver, reason 2, and a write that is done stores its word.
pub fn access(
    setup: Setup,
    vp: &mut Record,
    levels: &Levels,
    masks: &Masks,
    words: &mut [u64],
    request: Request,
    value: u64,
) -> Answer
    ensures { ((s : State) (v : ℕ)
        → Runs setup.shape (vp_of vp.old) s v
        → Acts setup.shape setup.pages (partition_of levels.now masks.now)
        (active_of (vp_of vp.old)) s v
        → Lends setup.host_mask words.old s
        → acted s v request.mode (accessed request.access request.page value)
        ≡ outcome_of result (put_access s v (vp_of vp.new) words.new)) }
{
    let shape = setup.shape;
    let mode = request.mode;
    let page = request.page;
    let access = request.access;
    if setup.pages <= page.0 {
        return Answer::Refused(Refusal::NoSuchPage);
    }
    let actor = active_of(vp);
    let attempt = Attempt {
        actor,
        mode,
        page,
        access,
    };
    let denying = denying_set(
        shape,
        setup.pages,
        levels,
        masks,
        mbec::counting_set(shape, vp, attempt),
        attempt,
    );
    if let Some(receiver) = lowest(denying, enabled_set(shape, vp)) {
        entry::enter(shape, vp, receiver, BY_INTERRUPT);
        return Answer::Intercept(receiver);
    }
    if denying.0 != 0 {
        return Answer::Refused(Refusal::NoReceiver);
    }
    if host_denies(setup.host_mask, access) {
        return Answer::Refused(Refusal::HostDenies);
    }
    let result = access_value(access, word_at(words, page));
    store_word(words, page, access, value);
    Answer::Done(result)
}
