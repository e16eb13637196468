// Why an access is allowed or denied (02, request 3). The code shares with the access itself who denies, which bit is wanted, whose
// MBEC counts and who receives the intercept. It reads the parts of a machine, which are lent, and changes nothing.
#![tactic(auto)]

ghost use Rattle.std.specs.Prelude.{◌≡◌, List, ℕ, ◌^◌};
ghost use Rattle.word.specs.Field.{bit};
ghost use Rattle.model.specs.Bounded.{bits};
ghost use Rattle.model.specs.Memory.{needed as needed_bit};
ghost use Rattle.model.specs.State.{level_found, State, vp as vp_in, active_of, enabled_at, mask_in, host_mask_of};
ghost use Rattle.partition.specs.Denying.{lowest_in};
ghost use Rattle.partition.specs.PartitionView.{partition_of};
ghost use Rattle.processor.specs.Record.{vp_of};
ghost use Rattle.promise.specs.Promise.{Acts};
ghost use Rattle.state.specs.Lent.{state_of};
ghost use Rattle.explanation.specs.Explained.{is_fetch, denial_by, host_only, explanation_of};

use access_events::Request;
use access_events::mbec::counted_set;
use model::machine::{Setup, Shape};
use model::quantity::{Access, Level, Mode, Processor};
use model::set::{LevelSet, in_set};
use partition::access::{Attempt, denying_set, host_denies, lowest, needed};
use partition::level::Levels;
use partition::mask::{Masks, mask_at};
use processor::record::{RECORD_WORDS, Record, active_of, enabled_set};
use state::parts::Parts;

// How a level denies an access: its mask of the page, the bit of a mask that the access wants of it, as a number (1, 2, 4 or 8), and
// whether MBEC counted.
#[derive(Clone, Copy)]
pub struct Denial {
    pub mask: u64,
    pub wanted: u64,
    pub mbec: bool,
}

// Why an access is allowed or denied. The host is named only where no level denies. The receiver of the intercept is the lowest denying
// level that is enabled on the processor, if one is. The three denials are those of levels 1, 2 and 3, of each that denies, by name as the
// theorems of specs/ExplainedClaims.antt have them.
#[derive(Clone, Copy)]
pub enum Explanation {
    Allowed,
    Host,
    Levels {
        receiver: Option<Level>,
        first: Option<Denial>,
        second: Option<Denial>,
        third: Option<Denial>,
    },
}

// The lowest of the levels that deny which is enabled on the processor, if one is.
fn receiver_of(shape: Shape, vp: &Record, denying: LevelSet) -> Option<Level>
    ensures { result
        ≡ level_found (lowest_in denying.0 (bits 4 (λ l. enabled_at shape (vp_of vp.now) l))) }
{
    let enabled = enabled_set(shape, vp);
    lowest(denying, enabled)
}

// Is it a fetch?
fn is_fetch(access: Access) -> bool
    ensures { result ≡ is_fetch access }
{
    matches!(access, Access::Fetch)
}

// The bit of a mask that an access wants, as a number.
fn wanted(mbec: bool, mode: Mode, access: Access) -> u64
    ensures { result ≡ 2 ^ needed_bit mbec mode access }
{
    1 << needed(mbec, mode, access)
}

// How a level stands to an attempt, by the levels that deny it and those whose MBEC counts.
fn denial_of(
    setup: Setup,
    masks: &Masks,
    denying: LevelSet,
    mbecs: LevelSet,
    attempt: Attempt,
    level: Level,
) -> Option<Denial>
    ensures { result ≡ denial_by (bit denying.0 level.0)
        (mask_in setup.shape setup.pages masks.now level.0 attempt.page.0)
        (bit mbecs.0 level.0) attempt.mode attempt.access }
{
    if !in_set(denying, level) {
        return None;
    }
    let mode = attempt.mode;
    let access = attempt.access;
    let counts = in_set(mbecs, level);
    let fetch = is_fetch(access);
    Some(Denial {
        mask: mask_at(setup.shape, setup.pages, masks, level, attempt.page),
        wanted: wanted(counts, mode, access),
        mbec: fetch & counts,
    })
}

// Where no level denies: the host does, or the access is allowed.
fn host_only(denies: bool) -> Explanation
    ensures { result ≡ host_only denies }
{
    if denies {
        return Explanation::Host;
    }
    Explanation::Allowed
}

// Why a request of the level that is active by a processor's record is allowed or denied. A page that there is not has the mask 0. For all
// arguments there is a state with these parts (`Some` of crate `promise`).
pub fn explain(
    setup: Setup,
    vp: &Record,
    levels: &Levels,
    masks: &Masks,
    request: Request,
) -> Explanation
    ensures { (s : State) (v : ℕ)
        → Acts setup.shape setup.pages (partition_of levels.now masks.now)
        (active_of (vp_of vp.now)) s v
        → vp_in s v ≡ vp_of vp.now → host_mask_of s request.page.0 ≡ setup.host_mask
        → explanation_of s v request.mode request.page.0 request.access ≡ result }
{
    let mode = request.mode;
    let page = request.page;
    let access = request.access;
    let actor = active_of(vp);
    let attempt = Attempt {
        actor,
        mode,
        page,
        access,
    };
    let mbecs = counted_set(setup.shape, vp, actor);
    let denying = denying_set(setup.shape, setup.pages, levels, masks, mbecs, attempt);
    if denying.0 == 0 {
        return host_only(host_denies(setup.host_mask, access));
    }
    let receiver = receiver_of(setup.shape, vp, denying);
    let first = denial_of(setup, masks, denying, mbecs, attempt, Level(1));
    let second = denial_of(setup, masks, denying, mbecs, attempt, Level(2));
    let third = denial_of(setup, masks, denying, mbecs, attempt, Level(3));
    Explanation::Levels {
        receiver,
        first,
        second,
        third,
    }
}

// The same for a processor of a machine. One that there is not has the empty record: level 0 is active, and no level has MBEC on.
pub fn explain_in(setup: Setup, parts: &Parts, vp: Processor, request: Request) -> Explanation
    ensures { (words : List ℕ)
        → explanation_of (state_of setup parts.now words)
        vp.0 request.mode request.page.0 request.access ≡ result }
{
    if (vp.0 < setup.processors) & (vp.0 < 4) {
        let i = vp.0 as usize;
        return explain(setup, &parts.vps[i], &parts.levels, &parts.masks, request);
    }
    let empty: Record = [0; RECORD_WORDS];
    explain(setup, &empty, &parts.levels, &parts.masks, request)
}
