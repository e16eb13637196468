// The access decision (01, "Memory"): the bit that an access needs, the levels that deny it, the one that receives the intercept,
// and the host. Whose MBEC counts (02, request 1) is decided in `mbec.rt` of crate `access_events`.
ghost use Rattle.std.specs.Prelude.{◌≡◌, ◌&&◌};
ghost use Rattle.word.specs.Field.{bit};
ghost use Rattle.model.specs.Memory.{needed as needed_bit, denies_in, host_denies_by};
ghost use Rattle.model.specs.State.{level_found};
ghost use Rattle.partition.specs.Denying.{denying_set, lowest_in};
ghost use Rattle.partition.specs.PartitionView.{partition_of};

use crate::level::{Levels, protects_at};
use crate::mask::{KMX_BIT, Masks, READ_BIT, UMX_BIT, WRITE_BIT, mask_at};
use model::machine::Shape;
use model::quantity::{Access, LEVEL_COUNT, Level, Mode, Page, is_user};
use model::set::{LevelSet, in_set, level_set};
use word::field::has_bit;

// An access that a level attempts.
#[derive(Clone, Copy)]
pub struct Attempt {
    pub actor: Level,
    pub mode: Mode,
    pub page: Page,
    pub access: Access,
}

// The number of the mask's bit that an access needs: Read, Write, or for a fetch KMX, unless MBEC counts, where a fetch in user
// mode needs UMX instead.
pub fn needed(mbec: bool, mode: Mode, access: Access) -> u32
    ensures { result ≡ needed_bit mbec mode access }
{
    let user = is_user(mode);
    match access {
        Access::Read => READ_BIT,
        Access::Write => WRITE_BIT,
        Access::Fetch => { if mbec & user { UMX_BIT } else { KMX_BIT } }
    }
}

// Does a level deny an attempt, where its MBEC counts for the actor or not?
fn denies(
    shape: Shape,
    pages: u64,
    levels: &Levels,
    masks: &Masks,
    attempt: Attempt,
    level: Level,
    mbec: bool,
) -> bool
    ensures { result ≡ denies_in shape pages (partition_of levels.now masks.now)
        attempt.actor.0 attempt.mode attempt.page.0 attempt.access level.0 mbec }
{
    let mode = attempt.mode;
    let access = attempt.access;
    let on = protects_at(shape, levels, level);
    let mask = mask_at(shape, pages, masks, level, attempt.page);
    let allowed = has_bit(mask, needed(mbec, mode, access));
    (attempt.actor.0 < level.0) & on & !allowed
}

// The levels that deny an attempt. `mbecs` are those whose MBEC counts for the actor on its processor.
pub fn denying_set(
    shape: Shape,
    pages: u64,
    levels: &Levels,
    masks: &Masks,
    mbecs: LevelSet,
    attempt: Attempt,
) -> LevelSet
    ensures { result.0
        ≡ denying_set shape pages (partition_of levels.now masks.now) mbecs attempt }
{
    let denied_by = |level: Level| {
        let mbec = in_set(mbecs, level);
        denies(shape, pages, levels, masks, attempt, level, mbec)
    };
    level_set(
        false,
        denied_by(Level(1)),
        denied_by(Level(2)),
        denied_by(Level(3)),
    )
}

// Is a level in both sets?
fn in_both(set: LevelSet, other: LevelSet, level: Level) -> bool
    ensures { result ≡ (bit set.0 level.0 && bit other.0 level.0) }
{
    in_set(set, level) & in_set(other, level)
}

// The lowest level that is in both sets. Of the denying levels that are enabled, it receives the intercept.
pub fn lowest(set: LevelSet, enabled: LevelSet) -> Option<Level>
    ensures { result ≡ level_found (lowest_in set.0 enabled.0) }
{
    for number in 0..LEVEL_COUNT {
        let level = Level(number);
        if in_both(set, enabled, level) {
            return Some(level);
        }
    }
    None
}

// Does the host deny an access by its mask? The host needs Read, Write or KMX.
pub fn host_denies(mask: u64, access: Access) -> bool
    ensures { result ≡ host_denies_by mask access }
{
    let allowed = has_bit(mask, needed(false, Mode::Kernel, access));
    !allowed
}
