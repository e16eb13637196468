// The events that change what the partition holds of a level: enpart, protect, config (01, "Events"). Each tests the conditions of its
// rule one after the other and leaves with the first that holds; only then the lent words change.
#![tactic(auto)]

ghost use Rattle.std.specs.Prelude.{◌≡◌, cond, not, ◌&&◌, List, ℕ};
ghost use Rattle.model.specs.declared.event.Action.TheVariants.{Enpart, Protect, Config};
ghost use Rattle.model.specs.Masks.{turns_on, default_mask, protects_in};
ghost use Rattle.model.specs.State.{State};
ghost use Rattle.model.specs.Step.{acted};
ghost use Rattle.model.specs.Updates.{filled, put_partition};
ghost use Rattle.partition.specs.PartitionView.{configs_in, partition_of};
ghost use Rattle.promise.specs.Promise.{outcome_of, Acts};

use model::answer::{Answer, Refusal};
use model::machine::{Setup, Shape};
use model::quantity::{HIGHEST_LEVEL, Level, Mode, Page, is_user};
use partition::config::{default_mask, reserved_set, turns_on};
use partition::level::{
    Levels, config_at, enable_level, enabled_for, mbec_for, protects_at, set_config,
};
use partition::mask::{Masks, fill_masks, kernel_only, set_mask, valid_mask};

// enpart: the target is enabled for the partition, with MBEC or without.
pub fn enpart(
    shape: Shape,
    levels: &mut Levels,
    actor: Level,
    mode: Mode,
    target: Level,
    mbec: u64,
) -> Answer
    ensures { ((s : State) (v pages : ℕ) (masks : List ℕ)
        → Acts shape pages (partition_of levels.old masks) actor.0 s v
        → acted s v mode (Enpart target mbec) ≡ outcome_of result (put_partition s (partition_of levels.new masks))) }
{
    if HIGHEST_LEVEL < target.0 {
        return Answer::Refused(Refusal::LevelOutOfRange);
    }
    if 1 < mbec {
        return Answer::Refused(Refusal::MbecOutOfRange);
    }
    if is_user(mode) {
        return Answer::Refused(Refusal::UserMode);
    }
    if target.0 == 0 {
        return Answer::Refused(Refusal::LevelZero);
    }
    if shape.max_level.0 < target.0 {
        return Answer::Refused(Refusal::AboveMaximum);
    }
    if target.0 <= actor.0 {
        return Answer::Refused(Refusal::TargetNotAbove);
    }
    if enabled_for(shape, levels, target) {
        return Answer::Refused(Refusal::EnabledForPartition);
    }
    enable_level(shape, levels, target, mbec == 1);
    Answer::Done(0)
}

// protect: the actor's own mask of a page is set.
pub fn protect(
    setup: Setup,
    levels: &Levels,
    masks: &mut Masks,
    actor: Level,
    mode: Mode,
    page: Page,
    mask: u64,
) -> Answer
    ensures { ((s : State) (v : ℕ)
        → Acts setup.shape setup.pages (partition_of levels.now masks.old) actor.0 s v
        → acted s v mode (Protect page mask)
        ≡ outcome_of result (put_partition s (partition_of levels.now masks.new))) }
{
    let shape = setup.shape;
    if setup.pages <= page.0 {
        return Answer::Refused(Refusal::NoSuchPage);
    }
    if !valid_mask(mask) {
        return Answer::Refused(Refusal::InvalidMask);
    }
    if is_user(mode) {
        return Answer::Refused(Refusal::UserMode);
    }
    if actor.0 == 0 {
        return Answer::Refused(Refusal::ProtectAtLevelZero);
    }
    if !protects_at(shape, levels, actor) {
        return Answer::Refused(Refusal::ProtectionsOff);
    }
    if kernel_only(mask) & mbec_for(shape, levels, actor) {
        return Answer::Refused(Refusal::KernelOnlyExecute);
    }
    set_mask(masks, actor, page, mask);
    Answer::Done(0)
}

// config: turning bit 0 on gives every page's mask of the target the default.
fn config_masks(setup: Setup, levels: &Levels, masks: &mut Masks, target: Level, word: u64)
    ensures { masks.new
        ≡ cond (turns_on word && not (protects_in setup.shape (configs_in levels.now) target.0))
        (filled 64 setup.pages target.0 (default_mask word) masks.old) masks.old }
{
    if turns_on(word) & !protects_at(setup.shape, levels, target) {
        fill_masks(masks, setup.pages, target, default_mask(word));
    }
}

// config: the word is stored, and the masks are filled where it turns protections on.
pub fn config(
    setup: Setup,
    levels: &mut Levels,
    masks: &mut Masks,
    actor: Level,
    mode: Mode,
    target: Level,
    word: u64,
) -> Answer
    ensures { ((s : State) (v : ℕ)
        → Acts setup.shape setup.pages (partition_of levels.old masks.old) actor.0 s v
        → acted s v mode (Config target word)
        ≡ outcome_of result (put_partition s (partition_of levels.new masks.new))) }
{
    let shape = setup.shape;
    if HIGHEST_LEVEL < target.0 {
        return Answer::Refused(Refusal::LevelOutOfRange);
    }
    if reserved_set(word) {
        return Answer::Refused(Refusal::ReservedBits);
    }
    let mask = default_mask(word);
    if !valid_mask(mask) {
        return Answer::Refused(Refusal::InvalidMask);
    }
    if is_user(mode) {
        return Answer::Refused(Refusal::UserMode);
    }
    if target.0 == 0 {
        return Answer::Refused(Refusal::LevelZero);
    }
    if shape.max_level.0 < target.0 {
        return Answer::Refused(Refusal::AboveMaximum);
    }
    if actor.0 < target.0 {
        return Answer::Refused(Refusal::TargetAbove);
    }
    if !enabled_for(shape, levels, target) {
        return Answer::Refused(Refusal::NotEnabledForPartition);
    }
    let on = protects_at(shape, levels, target);
    if on & !turns_on(word) {
        return Answer::Refused(Refusal::ProtectionsCleared);
    }
    let old = default_mask(config_at(shape, levels, target));
    if on & (mask != old) {
        return Answer::Refused(Refusal::DefaultMaskChanged);
    }
    if kernel_only(mask) & mbec_for(shape, levels, target) {
        return Answer::Refused(Refusal::KernelOnlyExecute);
    }
    config_masks(setup, levels, masks, target, word);
    set_config(levels, target, word);
    Answer::Done(0)
}
