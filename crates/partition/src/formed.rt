// Well-formed levels (01, "Well formed"): what the partition holds of each level above 0.
ghost use Rattle.std.specs.Prelude.{◌≡◌, suc};
ghost use Rattle.model.specs.Bounded.{every};
ghost use Rattle.model.specs.State.{in_set, config_in, mask_in};
ghost use Rattle.model.specs.WellFormed.{well_formed_level_by};
ghost use Rattle.partition.specs.Denying.{mask_passes};
ghost use Rattle.partition.specs.PartitionView.{enabled_in, mbec_in, configs_in};

use crate::config::{default_mask, reserved_set, turns_on};
use crate::level::{Levels, config_at, enabled_for, mbec_for};
use crate::mask::{Masks, kernel_only, mask_at, valid_mask};
use model::machine::Shape;
use model::quantity::{LEVEL_COUNT, Level, Page};

// May a well-formed level have this mask? It is valid, and where `strict` is set, it is not one with KMX and no UMX.
fn mask_passes(mask: u64, strict: bool) -> bool
    ensures { result ≡ mask_passes strict mask }
{
    let valid = valid_mask(mask);
    let kernel = kernel_only(mask);
    valid & (!strict | !kernel)
}

// The same of all page masks of a level.
fn masks_pass(shape: Shape, pages: u64, masks: &Masks, level: Level, strict: bool) -> bool
    ensures { result ≡ every 64 (λ p. mask_passes strict (mask_in shape pages masks.now level.0 p)) }
{
    (0..64).all(|index| mask_passes(mask_at(shape, pages, masks, level, Page(index)), strict))
}

// Is a level above 0 well formed?
fn well_formed_level(shape: Shape, pages: u64, levels: &Levels, masks: &Masks, level: Level) -> bool
    ensures { result ≡ well_formed_level_by (mask_in shape pages masks.now level.0)
        (config_in shape (configs_in levels.now) level.0)
        (in_set shape (enabled_in levels.now) level.0)
        (in_set shape (mbec_in levels.now) level.0) }
{
    let enabled = enabled_for(shape, levels, level);
    let mbec = mbec_for(shape, levels, level);
    let word = config_at(shape, levels, level);
    let on = turns_on(word);
    let default = default_mask(word);
    let strict = mbec & on;
    let pages_pass = masks_pass(shape, pages, masks, level, strict);
    let default_passes = mask_passes(default, strict);
    let reserved = reserved_set(word);
    pages_pass & default_passes & !reserved & (!on | enabled) & (!mbec | enabled)
}

// Is each level above 0 well formed?
pub fn well_formed_levels(shape: Shape, pages: u64, levels: &Levels, masks: &Masks) -> bool
    ensures { result ≡ every 3 (λ i. well_formed_level_by (mask_in shape pages masks.now (suc i))
        (config_in shape (configs_in levels.now) (suc i))
        (in_set shape (enabled_in levels.now) (suc i))
        (in_set shape (mbec_in levels.now) (suc i))) }
{
    (1..LEVEL_COUNT).all(|number| well_formed_level(shape, pages, levels, masks, Level(number)))
}
