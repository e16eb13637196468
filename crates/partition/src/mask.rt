// Protection masks (01, "The bench model"): a mask has Read 1, Write 2, KMX 4, UMX 8. The mask of level l for page p stands at
// 4 p + l of the array that is lent. Level 0, a level above the maximum and a page that there is not have the mask 0.
ghost use Rattle.std.specs.Prelude.{◌≡◌, cond, ltb, ◌+◌, ◌*◌};
ghost use Rattle.model.specs.Arrays.{stored};
ghost use Rattle.model.specs.Masks.{valid_mask, kernel_only};
ghost use Rattle.model.specs.State.{mask_in};
ghost use Rattle.model.specs.Updates.{filled};

use model::machine::Shape;
use model::quantity::{Level, Page};
use word::field::has_bit;

// Words that a caller of lockstep owns, as those of `Levels` are.
pub type Masks = [u64; 256];

// The bits of a mask.
pub const READ_BIT: u32 = 0;

pub const WRITE_BIT: u32 = 1;

pub const KMX_BIT: u32 = 2;

pub const UMX_BIT: u32 = 3;

// The mask with every right.
pub const ALL_RIGHTS: u64 = 15;

// Is a mask valid? It is 0 or has Read.
pub fn valid_mask(mask: u64) -> bool
    ensures { result ≡ valid_mask mask }
{
    let read = has_bit(mask, READ_BIT);
    (mask <= ALL_RIGHTS) & ((mask == 0) | read)
}

// Has a mask KMX and no UMX?
pub fn kernel_only(mask: u64) -> bool
    ensures { result ≡ kernel_only mask }
{
    let kernel = has_bit(mask, KMX_BIT);
    let user = has_bit(mask, UMX_BIT);
    kernel & !user
}

// A level's mask of a page, where there are `pages` pages.
pub fn mask_at(shape: Shape, pages: u64, masks: &Masks, level: Level, page: Page) -> u64
    ensures { result ≡ mask_in shape pages masks.now level.0 page.0 }
{
    let number = level.0;
    let index = page.0;
    let top = shape.max_level.0;
    if index >= 64 {
        return 0;
    }
    if number >= 4 {
        return 0;
    }
    let i = (4 * index + number) as usize;
    let mask = masks[i];
    if (0 < number) & (number <= top) & (index < pages) {
        mask
    } else {
        0
    }
}

// Sets a level's mask of a page. An index past the array's end changes nothing.
pub fn set_mask(masks: &mut Masks, level: Level, page: Page, mask: u64)
    ensures { masks.new ≡ stored 256 masks.old (4 * page.0 + level.0) mask }
{
    let number = level.0;
    let index = page.0;
    if index >= 64 {
        return;
    }
    if number >= 256 {
        return;
    }
    let i = (4 * index + number) as usize;
    if i < 256 {
        masks[i] = mask;
    }
}

// The same for a page that is one of the `pages`; any other changes nothing.
fn set_page_mask(masks: &mut Masks, pages: u64, level: Level, page: Page, mask: u64)
    ensures { masks.new ≡ cond (ltb page.0 pages)
        (stored 256 masks.old (4 * page.0 + level.0) mask) masks.old }
{
    let index = page.0;
    if index < pages {
        set_mask(masks, level, page, mask);
    }
}

// Gives each of the `pages` pages the mask `mask` of a level.
pub fn fill_masks(masks: &mut Masks, pages: u64, level: Level, mask: u64)
    ensures { masks.new ≡ filled 64 pages level.0 mask masks.old }
{
    for index in 0..64 {
        set_page_mask(masks, pages, level, Page(index), mask);
    }
}
