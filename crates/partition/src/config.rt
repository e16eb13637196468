// The configuration words (01, the events config and secure): what a word says, and whether it sets a bit that is reserved.
ghost use Rattle.std.specs.Prelude.{◌≡◌};
ghost use Rattle.model.specs.Masks.{default_mask, turns_on, reserved_set, secure_reserved_set};

use word::field::take;
use word::register_word::RegisterWord;
use word::registers::PartitionConfig;

// The mask that each page gets when the word turns protections on.
pub fn default_mask(word: u64) -> u64
    ensures { result ≡ default_mask word }
{
    let config = PartitionConfig::unpack(word);
    config.default_vtl_protection_mask
}

// Does the word turn protections on?
pub fn turns_on(word: u64) -> bool
    ensures { result ≡ turns_on word }
{
    let config = PartitionConfig::unpack(word);
    config.enable_vtl_protection == 1
}

// Is a reserved bit set in a partition configuration word?
pub fn reserved_set(word: u64) -> bool
    ensures { result ≡ reserved_set word }
{
    let low = take(word, 7, 2);
    let high = take(word, 10, 54);
    (low != 0) | (high != 0)
}

// The same of a secure configuration word.
pub fn secure_reserved_set(word: u64) -> bool
    ensures { result ≡ secure_reserved_set word }
{
    let high = take(word, 2, 62);
    high != 0
}
