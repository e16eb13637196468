// Well-formed processors (01, "Well formed"), clause by clause, read from the words of the record where they lie. The partition's
// words are lent beside it: a processor's enabled levels are within the partition's, and so is its MBEC.
ghost use Rattle.std.specs.Prelude.{◌≡◌, List, ℕ, ◌<◌, eqb};
ghost use Rattle.word.specs.Field.{bit};
ghost use Rattle.model.specs.Arrays.{number_at};
ghost use Rattle.model.specs.Bounded.{every};
ghost use Rattle.model.specs.Registers.{cr0, protected_bit, private_of};
ghost use Rattle.model.specs.State.{context, enabled_at, in_set};
ghost use Rattle.model.specs.WellFormed.{◌implies◌, never_entered, well_entered, well_formed_context, well_formed_vp, well_moded_vp};
ghost use Rattle.partition.specs.PartitionView.{enabled_in, mbec_in, partition_of};
ghost use Rattle.processor.specs.Record.{level_words, vp_of, word_in};
ghost use Rattle.state.specs.SecureWord.{well_configured};

use model::machine::{BY_INTERRUPT, Control, Shape};
use model::quantity::{FIRST_VECTOR, HIGHEST_CLASS, LEVEL_COUNT, Level};
use model::register::{CR0, PROTECTED_BIT};
use model::set::is_level;
use partition::config::secure_reserved_set;
use partition::level::{Levels, enabled_for, mbec_for};
use processor::control::control_of;
use processor::record;
use processor::record::Record;
use processor::record_registers::private_of;
use processor::secure::secure_of;
use processor::watch::{intercept_reserved_set, watch_of};
use word::field::{has_bit, take};
use word::register_word::RegisterWord;
use word::registers::SecureConfig;

// The words of pending vectors of a level.
const PENDING_WORDS: u64 = 4;

// The word at an offset in a level's row; 0 beyond M. (`level_word` of crate `processor` asks the same of its caller, so it is not public.)
fn row_word(shape: Shape, vp: &Record, level: Level, offset: u64) -> u64
    requires { (level.0 < 4) × (offset < level_words) }
    ensures { result ≡ word_in shape vp.now level.0 offset }
{
    let words: &[u64] = vp;
    let number = level.0;
    let i = (record::LEVELS + record::LEVEL_WORDS * number + offset) as usize;
    let word = words[i];
    if is_level(shape, level) {
        return word;
    }
    0
}

// Was a level entered from a lower enabled one (from 0 if its reason is 0), with reason 0..2?
fn well_entered(level: Level, from_enabled: bool, control: Control) -> bool
    ensures { result ≡ well_entered level.0 from_enabled control }
{
    let from = control.from.0;
    let reason = control.reason;
    (from < level.0) & from_enabled & ((reason != 0) | (from == 0)) & (reason <= BY_INTERRUPT)
}

// Are reason, level left, RAX and RCX 0?
fn never_entered(control: Control) -> bool
    ensures { result ≡ never_entered control }
{
    (control.reason == 0) & (control.from.0 == 0) & (control.rax == 0) & (control.rcx == 0)
}

// Has a secure configuration word no reserved bit, and MBEC only where the partition has it for the setting level?
fn well_configured(word: u64, mbec: bool) -> bool
    ensures { result ≡ well_configured mbec word }
{
    let reserved = secure_reserved_set(word);
    let on = SecureConfig::unpack(word).mbec_enabled == 1;
    !reserved & (!on | mbec)
}

// The same of all that a level holds of lower levels. Of itself and of higher levels it holds 0.
fn well_configured_below(shape: Shape, vp: &Record, level: Level, mbec: bool) -> bool
    requires { level.0 < 4 }
    ensures { let held = number_at 4 (context shape (vp_of vp.now) level.0).secure in
        result ≡ every level.0 (λ j. well_configured mbec (held j)) }
{
    let zero = well_configured(secure_of(shape, vp, level, Level(0)), mbec);
    let one = well_configured(secure_of(shape, vp, level, Level(1)), mbec);
    let two = well_configured(secure_of(shape, vp, level, Level(2)), mbec);
    zero & one & two
}

// Has a level no pending vector?
fn none_pending(shape: Shape, vp: &Record, level: Level) -> bool
    requires { level.0 < 4 }
    ensures { let words = (context shape (vp_of vp.now) level.0).pending in
        result ≡ every 4 (λ i. eqb (number_at 4 words i) 0) }
{
    (0..PENDING_WORDS).all(|i| row_word(shape, vp, level, record::PENDING + i) == 0)
}

// Is what a processor holds of a level well formed?
fn well_formed_context(shape: Shape, levels: &Levels, vp: &Record, level: Level) -> bool
    requires { level.0 < 4 }
    ensures { let p = vp_of vp.now in let l = level.0 in let c = context shape p l in
        result ≡ well_formed_context l (in_set shape (enabled_in levels.now) l) (enabled_at shape p l)
        (in_set shape (mbec_in levels.now) l) (enabled_at shape p c.control.from.0) c }
{
    let on = enabled_for(shape, levels, level);
    let mbec = mbec_for(shape, levels, level);
    let enabled = record::enabled_at(shape, vp, level);
    let control = control_of(shape, vp, level);
    let entered = well_entered(level, record::enabled_at(shape, vp, control.from), control);
    let never = never_entered(control);
    let configured = well_configured_below(shape, vp, level, mbec);
    let class = row_word(shape, vp, level, record::TPR);
    // Vectors below the first are never pending: they are the low bits of the first word.
    let pending = row_word(shape, vp, level, record::PENDING);
    let low = take(pending, 0, FIRST_VECTOR as u32);
    let none = none_pending(shape, vp, level);
    let reserved = intercept_reserved_set(watch_of(shape, vp, level).intercepts);
    (!enabled | on)
        & (!((0 < level.0) & enabled) | entered)
        & configured
        & (class <= HIGHEST_CLASS)
        & (low == 0)
        & (enabled | none)
        & (!((0 < level.0) & !enabled) | never)
        & (!(0 < level.0) | !reserved)
}

// Is a processor well formed, but for real mode? Of the partition only the levels are read, not the masks.
pub fn well_formed_vp(shape: Shape, levels: &Levels, vp: &Record) -> bool
    ensures { (masks : List ℕ) →
        result ≡ well_formed_vp shape (partition_of levels.now masks) (vp_of vp.now) }
{
    let lowest = record::enabled_at(shape, vp, Level(0));
    let active = record::enabled_at(shape, vp, record::active_of(vp));
    let formed = (0..LEVEL_COUNT).all(|number| well_formed_context(
        shape,
        levels,
        vp,
        Level(number),
    ));
    lowest & active & formed
}

// Is a level not enabled, or not in real mode?
fn well_moded(shape: Shape, vp: &Record, level: Level) -> bool
    ensures { let p = vp_of vp.now in
        result ≡ (enabled_at shape p level.0 implies bit (private_of shape p level.0 cr0) protected_bit) }
{
    let enabled = record::enabled_at(shape, vp, level);
    let protected = has_bit(private_of(shape, vp, level, CR0), PROTECTED_BIT);
    !enabled | protected
}

// The same of each level above 0.
pub fn well_moded_vp(shape: Shape, vp: &Record) -> bool
    ensures { result ≡ well_moded_vp shape (vp_of vp.now) }
{
    (1..LEVEL_COUNT).all(|number| well_moded(shape, vp, Level(number)))
}
