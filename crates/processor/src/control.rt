// The control record of a level (01, "Events": entry, envp): why it was entered, from which level, and RAX and RCX at that time;
// and the start of a level.
ghost use Rattle.std.specs.Prelude.{◌≡◌, ◌<◌, length};
ghost use Rattle.model.specs.Entry.{started};
ghost use Rattle.model.specs.State.{context};
ghost use Rattle.processor.specs.Record.{Within, record_words, level_enabled, row_of, vp_of, control_set, started_row};

use crate::record;
use crate::record::Record;
use crate::watch::watch_of;
use model::machine::{Control, Shape, Watch};
use model::quantity::Level;
use model::register;
use model::set::is_level;

// Where a level starts: what envp gives of 001's HV_INITIAL_VP_CONTEXT.
#[derive(Clone, Copy)]
pub struct InitialContext {
    pub rip: u64,
    pub rsp: u64,
    pub cr0: u64,
}

// The row of words of a level.
type Row = [u64; record::LEVEL_WORDS as usize];

// The control record of a level; the empty one beyond M.
pub fn control_of(shape: Shape, vp: &Record, level: Level) -> Control
    ensures { result ≡ (context shape (vp_of vp.now) level.0).control }
{
    Control {
        reason: record::level_word(shape, vp, level, record::REASON),
        from: Level(record::level_word(shape, vp, level, record::FROM)),
        rax: record::level_word(shape, vp, level, record::SAVED_RAX),
        rcx: record::level_word(shape, vp, level, record::SAVED_RCX),
    }
}

// Sets the control record of a level.
pub fn set_control(shape: Shape, vp: &mut Record, level: Level, control: Control)
    ensures { vp_of vp.new ≡ control_set shape (vp_of vp.old) level.0 control }
{
    record::set_level_word(shape, vp, level, record::REASON, control.reason);
    record::set_level_word(shape, vp, level, record::FROM, control.from.0);
    record::set_level_word(shape, vp, level, record::SAVED_RAX, control.rax);
    record::set_level_word(shape, vp, level, record::SAVED_RCX, control.rcx);
}

// Puts a row of words into the place of a level's.
fn set_row(vp: &mut Record, level: Level, row: Row)
    requires { level.0 < 4 }
    ensures row { row_of vp.new level.0 ≡ row }
    ensures rest { Within level.0 vp.old vp.new }
{
    let start = (record::LEVELS + record::LEVEL_WORDS * level.0) as usize;
    vp[start..start + record::LEVEL_WORDS as usize].copy_from_slice(&row);
}

// Adds a level to the set of the enabled levels.
fn enable(vp: &mut Record, level: Level)
    requires { level.0 < 4 }
    ensures enabled { vp.new ≡ level_enabled vp.old level.0 }
    ensures size { length vp.old ≡ record_words }
{
    let words: &mut [u64] = vp;
    words[record::ENABLED] = record::with_bit(words[record::ENABLED], level.0, 1);
}

// The row of a level that starts: RIP, RSP and CR0 as given, the configuration of lower levels and what it asks to be told of their
// registers as they were, and 0 elsewhere.
fn started_row(initial: InitialContext, held: [u64; 4], watch: Watch) -> Row
    ensures { result ≡ started_row initial.rip initial.rsp initial.cr0 held watch }
{
    let mut row = [0; record::LEVEL_WORDS as usize];
    row[register::RIP as usize] = initial.rip;
    row[register::RSP as usize] = initial.rsp;
    row[register::CR0 as usize] = initial.cr0;
    row[record::INTERCEPTS as usize] = watch.intercepts;
    row[record::CR0_MASK as usize] = watch.cr0_mask;
    row[record::CR4_MASK as usize] = watch.cr4_mask;
    row[record::SECURE as usize..record::REASON as usize].copy_from_slice(&held);
    row
}

// envp: makes the target enabled, with RIP, RSP and CR0 as given, its other private registers 0, TPR 0, nothing pending, and an
// empty control record. What it holds of lower levels stays, and what it asks to be told of their registers.
pub fn start(shape: Shape, vp: &mut Record, target: Level, initial: InitialContext)
    ensures { vp_of vp.new
        ≡ started shape (vp_of vp.old) target.0 initial.rip initial.rsp initial.cr0 }
{
    if is_level(shape, target) {
        let held = record::four_words(shape, vp, target, record::SECURE);
        let row = started_row(initial, held, watch_of(shape, vp, target));
        set_row(vp, target, row);
        enable(vp, target);
    }
}
