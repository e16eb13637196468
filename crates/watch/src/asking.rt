// Which level is told of an access to a register (02, request 6): the lowest one above the actor that is enabled on the processor and asks.
// A level with no bit set in its word asks for nothing, so the table is searched only for one that has a bit set. Most machines watch
// nothing, so `none_watches` of crate `processor` is asked first.
ghost use Rattle.std.specs.Prelude.{◌&&◌, ◌≡◌, ltb};
ghost use Rattle.model.specs.State.{context, enabled_at, level_found};
ghost use Rattle.model.specs.Registers.{register_of};
ghost use Rattle.model.specs.Watching.{asks_read, asks_write, changes_masked, mask_for, watcher};
ghost use Rattle.processor.specs.Record.{vp_of};
ghost use Rattle.watch.specs.Asking.{asks_for};

use crate::table::asked;
use model::machine::{Shape, Watch};
use model::quantity::{LEVEL_COUNT, Level};
use model::register;
use processor::record::{Record, active_of, enabled_at};
use processor::record_registers::register_of;
use processor::watch::{none_watches, watch_of};

// An access to a register: a read, or a write of a new value in the place of the old.
#[derive(Clone, Copy)]
pub enum RegisterAccess {
    Read { register: u64 },
    Write { register: u64, old: u64, new: u64 },
}

// A level's mask for writes of a register: CR0 and CR4 have one.
fn mask_for(watch: Watch, register: u64) -> u64
    ensures { result ≡ mask_for watch register }
{
    if register == register::CR0 {
        return watch.cr0_mask;
    }
    if register == register::CR4 {
        return watch.cr4_mask;
    }
    0
}

// Does a write change a masked bit?
fn changes_masked(mask: u64, old: u64, new: u64) -> bool
    ensures { result ≡ changes_masked mask old new }
{
    ((old ^ new) & mask) != 0
}

// Does a level ask for a write? Mask 0 means every write.
fn asks_write(watch: Watch, register: u64, old: u64, new: u64) -> bool
    ensures { result ≡ asks_write register old new watch }
{
    if !asked(watch.intercepts, register, true) {
        return false;
    }
    let mask = mask_for(watch, register);
    if mask == 0 {
        return true;
    }
    changes_masked(mask, old, new)
}

// Does a level ask for an access?
fn asks(watch: Watch, access: RegisterAccess) -> bool
    ensures { result ≡ asks_for access watch }
{
    if watch.intercepts == 0 {
        return false;
    }
    match access {
        RegisterAccess::Read { register } => asked(watch.intercepts, register, false),
        RegisterAccess::Write { register, old, new } => asks_write(watch, register, old, new),
    }
}

// Is the level above the actor and enabled, and does it ask?
fn hears(shape: Shape, vp: &Record, actor: Level, level: Level, access: RegisterAccess) -> bool
    ensures { let p = vp_of vp.now in
        result
        ≡ (ltb actor.0 level.0 && enabled_at shape p level.0
        && asks_for access (context shape p level.0).watch) }
{
    if level.0 <= actor.0 {
        return false;
    }
    if !enabled_at(shape, vp, level) {
        return false;
    }
    asks(watch_of(shape, vp, level), access)
}

// The lowest level that is told of an access to a register of the target, which only an actor's own are.
fn watcher(shape: Shape, vp: &Record, target: Level, access: RegisterAccess) -> Option<Level>
    ensures { result ≡ level_found (watcher shape (vp_of vp.now) target.0 (asks_for access)) }
{
    if target.0 != active_of(vp).0 {
        return None;
    }
    for number in 1..LEVEL_COUNT {
        let level = Level(number);
        if hears(shape, vp, target, level, access) {
            return Some(level);
        }
    }
    None
}

// The level that is told of a read of a register.
#[inline]
pub fn read_watcher(shape: Shape, vp: &Record, target: Level, register: u64) -> Option<Level>
    ensures { result ≡ level_found (watcher shape (vp_of vp.now) target.0 (asks_read register)) }
{
    if none_watches(vp) {
        return None;
    }
    watcher(shape, vp, target, RegisterAccess::Read { register })
}

// The level that is told of a write of a value to a register.
#[inline]
pub fn write_watcher(
    shape: Shape,
    vp: &Record,
    target: Level,
    register: u64,
    value: u64,
) -> Option<Level>
    ensures { let p = vp_of vp.now in
        let asks = asks_write register (register_of shape p target.0 register) value in
        result ≡ level_found (watcher shape p target.0 asks) }
{
    if none_watches(vp) {
        return None;
    }
    let old = register_of(shape, vp, target, register);
    let access = RegisterAccess::Write {
        register,
        old,
        new: value,
    };
    watcher(shape, vp, target, access)
}
