// What moves a processor from level to level (01, "Events"): entry, VTL call, VTL return and an interrupt. The record is lent and
// changed in place, and each contract is an equation with the definition of crate `model` that states the rule.
#![tactic(auto)]

ghost use Rattle.std.specs.Prelude.{◌≡◌, not, ◌&&◌, if◌then◌else◌, ◌==◌, nat_eq, nat_lt};
ghost use Rattle.model.specs.Entry.{by_call, enter, highest_ready, next_up, advanced, left};
ghost use Rattle.model.specs.Entry.{waiting, reentered, returned, interrupted};
ghost use Rattle.model.specs.Registers.{rax, rcx, shared_of};
ghost use Rattle.std.specs.Option.{option_map};
ghost use Rattle.model.specs.State.{above_zero, active_of, context, enabled_at, level, level_found};
ghost use Rattle.model.specs.Updates.{set_shared};
ghost use Rattle.processor.specs.Record.{vp_of};

use model::machine::{BY_CALL, BY_INTERRUPT, Control, Shape};
use model::quantity::{LEVEL_COUNT, Level};
use model::register;
use processor::control::{control_of, set_control};
use processor::record::Record;
use processor::record_registers::{private_of, set_private, set_shared, shared_of};
use processor::secure::unlock;
use processor::{interrupt, record};
use std::num::wrapping_add_u64;

// Enters a level: its record gets the reason, the level left, and RAX and RCX as they stand. No other register changes.
pub fn enter(shape: Shape, vp: &mut Record, level: Level, reason: u64)
    ensures { vp_of vp.new ≡ enter shape (vp_of vp.old) level.0 reason }
{
    let control = Control {
        reason,
        from: record::active_of(vp),
        rax: shared_of(vp, register::RAX),
        rcx: shared_of(vp, register::RCX),
    };
    set_control(shape, vp, level, control);
    record::set_active(vp, level);
}

// Is the level above the active one, and enabled?
fn is_above(shape: Shape, vp: &Record, active: Level, level: Level) -> bool
    ensures { result ≡ (nat_lt active.0 level.0 && enabled_at shape (vp_of vp.now) level.0) }
{
    (active < level) & record::enabled_at(shape, vp, level)
}

// The next enabled level above the active one.
pub fn next_up(shape: Shape, vp: &Record) -> Option<Level>
    ensures { result ≡ level_found (next_up shape (vp_of vp.now)) }
{
    let active = record::active_of(vp);
    for number in 1..LEVEL_COUNT {
        let level = Level(number);
        if is_above(shape, vp, active, level) {
            return Some(level);
        }
    }
    None
}

// Moves the active level's RIP on by the length, modulo 2^64.
fn advance(shape: Shape, vp: &mut Record, length: u64)
    ensures { vp_of vp.new ≡ advanced shape (vp_of vp.old) length }
{
    let active = record::active_of(vp);
    let rip = wrapping_add_u64(private_of(shape, vp, active, register::RIP), length);
    set_private(shape, vp, active, register::RIP, rip);
}

// call: the caller's RIP moves on, and the level is entered by call.
pub fn vtl_call(shape: Shape, vp: &mut Record, level: Level, length: u64)
    ensures { vp_of vp.new
        ≡ enter shape (advanced shape (vp_of vp.old) length) level.0 by_call }
{
    advance(shape, vp, length);
    enter(shape, vp, level, BY_CALL);
}

// ret: the actor's RIP moves on if it was entered by call.
fn advance_after_call(shape: Shape, vp: &mut Record, length: u64)
    ensures { let q = vp_of vp.old in
        vp_of vp.new
        ≡ (if nat_eq (context shape q (active_of q)).control.reason by_call then advanced shape q length else q) }
{
    let control = control_of(shape, vp, record::active_of(vp));
    if control.reason == BY_CALL {
        advance(shape, vp, length);
    }
}

// With RCX 0, restores RAX and RCX from a control record. RCX 1 is the fast return, which keeps both.
fn restore(vp: &mut Record, control: Control)
    ensures { let q = vp_of vp.old in
        vp_of vp.new
        ≡ (if nat_eq (shared_of q rcx) 0 then set_shared (set_shared q rax control.rax) rcx control.rcx else q) }
{
    if shared_of(vp, register::RCX) == 0 {
        set_shared(vp, register::RAX, control.rax);
        set_shared(vp, register::RCX, control.rcx);
    }
}

// ret: RAX and RCX are restored, and the level that the active one was entered from becomes active.
fn leave(shape: Shape, vp: &mut Record)
    ensures { vp_of vp.new ≡ left shape (vp_of vp.old) }
{
    let active = record::active_of(vp);
    let control = control_of(shape, vp, active);
    restore(vp, control);
    record::set_active(vp, control.from);
}

// Is the level above the active one, and enabled with a ready vector?
fn is_waiting(shape: Shape, vp: &Record, active: Level, level: Level) -> bool
    ensures { let q = vp_of vp.now in
        result
        ≡ (nat_lt active.0 level.0 && enabled_at shape q level.0
        && not (highest_ready (context shape q level.0) == 0)) }
{
    is_above(shape, vp, active, level) && interrupt::highest_ready(shape, vp, level).is_some()
}

// The highest level above the active one that is enabled with a ready vector.
fn waiting(shape: Shape, vp: &Record) -> Option<Level>
    ensures { result ≡ option_map level (above_zero (waiting shape (vp_of vp.now))) }
{
    let active = record::active_of(vp);
    for number in (1..LEVEL_COUNT).rev() {
        let level = Level(number);
        if is_waiting(shape, vp, active, level) {
            return Some(level);
        }
    }
    None
}

// ret: that level is entered by interrupt.
fn reenter(shape: Shape, vp: &mut Record)
    ensures { vp_of vp.new ≡ reentered shape (vp_of vp.old) }
{
    if let Some(level) = waiting(shape, vp) {
        enter(shape, vp, level, BY_INTERRUPT);
    }
}

// ret: the actor's RIP moves on if it was called, its TLB locks are cleared, RAX and RCX are restored, the level that it was
// entered from becomes active, and then a higher level with a ready vector is entered.
pub fn vtl_return(shape: Shape, vp: &mut Record, length: u64)
    ensures { vp_of vp.new ≡ returned shape (vp_of vp.old) length }
{
    let actor = record::active_of(vp);
    advance_after_call(shape, vp, length);
    unlock(shape, vp, actor);
    leave(shape, vp);
    reenter(shape, vp);
}

// int: a vector of the target becomes pending; the target is entered by interrupt if it is above the active level and the vector
// is ready.
pub fn interrupt(shape: Shape, vp: &mut Record, target: Level, vector: u64)
    ensures { vp_of vp.new ≡ interrupted shape (vp_of vp.old) target.0 vector }
{
    let entering = interrupt::enters(shape, vp, target, vector);
    interrupt::set_pending(shape, vp, target, vector, 1);
    if entering {
        enter(shape, vp, target, BY_INTERRUPT);
    }
}
