// The registers 0 to 31 of a processor (01, "The bench model"): 0 to 11 are private to a level; 12, DR6, is too unless
// Dr6Shared is 1; 13 to 31 are shared by all levels. A register past 31 reads 0 and keeps nothing.
ghost use Rattle.std.specs.Prelude.{◌≡◌, ◌-◌};
ghost use Rattle.model.specs.Registers.{dr6, is_private, private_of, shared_of, register_of};
ghost use Rattle.model.specs.Updates.{set_private, set_shared, set_register};
ghost use Rattle.processor.specs.Record.{vp_of};

use crate::record;
use crate::record::Record;
use model::machine::Shape;
use model::quantity::Level;
use model::register::DR6;

// Is the register private to a level?
pub fn is_private(shape: Shape, register: u64) -> bool
    ensures { result ≡ is_private shape register }
{
    (register < DR6) | ((register == DR6) & !shape.dr6_shared)
}

// A private register of a level.
pub fn private_of(shape: Shape, vp: &Record, level: Level, register: u64) -> u64
    ensures { result ≡ private_of shape (vp_of vp.now) level.0 register }
{
    if register >= record::PRIVATE_REGISTERS {
        return 0;
    }
    record::level_word(shape, vp, level, register)
}

// The place of a register among the shared ones, which are kept from DR6 on.
fn shared_place(register: u64) -> u64
    ensures { result ≡ register - dr6 }
{
    if register < DR6 {
        return 0;
    }
    register - DR6
}

// A shared register.
pub fn shared_of(vp: &Record, register: u64) -> u64
    ensures { result ≡ shared_of (vp_of vp.now) register }
{
    let place = shared_place(register);
    if place >= record::SHARED_REGISTERS {
        return 0;
    }
    let i = (record::SHARED + place) as usize;
    vp[i]
}

// A register as a level has it.
pub fn register_of(shape: Shape, vp: &Record, level: Level, register: u64) -> u64
    ensures { result ≡ register_of shape (vp_of vp.now) level.0 register }
{
    if is_private(shape, register) {
        return private_of(shape, vp, level, register);
    }
    shared_of(vp, register)
}

// Sets a private register of a level.
pub fn set_private(shape: Shape, vp: &mut Record, level: Level, register: u64, value: u64)
    ensures { vp_of vp.new ≡ set_private shape (vp_of vp.old) level.0 register value }
{
    if register >= record::PRIVATE_REGISTERS {
        return;
    }
    record::set_level_word(shape, vp, level, register, value);
}

// Sets a shared register.
pub fn set_shared(vp: &mut Record, register: u64, value: u64)
    ensures { vp_of vp.new ≡ set_shared (vp_of vp.old) register value }
{
    let place = shared_place(register);
    if place >= record::SHARED_REGISTERS {
        return;
    }
    let i = (record::SHARED + place) as usize;
    vp[i] = value;
}

// Sets a register as a level has it.
pub fn set_register(shape: Shape, vp: &mut Record, level: Level, register: u64, value: u64)
    ensures { vp_of vp.new ≡ set_register shape (vp_of vp.old) level.0 register value }
{
    if is_private(shape, register) {
        set_private(shape, vp, level, register, value);
        return;
    }
    set_shared(vp, register, value);
}
