// The table that ties each named bit of the intercept control word to a register of ours and to read or write (02, request 6).
ghost use Rattle.std.specs.Prelude.{◌≡◌};
ghost use Rattle.model.specs.Watching.{watch_table, asked_in};

use model::register;
use model::watched::{NOT_MODELLED, WatchedAccess};
use word::field::has_bit;
use word::intercept_control::{INTERCEPTS, InterceptControl};

// A row for each named bit, in the order of 001. One computed comparison with `watch_table` of crate `model`, in the proof of `asked`, tests
// all rows.
const WATCH_TABLE: [WatchedAccess; INTERCEPTS] = [
    WatchedAccess {
        position: InterceptControl::CR0_WRITE,
        register: register::CR0,
        write: true,
    },
    WatchedAccess {
        position: InterceptControl::CR4_WRITE,
        register: register::CR4,
        write: true,
    },
    WatchedAccess {
        position: InterceptControl::XCR0_WRITE,
        register: register::XCR0,
        write: true,
    },
    WatchedAccess {
        position: InterceptControl::IA32_MISC_ENABLE_READ,
        register: NOT_MODELLED,
        write: false,
    },
    WatchedAccess {
        position: InterceptControl::IA32_MISC_ENABLE_WRITE,
        register: NOT_MODELLED,
        write: true,
    },
    WatchedAccess {
        position: InterceptControl::MSR_LSTAR_READ,
        register: register::LSTAR,
        write: false,
    },
    WatchedAccess {
        position: InterceptControl::MSR_LSTAR_WRITE,
        register: register::LSTAR,
        write: true,
    },
    WatchedAccess {
        position: InterceptControl::MSR_STAR_READ,
        register: register::STAR,
        write: false,
    },
    WatchedAccess {
        position: InterceptControl::MSR_STAR_WRITE,
        register: register::STAR,
        write: true,
    },
    WatchedAccess {
        position: InterceptControl::MSR_CSTAR_READ,
        register: register::CSTAR,
        write: false,
    },
    WatchedAccess {
        position: InterceptControl::MSR_CSTAR_WRITE,
        register: register::CSTAR,
        write: true,
    },
    WatchedAccess {
        position: InterceptControl::APIC_BASE_MSR_READ,
        register: NOT_MODELLED,
        write: false,
    },
    WatchedAccess {
        position: InterceptControl::APIC_BASE_MSR_WRITE,
        register: NOT_MODELLED,
        write: true,
    },
    WatchedAccess {
        position: InterceptControl::MSR_EFER_READ,
        register: register::EFER,
        write: false,
    },
    WatchedAccess {
        position: InterceptControl::MSR_EFER_WRITE,
        register: register::EFER,
        write: true,
    },
    WatchedAccess {
        position: InterceptControl::GDTR_WRITE,
        register: NOT_MODELLED,
        write: true,
    },
    WatchedAccess {
        position: InterceptControl::IDTR_WRITE,
        register: NOT_MODELLED,
        write: true,
    },
    WatchedAccess {
        position: InterceptControl::LDTR_WRITE,
        register: NOT_MODELLED,
        write: true,
    },
    WatchedAccess {
        position: InterceptControl::TR_WRITE,
        register: NOT_MODELLED,
        write: true,
    },
    WatchedAccess {
        position: InterceptControl::MSR_SYSENTER_CS_WRITE,
        register: NOT_MODELLED,
        write: true,
    },
    WatchedAccess {
        position: InterceptControl::MSR_SYSENTER_EIP_WRITE,
        register: NOT_MODELLED,
        write: true,
    },
    WatchedAccess {
        position: InterceptControl::MSR_SYSENTER_ESP_WRITE,
        register: NOT_MODELLED,
        write: true,
    },
    WatchedAccess {
        position: InterceptControl::MSR_SFMASK_WRITE,
        register: register::SFMASK,
        write: true,
    },
    WatchedAccess {
        position: InterceptControl::MSR_TSC_AUX_WRITE,
        register: NOT_MODELLED,
        write: true,
    },
    WatchedAccess {
        position: InterceptControl::MSR_SGX_LAUNCH_CONTROL_WRITE,
        register: NOT_MODELLED,
        write: true,
    },
];

// Does a word ask for this access to a register: is the bit of a row for it set?
pub(crate) fn asked(word: u64, register: u64, write: bool) -> bool
    ensures { result ≡ asked_in watch_table word register write }
{
    WATCH_TABLE.iter().any(|row| {
        has_bit(word, row.position.0) & (row.register == register) & (row.write == write)
    })
}
