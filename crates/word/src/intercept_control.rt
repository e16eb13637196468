// The intercept control word of document 001, HV_REGISTER_CR_INTERCEPT_CONTROL: the accesses to registers of lower levels that a level
// intercepts. Its 25 fields have one bit each, so its structure is an array of their values, in the order of 001; each field has
// its name as a position. The other 39 bits are reserved.
ghost use Rattle.word.specs.RegisterLayouts.{intercept_control};

use crate::field::{FieldPosition, put, take};
use crate::register_word::RegisterWord;

// How many fields there are.
pub const INTERCEPTS: usize = 25;

#[derive(Clone, Copy)]
pub struct InterceptControl {
    pub values: [u64; INTERCEPTS],
}

impl InterceptControl {
    pub const CR0_WRITE: FieldPosition = FieldPosition(0, 1);

    pub const CR4_WRITE: FieldPosition = FieldPosition(1, 1);

    pub const XCR0_WRITE: FieldPosition = FieldPosition(2, 1);

    pub const IA32_MISC_ENABLE_READ: FieldPosition = FieldPosition(3, 1);

    pub const IA32_MISC_ENABLE_WRITE: FieldPosition = FieldPosition(4, 1);

    pub const MSR_LSTAR_READ: FieldPosition = FieldPosition(5, 1);

    pub const MSR_LSTAR_WRITE: FieldPosition = FieldPosition(6, 1);

    pub const MSR_STAR_READ: FieldPosition = FieldPosition(7, 1);

    pub const MSR_STAR_WRITE: FieldPosition = FieldPosition(8, 1);

    pub const MSR_CSTAR_READ: FieldPosition = FieldPosition(9, 1);

    pub const MSR_CSTAR_WRITE: FieldPosition = FieldPosition(10, 1);

    pub const APIC_BASE_MSR_READ: FieldPosition = FieldPosition(11, 1);

    pub const APIC_BASE_MSR_WRITE: FieldPosition = FieldPosition(12, 1);

    pub const MSR_EFER_READ: FieldPosition = FieldPosition(13, 1);

    pub const MSR_EFER_WRITE: FieldPosition = FieldPosition(14, 1);

    pub const GDTR_WRITE: FieldPosition = FieldPosition(15, 1);

    pub const IDTR_WRITE: FieldPosition = FieldPosition(16, 1);

    pub const LDTR_WRITE: FieldPosition = FieldPosition(17, 1);

    pub const TR_WRITE: FieldPosition = FieldPosition(18, 1);

    pub const MSR_SYSENTER_CS_WRITE: FieldPosition = FieldPosition(19, 1);

    pub const MSR_SYSENTER_EIP_WRITE: FieldPosition = FieldPosition(20, 1);

    pub const MSR_SYSENTER_ESP_WRITE: FieldPosition = FieldPosition(21, 1);

    pub const MSR_SFMASK_WRITE: FieldPosition = FieldPosition(22, 1);

    pub const MSR_TSC_AUX_WRITE: FieldPosition = FieldPosition(23, 1);

    pub const MSR_SGX_LAUNCH_CONTROL_WRITE: FieldPosition = FieldPosition(24, 1);
}

impl RegisterWord for InterceptControl {
    ghost layout = { intercept_control };

    fn pack(self) -> u64 {
        let mut word: u64 = 0;
        for (i, value) in self.values.iter().enumerate() {
            word = put(word, i as u32, 1, *value);
        }
        word
    }

    fn unpack(word: u64) -> Self {
        let mut values = [0; INTERCEPTS];
        for (i, value) in values.iter_mut().enumerate() {
            *value = take(word, i as u32, 1);
        }
        Self { values }
    }
}
