// Six registers of document 001 (the seventh stands in intercept_control.rt): the structure of each, packed into a word and unpacked
// from one; and below them one table of the used fields of all seven, by which a field is read and replaced by its number. Each offset
// and width stands here once, as a constant that `pack`, `unpack` and the table take.
ghost use Rattle.std.specs.Prelude.{◌≡◌};
ghost use Rattle.word.specs.RegisterFields.{field_of, position_of, with_field};
ghost use Rattle.word.specs.RegisterLayouts.{capabilities, partition_status, vp_status};
ghost use Rattle.word.specs.RegisterLayouts.{partition_config, secure_config, code_page_offsets};

use crate::field::FieldPosition;
use crate::intercept_control::InterceptControl;
use crate::register_word::RegisterWord;

// What the hypervisor offers: HV_X64_REGISTER_VSM_CAPABILITIES.
#[derive(Clone, Copy)]
pub struct Capabilities {
    pub deny_lower_vtl_startup: u64,
    pub mbec_vtl_mask: u64,
    pub dr6_shared: u64,
}

impl Capabilities {
    pub const DENY_LOWER_VTL_STARTUP: FieldPosition = FieldPosition(46, 1);

    pub const MBEC_VTL_MASK: FieldPosition = FieldPosition(47, 16);

    pub const DR6_SHARED: FieldPosition = FieldPosition(63, 1);
}

impl RegisterWord for Capabilities {
    ghost layout = { capabilities };

    fn pack(self) -> u64 {
        let word = Self::DENY_LOWER_VTL_STARTUP.put(0, self.deny_lower_vtl_startup);
        let word = Self::MBEC_VTL_MASK.put(word, self.mbec_vtl_mask);
        Self::DR6_SHARED.put(word, self.dr6_shared)
    }

    fn unpack(word: u64) -> Self {
        Self {
            deny_lower_vtl_startup: Self::DENY_LOWER_VTL_STARTUP.take(word),
            mbec_vtl_mask: Self::MBEC_VTL_MASK.take(word),
            dr6_shared: Self::DR6_SHARED.take(word),
        }
    }
}

// What a partition has enabled: HV_REGISTER_VSM_PARTITION_STATUS.
#[derive(Clone, Copy)]
pub struct PartitionStatus {
    pub enabled_vtl_set: u64,
    pub maximum_vtl: u64,
    pub mbec_enabled_vtl_set: u64,
}

impl PartitionStatus {
    pub const ENABLED_VTL_SET: FieldPosition = FieldPosition(0, 16);

    pub const MAXIMUM_VTL: FieldPosition = FieldPosition(16, 4);

    pub const MBEC_ENABLED_VTL_SET: FieldPosition = FieldPosition(20, 16);
}

impl RegisterWord for PartitionStatus {
    ghost layout = { partition_status };

    fn pack(self) -> u64 {
        let word = Self::ENABLED_VTL_SET.put(0, self.enabled_vtl_set);
        let word = Self::MAXIMUM_VTL.put(word, self.maximum_vtl);
        Self::MBEC_ENABLED_VTL_SET.put(word, self.mbec_enabled_vtl_set)
    }

    fn unpack(word: u64) -> Self {
        Self {
            enabled_vtl_set: Self::ENABLED_VTL_SET.take(word),
            maximum_vtl: Self::MAXIMUM_VTL.take(word),
            mbec_enabled_vtl_set: Self::MBEC_ENABLED_VTL_SET.take(word),
        }
    }
}

// What a virtual processor has active and enabled: HV_REGISTER_VSM_VP_STATUS.
#[derive(Clone, Copy)]
pub struct VpStatus {
    pub active_vtl: u64,
    pub active_mbec_enabled: u64,
    pub enabled_vtl_set: u64,
}

impl VpStatus {
    pub const ACTIVE_VTL: FieldPosition = FieldPosition(0, 4);

    pub const ACTIVE_MBEC_ENABLED: FieldPosition = FieldPosition(4, 1);

    pub const ENABLED_VTL_SET: FieldPosition = FieldPosition(16, 16);
}

impl RegisterWord for VpStatus {
    ghost layout = { vp_status };

    fn pack(self) -> u64 {
        let word = Self::ACTIVE_VTL.put(0, self.active_vtl);
        let word = Self::ACTIVE_MBEC_ENABLED.put(word, self.active_mbec_enabled);
        Self::ENABLED_VTL_SET.put(word, self.enabled_vtl_set)
    }

    fn unpack(word: u64) -> Self {
        Self {
            active_vtl: Self::ACTIVE_VTL.take(word),
            active_mbec_enabled: Self::ACTIVE_MBEC_ENABLED.take(word),
            enabled_vtl_set: Self::ENABLED_VTL_SET.take(word),
        }
    }
}

// How a level has set up its partition: HV_REGISTER_VSM_PARTITION_CONFIG.
#[derive(Clone, Copy)]
pub struct PartitionConfig {
    pub enable_vtl_protection: u64,
    pub default_vtl_protection_mask: u64,
    pub zero_memory_on_reset: u64,
    pub deny_lower_vtl_startup: u64,
    pub intercept_vp_startup: u64,
}

impl PartitionConfig {
    pub const ENABLE_VTL_PROTECTION: FieldPosition = FieldPosition(0, 1);

    pub const DEFAULT_VTL_PROTECTION_MASK: FieldPosition = FieldPosition(1, 4);

    pub const ZERO_MEMORY_ON_RESET: FieldPosition = FieldPosition(5, 1);

    pub const DENY_LOWER_VTL_STARTUP: FieldPosition = FieldPosition(6, 1);

    pub const INTERCEPT_VP_STARTUP: FieldPosition = FieldPosition(9, 1);
}

impl RegisterWord for PartitionConfig {
    ghost layout = { partition_config };

    fn pack(self) -> u64 {
        let word = Self::ENABLE_VTL_PROTECTION.put(0, self.enable_vtl_protection);
        let word = Self::DEFAULT_VTL_PROTECTION_MASK.put(word, self.default_vtl_protection_mask);
        let word = Self::ZERO_MEMORY_ON_RESET.put(word, self.zero_memory_on_reset);
        let word = Self::DENY_LOWER_VTL_STARTUP.put(word, self.deny_lower_vtl_startup);
        Self::INTERCEPT_VP_STARTUP.put(word, self.intercept_vp_startup)
    }

    fn unpack(word: u64) -> Self {
        Self {
            enable_vtl_protection: Self::ENABLE_VTL_PROTECTION.take(word),
            default_vtl_protection_mask: Self::DEFAULT_VTL_PROTECTION_MASK.take(word),
            zero_memory_on_reset: Self::ZERO_MEMORY_ON_RESET.take(word),
            deny_lower_vtl_startup: Self::DENY_LOWER_VTL_STARTUP.take(word),
            intercept_vp_startup: Self::INTERCEPT_VP_STARTUP.take(word),
        }
    }
}

// How a level has set up a lower one on a virtual processor: HV_REGISTER_VSM_VP_SECURE_VTL_CONFIG.
#[derive(Clone, Copy)]
pub struct SecureConfig {
    pub mbec_enabled: u64,
    pub tlb_locked: u64,
}

impl SecureConfig {
    pub const MBEC_ENABLED: FieldPosition = FieldPosition(0, 1);

    pub const TLB_LOCKED: FieldPosition = FieldPosition(1, 1);
}

impl RegisterWord for SecureConfig {
    ghost layout = { secure_config };

    fn pack(self) -> u64 {
        let word = Self::MBEC_ENABLED.put(0, self.mbec_enabled);
        Self::TLB_LOCKED.put(word, self.tlb_locked)
    }

    fn unpack(word: u64) -> Self {
        Self {
            mbec_enabled: Self::MBEC_ENABLED.take(word),
            tlb_locked: Self::TLB_LOCKED.take(word),
        }
    }
}

// Where the call and return sequences stand in the hypercall page: HV_REGISTER_VSM_CODE_PAGE_OFFSETS.
#[derive(Clone, Copy)]
pub struct CodePageOffsets {
    pub vtl_call_offset: u64,
    pub vtl_return_offset: u64,
}

impl CodePageOffsets {
    pub const VTL_CALL_OFFSET: FieldPosition = FieldPosition(0, 12);

    pub const VTL_RETURN_OFFSET: FieldPosition = FieldPosition(12, 12);
}

impl RegisterWord for CodePageOffsets {
    ghost layout = { code_page_offsets };

    fn pack(self) -> u64 {
        let word = Self::VTL_CALL_OFFSET.put(0, self.vtl_call_offset);
        Self::VTL_RETURN_OFFSET.put(word, self.vtl_return_offset)
    }

    fn unpack(word: u64) -> Self {
        Self {
            vtl_call_offset: Self::VTL_CALL_OFFSET.take(word),
            vtl_return_offset: Self::VTL_RETURN_OFFSET.take(word),
        }
    }
}

// The table: a row for each used field. One computed comparison with the layouts of specs/RegisterLayouts.antt, in the proof of
// `position_of`, tests all rows, and `row_at` of proofs/RegisterFieldLaws.antt carries it to each.
// A new register (001's VINA word) is its layout in specs/RegisterLayouts.antt, its struct
// above, and its rows here with the row after them. No law and no proof of the functions below changes.
const POSITIONS: [FieldPosition; 43] = [
    Capabilities::DENY_LOWER_VTL_STARTUP,
    Capabilities::MBEC_VTL_MASK,
    Capabilities::DR6_SHARED,
    PartitionStatus::ENABLED_VTL_SET,
    PartitionStatus::MAXIMUM_VTL,
    PartitionStatus::MBEC_ENABLED_VTL_SET,
    VpStatus::ACTIVE_VTL,
    VpStatus::ACTIVE_MBEC_ENABLED,
    VpStatus::ENABLED_VTL_SET,
    PartitionConfig::ENABLE_VTL_PROTECTION,
    PartitionConfig::DEFAULT_VTL_PROTECTION_MASK,
    PartitionConfig::ZERO_MEMORY_ON_RESET,
    PartitionConfig::DENY_LOWER_VTL_STARTUP,
    PartitionConfig::INTERCEPT_VP_STARTUP,
    SecureConfig::MBEC_ENABLED,
    SecureConfig::TLB_LOCKED,
    CodePageOffsets::VTL_CALL_OFFSET,
    CodePageOffsets::VTL_RETURN_OFFSET,
    InterceptControl::CR0_WRITE,
    InterceptControl::CR4_WRITE,
    InterceptControl::XCR0_WRITE,
    InterceptControl::IA32_MISC_ENABLE_READ,
    InterceptControl::IA32_MISC_ENABLE_WRITE,
    InterceptControl::MSR_LSTAR_READ,
    InterceptControl::MSR_LSTAR_WRITE,
    InterceptControl::MSR_STAR_READ,
    InterceptControl::MSR_STAR_WRITE,
    InterceptControl::MSR_CSTAR_READ,
    InterceptControl::MSR_CSTAR_WRITE,
    InterceptControl::APIC_BASE_MSR_READ,
    InterceptControl::APIC_BASE_MSR_WRITE,
    InterceptControl::MSR_EFER_READ,
    InterceptControl::MSR_EFER_WRITE,
    InterceptControl::GDTR_WRITE,
    InterceptControl::IDTR_WRITE,
    InterceptControl::LDTR_WRITE,
    InterceptControl::TR_WRITE,
    InterceptControl::MSR_SYSENTER_CS_WRITE,
    InterceptControl::MSR_SYSENTER_EIP_WRITE,
    InterceptControl::MSR_SYSENTER_ESP_WRITE,
    InterceptControl::MSR_SFMASK_WRITE,
    InterceptControl::MSR_TSC_AUX_WRITE,
    InterceptControl::MSR_SGX_LAUNCH_CONTROL_WRITE,
];

// The row at which each register begins, and the row after the last.
const FIRST_ROWS: [u64; 8] = [0, 3, 6, 9, 14, 16, 18, 43];

const REGISTERS: u64 = 7;

// A field that is not there has no bits: C asks for fields by number, any number.
const NOWHERE: FieldPosition = FieldPosition(0, 0);

// Where a field of a register stands. Registers and their used fields are numbered from 0 in the order of 001.
pub fn position_of(register: u64, field: u64) -> FieldPosition
    ensures { result ≡ position_of register field }
{
    if register >= REGISTERS {
        return NOWHERE;
    }
    let number = register as usize;
    let first = FIRST_ROWS[number];
    if field >= FIRST_ROWS[number + 1] - first {
        return NOWHERE;
    }
    POSITIONS[(first + field) as usize]
}

// The value of a field of a register's word. Any other number of a register or a field gives 0.
pub fn field_of(register: u64, field: u64, word: u64) -> u64
    ensures { result ≡ field_of register field word }
{
    position_of(register, field).take(word)
}

// The word with that field replaced by the low bits of `value`; the other bits stay. Any other number of a register or a field gives
// the word as it is.
pub fn with_field(register: u64, field: u64, word: u64, value: u64) -> u64
    ensures { result ≡ with_field register field word value }
{
    position_of(register, field).put(word, value)
}
