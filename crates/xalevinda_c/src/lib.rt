// The library for other programs, exported under the names of C. Each function calls that of crates/xalevinda which has its name, and
// promises the same. include/xalevinda.h declares them for C and C++, examples/rust/xalevinda.rs for Rust.
#![tactic(auto)]

ghost use Rattle.std.specs.Prelude.{◌≡◌};
ghost use Rattle.decimal.specs.Write.{with_text};
ghost use Rattle.inquiry.specs.Inquiry.{explained};
ghost use Rattle.listing.specs.Listing.{listing};
ghost use Rattle.lockstep.specs.Lockstep.{opened, shown_after, stepped};
ghost use Rattle.lockstep.specs.MachineWords.{state_in};
ghost use Rattle.passing.specs.Passing.{resumed, saved};
ghost use Rattle.reason.specs.ReasonedListing.{reasoned};
ghost use Rattle.word.specs.RegisterFields.{field_of, with_field};
ghost use Rattle.xalevinda.specs.Exports.{size_of};

// The listing of a whole script.
#[unsafe(no_mangle)]
pub extern "C" fn xalevinda_listing(script: &[u8], out: &mut [u8]) -> usize
    ensures size { result ≡ size_of (listing script.now) }
    ensures out { out.new ≡ with_text out.old 0 (listing script.now) }
{
    xalevinda::xalevinda_listing(script, out)
}

// The records of the state after a script.
#[unsafe(no_mangle)]
pub extern "C" fn xalevinda_save(script: &[u8], out: &mut [u8]) -> usize
    ensures size { result ≡ size_of (saved script.now) }
    ensures out { out.new ≡ with_text out.old 0 (saved script.now) }
{
    xalevinda::xalevinda_save(script, out)
}

// The listing of records and the script that follows them.
#[unsafe(no_mangle)]
pub extern "C" fn xalevinda_resume(input: &[u8], out: &mut [u8]) -> usize
    ensures size { result ≡ size_of (resumed input.now) }
    ensures out { out.new ≡ with_text out.old 0 (resumed input.now) }
{
    xalevinda::xalevinda_resume(input, out)
}

// Why an access is allowed or denied.
#[unsafe(no_mangle)]
pub extern "C" fn xalevinda_explain(input: &[u8], out: &mut [u8]) -> usize
    ensures size { result ≡ size_of (explained input.now) }
    ensures out { out.new ≡ with_text out.old 0 (explained input.now) }
{
    xalevinda::xalevinda_explain(input, out)
}

// The listing of a whole script with the reason for every answer.
#[unsafe(no_mangle)]
pub extern "C" fn xalevinda_why(script: &[u8], out: &mut [u8]) -> usize
    ensures size { result ≡ size_of (reasoned script.now) }
    ensures out { out.new ≡ with_text out.old 0 (reasoned script.now) }
{
    xalevinda::xalevinda_why(script, out)
}

// Lockstep: the fresh machine of a first line, in words.
#[unsafe(no_mangle)]
pub extern "C" fn xalevinda_open(line: &[u8], machine: &mut [u64]) -> u64
    ensures reason { result ≡ (opened line.now machine.old).reason }
    ensures words { machine.new ≡ (opened line.now machine.old).words }
    ensures state { state_in machine.new ≡ (opened line.now machine.old).state }
{
    xalevinda::xalevinda_open(line, machine)
}

// Lockstep: the answer to one line on the words of a machine.
#[unsafe(no_mangle)]
pub extern "C" fn xalevinda_step(machine: &mut [u64], line: &[u8], shown: &mut [u64]) -> u64
    ensures answer { result
        ≡ (stepped machine.old line.now shown.old).reply.answer }
    ensures words { machine.new
        ≡ (stepped machine.old line.now shown.old).words }
    ensures state { state_in machine.new
        ≡ (stepped machine.old line.now shown.old).state }
    ensures shown { shown.new
        ≡ shown_after machine.old line.now shown.old }
{
    xalevinda::xalevinda_step(machine, line, shown)
}

// The value of a field of a register's word.
#[unsafe(no_mangle)]
pub extern "C" fn xalevinda_field(register: u64, field: u64, word: u64) -> u64
    ensures { result ≡ field_of register field word }
{
    xalevinda::xalevinda_field(register, field, word)
}

// The word with that field replaced.
#[unsafe(no_mangle)]
pub extern "C" fn xalevinda_with_field(register: u64, field: u64, word: u64, value: u64) -> u64
    ensures { result ≡ with_field register field word value }
{
    xalevinda::xalevinda_with_field(register, field, word, value)
}
