ghost use Rattle.std.specs.Prelude.{◌≡◌, ◌+◌, IfSome, map};
ghost use Rattle.minidump.specs.Below.Index.Digits.{digits};
ghost use Rattle.minidump.specs.Below.Modules.Module.{module_of};
ghost use Rattle.minidump.specs.Below.Modules.ModuleList.{module_list_of};
ghost use Rattle.stack_walk.specs.Addresses.{address_after, code_bits, is_address, last_code};
ghost use Rattle.stack_walk.specs.Addresses.{last_of_module, least_bits, unmarked};

use minidump::system_info::{Cpu, Os, PointerWidth};
use minidump::{MinidumpModule, MinidumpModuleList, Region};

/// Returns how many of the low bits of a return address are its address.
///
/// ARM64 may sign a return address, by bits above those of any address of the process. There the
/// result is the number of bits of the last address of all modules, but at least 47 on Windows and
/// macOS, 39 on iOS, and 36 on any other system, the fewest that Linux has. A module whose last
/// address is 2^52 or higher is passed over: no system gives a process such an address today. For
/// any other processor, which signs none, the result is 64.
pub fn code_bits(os: Os, cpu: Cpu, modules: &MinidumpModuleList) -> u32
    ensures { result ≡ code_bits os cpu (module_list_of modules.now) }
{
    match cpu {
        Cpu::Arm64 => digits_of(last_code(modules.as_slice())).max(least_bits(os)),
        _ => 64,
    }
}

// Returns how many bits an address has in the smallest address space of a system on ARM64.
fn least_bits(os: Os) -> u32
    ensures { result ≡ least_bits os }
{
    match os {
        Os::Windows | Os::MacOs => 47,
        Os::Ios => 39,
        _ => 36,
    }
}

// Returns how many binary digits a number has.
#[tactic(auto, using(crate::proofs::AddressLemmas::digits_left))]
fn digits_of(number: u64) -> u32
    ensures { result ≡ digits number }
{
    minidump::laws::digits_lie_between_powers_of_two();
    64 - number.leading_zeros()
}

// Returns the last address of all modules, or 0 if none has one.
fn last_code(modules: &[MinidumpModule]) -> u64
    ensures { result ≡ last_code (map module_of modules.now) }
{
    let mut last = 0;
    for next in modules {
        last = last_of_module(next).max(last);
    }
    last
}

// Returns the last address of a module, or 0 if it has none, or one of 2^52 or higher.
fn last_of_module(of: &MinidumpModule) -> u64
    ensures { result ≡ last_of_module (module_of of.now) }
{
    match of.memory_range() {
        Some(range) if range.end < 1 << 52 => range.end,
        _ => 0,
    }
}

/// Tells whether a number is an address of a width: any number is, but where an address has 32 bits
/// only one below 2^32.
pub fn is_address(width: PointerWidth, number: u64) -> bool
    ensures { result ≡ is_address width number }
{
    match width {
        PointerWidth::Bits32 => number < 1 << 32,
        PointerWidth::Bits64 | PointerWidth::Unknown => true,
    }
}

// Returns a frame pointer without the mark of Swift: bit 60, if it is the only one of the four
// highest that is set.
pub(crate) fn unmarked(word: u64) -> u64
    ensures { result ≡ unmarked word }
{
    if word / (1 << 60) == 1 {
        word % (1 << 60)
    } else {
        word
    }
}

// Returns the address `size` bytes after another, or `None` if no address of this width lies there.
#[tactic(auto, unfolding(crate::specs::Addresses::address_after))]
pub(crate) fn address_after(width: PointerWidth, address: u64, size: u64) -> Option<u64>
    ensures answer { result ≡ address_after width address size }
    ensures sum { IfSome result (λ after. after ≡ address + size) }
{
    let after = address.checked_add(size)?;
    is_address(width, after).then_some(after)
}
