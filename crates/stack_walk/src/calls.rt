ghost use Rattle.std.specs.Prelude.{◌≡◌};
ghost use Rattle.std.specs.Option.{option_copied};
ghost use Rattle.minidump.specs.Below.MemoryLists.Unified.{unified_list};
ghost use Rattle.stack_walk.specs.Lookups.{bytes_until, calls_by, ends_arm64_call, ends_x86_call};
ghost use Rattle.stack_walk.specs.Lookups.{may_end_call, operand_length};

use minidump::UnifiedMemoryList;
use minidump::system_info::Cpu;

// Tells whether a call may end with the byte at an address. On x86, x86-64 and ARM64 the dump's
// memory decides it; where that lacks the bytes, and on any other processor, one may.
pub(crate) fn may_end_call(cpu: Cpu, memory: &UnifiedMemoryList<'_>, address: u64) -> bool
    ensures { result ≡ may_end_call cpu (unified_list memory.now) address }
{
    match (cpu, bytes_until(memory, address)) {
        (Cpu::X86 | Cpu::X86_64, Some(bytes)) => ends_x86_call(bytes),
        (Cpu::Arm64, Some(bytes)) => ends_arm64_call(bytes),
        _ => true,
    }
}

// Returns the seven bytes of which the last is at an address, or `None` if no region of the dump's
// memory contains the address, or the one that does lacks one of them.
fn bytes_until<'l>(memory: &'l UnifiedMemoryList<'_>, address: u64) -> Option<&'l [u8]>
    ensures { option_copied result ≡ bytes_until (unified_list memory.now) address }
{
    let region = memory.memory_at_address(address)?;
    let bytes = region.bytes();
    let offset = address.checked_sub(region.base_address())?;
    if offset >= 6 && offset < bytes.len() as u64 {
        let last = offset as usize;
        Some(&bytes[last - 6..last + 1])
    } else {
        None
    }
}

// Tells whether bytes end with a call of x86 or x86-64.
#[tactic(auto, unfolding(crate::specs::Lookups::ends_x86_call))]
fn ends_x86_call(bytes: &[u8]) -> bool
    ensures { result ≡ ends_x86_call bytes.now }
{
    match bytes {
        [b7, b6, b5, b4, b3, b2, b1] => {
            *b5 == 0xe8
                || calls_by(1, *b2, *b1, 0)
                || calls_by(2, *b3, *b2, *b1)
                || calls_by(3, *b4, *b3, *b2)
                || calls_by(5, *b6, *b5, *b4)
                || calls_by(6, *b7, *b6, *b5)
                || *b7 == 0x9a
        }
        _ => false,
    }
}

// Tells whether a byte and an operand of `length` bytes are a call by register or memory, FF /2.
// The operand is given by its first two bytes.
#[tactic(auto, unfolding(crate::specs::Lookups::calls_by))]
fn calls_by(length: u8, first: u8, modrm: u8, sib: u8) -> bool
    ensures { result ≡ calls_by length first modrm sib }
{
    first == 0xff && modrm / 8 % 8 == 2 && operand_length(modrm / 64, modrm % 8, sib % 8) == length
}

// Returns how many bytes an operand has, by the mode and the register of its ModR/M byte, and the
// base of its SIB byte.
#[tactic(auto, unfolding(crate::specs::Lookups::operand_length))]
fn operand_length(mode: u8, register: u8, base: u8) -> u8
    ensures { result ≡ operand_length mode register base }
{
    match (mode, register) {
        (3, _) => 1,
        (1, 4) => 3,
        (2, 4) => 6,
        (_, 4) if base == 5 => 6,
        (_, 4) => 2,
        (1, _) => 2,
        (2, _) | (_, 5) => 5,
        _ => 1,
    }
}

// Tells whether bytes end with a call of ARM64.
#[tactic(auto, unfolding(crate::specs::Lookups::ends_arm64_call))]
fn ends_arm64_call(bytes: &[u8]) -> bool
    ensures { result ≡ ends_arm64_call bytes.now }
{
    match bytes {
        [_, _, _, _, b3, b2, b1] => {
            *b1 / 4 == 37 || ((*b1 == 214 || *b1 == 215) && *b2 == 63 && *b3 < 16)
        }
        _ => false,
    }
}
