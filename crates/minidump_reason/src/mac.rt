ghost use Rattle.std.specs.Prelude.{◌≡◌, slice_index};
ghost use Rattle.minidump_reason.specs.Reason.{by_processor, mac_reason, mac_exception_reason};

use crate::bits::bits_of;
use crate::{CodeFamily, CodeNames, CrashReason};
use minidump_format::format::{MINIDUMP_EXCEPTION, MINIDUMP_EXCEPTION_STREAM};
use minidump_system::Cpu;

const EXC_BAD_ACCESS: u32 = 1;

const EXC_BAD_INSTRUCTION: u32 = 2;

const EXC_ARITHMETIC: u32 = 3;

const EXC_SOFTWARE: u32 = 5;

const EXC_BREAKPOINT: u32 = 6;

const EXC_RESOURCE: u32 = 11;

const EXC_GUARD: u32 = 12;

impl CrashReason {
    /// Returns the reason for an exception on macOS or iOS, or `None` if its code is unlisted.
    pub fn from_mac_exception(
        raw: &MINIDUMP_EXCEPTION_STREAM,
        cpu: Cpu,
        names: &CodeNames<'_>,
    ) -> Option<CrashReason>
        ensures { result ≡ mac_reason names.now cpu raw.now.exception_record }
    {
        let record = &raw.exception_record;
        if !names.has(CodeFamily::Mac, record.exception_code) {
            return None;
        }
        Some(exception_reason(record, cpu, names))
    }
}

// Returns the reason for an exception with a listed code.
#[rattlefmt::skip]
fn exception_reason(raw: &MINIDUMP_EXCEPTION, cpu: Cpu, names: &CodeNames<'_>) -> CrashReason
    ensures { result
        ≡ mac_exception_reason names.now cpu raw.now.exception_code raw.now.exception_flags
        (slice_index raw.now.exception_information 1)
        (slice_index raw.now.exception_information 2) }
{
    let flags = raw.exception_flags;
    let general = CrashReason::MacGeneral(raw.exception_code, flags);
    let kind = bits_of(flags as u64, 29, 3) as u32;
    let code = raw.exception_information[1];
    let subcode = raw.exception_information[2];
    match raw.exception_code {
        EXC_BAD_ACCESS if names.has(CodeFamily::MacBadAccessKern, flags) => {
            CrashReason::MacBadAccessKern(flags)
        }
        EXC_BAD_ACCESS => by_processor(general, flags, cpu, names,
            (CodeFamily::MacBadAccessArm, CrashReason::MacBadAccessArm(flags)),
            (CodeFamily::MacBadAccessPpc, CrashReason::MacBadAccessPpc(flags)),
            (CodeFamily::MacBadAccessX86, CrashReason::MacBadAccessX86(flags))),
        EXC_BAD_INSTRUCTION => by_processor(general, flags, cpu, names,
            (CodeFamily::MacBadInstructionArm, CrashReason::MacBadInstructionArm(flags)),
            (CodeFamily::MacBadInstructionPpc, CrashReason::MacBadInstructionPpc(flags)),
            (CodeFamily::MacBadInstructionX86, CrashReason::MacBadInstructionX86(flags))),
        EXC_ARITHMETIC => by_processor(general, flags, cpu, names,
            (CodeFamily::MacArithmeticArm, CrashReason::MacArithmeticArm(flags)),
            (CodeFamily::MacArithmeticPpc, CrashReason::MacArithmeticPpc(flags)),
            (CodeFamily::MacArithmeticX86, CrashReason::MacArithmeticX86(flags))),
        EXC_BREAKPOINT => by_processor(general, flags, cpu, names,
            (CodeFamily::MacBreakpointArm, CrashReason::MacBreakpointArm(flags)),
            (CodeFamily::MacBreakpointPpc, CrashReason::MacBreakpointPpc(flags)),
            (CodeFamily::MacBreakpointX86, CrashReason::MacBreakpointX86(flags))),
        EXC_SOFTWARE if names.has(CodeFamily::MacSoftware, flags) => {
            CrashReason::MacSoftware(flags)
        }
        EXC_RESOURCE if names.has(CodeFamily::MacResource, kind) => {
            CrashReason::MacResource(kind, code, subcode)
        }
        EXC_GUARD if names.has(CodeFamily::MacGuard, kind) => {
            CrashReason::MacGuard(kind, code, subcode)
        }
        _ => general,
    }
}

// Returns the reason of the processor's own family, if its list has the flags, or the general one.
fn by_processor(
    general: CrashReason,
    flags: u32,
    cpu: Cpu,
    names: &CodeNames<'_>,
    arm: (CodeFamily, CrashReason),
    ppc: (CodeFamily, CrashReason),
    x86: (CodeFamily, CrashReason),
) -> CrashReason
    ensures { result ≡ by_processor names.now cpu flags arm ppc x86 general }
{
    let (family, reason) = match cpu {
        Cpu::Arm64 => arm,
        Cpu::Ppc => ppc,
        Cpu::X86 | Cpu::X86_64 => x86,
        _ => return general,
    };
    if names.has(family, flags) {
        reason
    } else {
        general
    }
}
