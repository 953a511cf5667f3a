ghost use Rattle.std.specs.Prelude.{◌≡◌};
ghost use Rattle.std.specs.Str.{bytes_eq};
ghost use Rattle.minidump_names.specs.NameLine.{family_in, family_name};

use minidump_reason::CodeFamily;

/// Every family, in the order of [`CodeFamily`].
pub(crate) const FAMILIES: [CodeFamily; 42] = [
    CodeFamily::Mac,
    CodeFamily::MacBadAccessKern,
    CodeFamily::MacBadAccessArm,
    CodeFamily::MacBadAccessPpc,
    CodeFamily::MacBadAccessX86,
    CodeFamily::MacBadInstructionArm,
    CodeFamily::MacBadInstructionPpc,
    CodeFamily::MacBadInstructionX86,
    CodeFamily::MacArithmeticArm,
    CodeFamily::MacArithmeticPpc,
    CodeFamily::MacArithmeticX86,
    CodeFamily::MacBreakpointArm,
    CodeFamily::MacBreakpointPpc,
    CodeFamily::MacBreakpointX86,
    CodeFamily::MacSoftware,
    CodeFamily::MacResource,
    CodeFamily::MacResourceCpu,
    CodeFamily::MacResourceWakeups,
    CodeFamily::MacResourceMemory,
    CodeFamily::MacResourceIo,
    CodeFamily::MacResourceThreads,
    CodeFamily::MacGuard,
    CodeFamily::MacGuardMachPort,
    CodeFamily::MacGuardFd,
    CodeFamily::MacGuardVn,
    CodeFamily::MacGuardVirtMemory,
    CodeFamily::MacGuardRejectedSysCall,
    CodeFamily::Linux,
    CodeFamily::LinuxSicode,
    CodeFamily::LinuxSigill,
    CodeFamily::LinuxSigtrap,
    CodeFamily::LinuxSigbus,
    CodeFamily::LinuxSigfpe,
    CodeFamily::LinuxSigsegv,
    CodeFamily::LinuxSigsys,
    CodeFamily::Windows,
    CodeFamily::WinError,
    CodeFamily::WinErrorFacility,
    CodeFamily::NtStatus,
    CodeFamily::FastFail,
    CodeFamily::WindowsAccess,
    CodeFamily::WindowsInPageError,
];

/// Returns the name of a family in a line: that of its variant.
pub fn family_name(family: CodeFamily) -> &'static str
    ensures { result.now ≡ family_name family }
{
    match family {
        CodeFamily::Mac => "Mac",
        CodeFamily::MacBadAccessKern => "MacBadAccessKern",
        CodeFamily::MacBadAccessArm => "MacBadAccessArm",
        CodeFamily::MacBadAccessPpc => "MacBadAccessPpc",
        CodeFamily::MacBadAccessX86 => "MacBadAccessX86",
        CodeFamily::MacBadInstructionArm => "MacBadInstructionArm",
        CodeFamily::MacBadInstructionPpc => "MacBadInstructionPpc",
        CodeFamily::MacBadInstructionX86 => "MacBadInstructionX86",
        CodeFamily::MacArithmeticArm => "MacArithmeticArm",
        CodeFamily::MacArithmeticPpc => "MacArithmeticPpc",
        CodeFamily::MacArithmeticX86 => "MacArithmeticX86",
        CodeFamily::MacBreakpointArm => "MacBreakpointArm",
        CodeFamily::MacBreakpointPpc => "MacBreakpointPpc",
        CodeFamily::MacBreakpointX86 => "MacBreakpointX86",
        CodeFamily::MacSoftware => "MacSoftware",
        CodeFamily::MacResource => "MacResource",
        CodeFamily::MacResourceCpu => "MacResourceCpu",
        CodeFamily::MacResourceWakeups => "MacResourceWakeups",
        CodeFamily::MacResourceMemory => "MacResourceMemory",
        CodeFamily::MacResourceIo => "MacResourceIo",
        CodeFamily::MacResourceThreads => "MacResourceThreads",
        CodeFamily::MacGuard => "MacGuard",
        CodeFamily::MacGuardMachPort => "MacGuardMachPort",
        CodeFamily::MacGuardFd => "MacGuardFd",
        CodeFamily::MacGuardVn => "MacGuardVn",
        CodeFamily::MacGuardVirtMemory => "MacGuardVirtMemory",
        CodeFamily::MacGuardRejectedSysCall => "MacGuardRejectedSysCall",
        CodeFamily::Linux => "Linux",
        CodeFamily::LinuxSicode => "LinuxSicode",
        CodeFamily::LinuxSigill => "LinuxSigill",
        CodeFamily::LinuxSigtrap => "LinuxSigtrap",
        CodeFamily::LinuxSigbus => "LinuxSigbus",
        CodeFamily::LinuxSigfpe => "LinuxSigfpe",
        CodeFamily::LinuxSigsegv => "LinuxSigsegv",
        CodeFamily::LinuxSigsys => "LinuxSigsys",
        CodeFamily::Windows => "Windows",
        CodeFamily::WinError => "WinError",
        CodeFamily::WinErrorFacility => "WinErrorFacility",
        CodeFamily::NtStatus => "NtStatus",
        CodeFamily::FastFail => "FastFail",
        CodeFamily::WindowsAccess => "WindowsAccess",
        CodeFamily::WindowsInPageError => "WindowsInPageError",
    }
}

// Tests whether a text is the name of a family.
fn is_family_name(text: &[u8], family: CodeFamily) -> bool
    ensures { result ≡ bytes_eq text.now (family_name family) }
{
    text == family_name(family).as_bytes()
}

// Returns the family of a name, or `None` if no family has it.
pub(crate) fn family_in(text: &[u8]) -> Option<CodeFamily>
    ensures { result ≡ family_in text.now }
{
    for family in FAMILIES {
        if is_family_name(text, family) {
            return Some(family);
        }
    }
    None
}
