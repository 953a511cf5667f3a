ghost use Rattle.std.specs.Prelude.{◌≡◌, ◌++◌, IfOk, IsOkUnless, IsUtf8, OnOk, codes, string_bytes};
ghost use Rattle.std.specs.List.{flat_map};
ghost use Rattle.minidump_bytes.specs.Piece.{piece_text};
ghost use Rattle.minidump_format.specs.Print.{Prints};
ghost use Rattle.minidump_reason.specs.ReasonText.{linux_general_text, name_with_prefix, mac_general_text, name_text};
ghost use Rattle.minidump_reason.specs.ReasonText.{reason_text, windows_general_text};

use crate::guard::push_guard;
use crate::resource::push_resource;
use crate::{CodeFamily, CodeNames, CrashReason};
use minidump_bytes::{Piece, Told, push_pieces};
use minidump_format::{Error, no_memory, put_text};
use std::alloc::{AllocError, Global};
use std::io::Write;

// The codes with texts of their own: Crashpad's simulated exceptions, Chromium's out of memory, and
// Visual C++'s exceptions.
const MAC_SIMULATED: u32 = 0x4350_7378;

const WINDOWS_OUT_OF_MEMORY: u32 = 0xe000_0008;

const WINDOWS_CPP_EXCEPTION: u32 = 0xe06d_7363;

const WINDOWS_SIMULATED: u32 = 0x0517_a7ed;

impl CrashReason {
    /// Writes the text of the reason, with the names of its codes. A code without a name is written
    /// in hexadecimal. The names may differ from those that the reason was found with.
    ///
    /// Returns [`Error::IoError`] if the writer has failed, and otherwise [`Error::OutOfMemory`] if
    /// an allocation fails.
    pub fn write_to<W: Write>(
        &self,
        alloc: Global,
        names: &CodeNames<'_>,
        f: &mut Told<W>,
    ) -> Result<(), Error>
        ensures prints { Prints W.contents f.old f.new (reason_text names.now self.now) result }
        ensures utf8 { IfOk result (λ _. IsUtf8 (reason_text names.now self.now)) }
    {
        match format_reason(alloc, names, self) {
            Ok(text) => put_text(f, text.as_str()),
            Err(AllocError) => Err(no_memory(f)),
        }
    }

    /// Returns the text that [`CrashReason::write_to`] writes. The only error is
    /// [`Error::OutOfMemory`].
    pub fn text(&self, alloc: Global, names: &CodeNames<'_>) -> Result<String, Error>
        ensures value { IfOk result (λ text. string_bytes text ≡ reason_text names.now self.now) }
        ensures memory { IsOkUnless result Error.OutOfMemory }
    {
        Ok(format_reason(alloc, names, self)?)
    }
}

// Returns the text of a reason.
fn format_reason(
    alloc: Global,
    names: &CodeNames<'_>,
    reason: &CrashReason,
) -> Result<String, AllocError>
    ensures { IfOk result (λ t. string_bytes t ≡ reason_text names.now reason.now) }
{
    let mut text = String::new(alloc);
    push_reason(&mut text, names, reason)?;
    Ok(text)
}

// Appends the text of a reason.
fn push_reason(
    out: &mut String,
    names: &CodeNames<'_>,
    reason: &CrashReason,
) -> Result<(), AllocError>
    ensures { OnOk result (string_bytes out.new ≡ string_bytes out.old
        ++ reason_text names.now reason.now) }
{
    let (prefix, family, code) = match *reason {
        CrashReason::MacGeneral(code, flags) => return push_mac_general(out, names, code, flags),
        CrashReason::MacBadAccessKern(n) => ("EXC_BAD_ACCESS / ", CodeFamily::MacBadAccessKern, n),
        CrashReason::MacBadAccessArm(n) => ("EXC_BAD_ACCESS / ", CodeFamily::MacBadAccessArm, n),
        CrashReason::MacBadAccessPpc(n) => ("EXC_BAD_ACCESS / ", CodeFamily::MacBadAccessPpc, n),
        CrashReason::MacBadAccessX86(n) => ("EXC_BAD_ACCESS / ", CodeFamily::MacBadAccessX86, n),
        CrashReason::MacBadInstructionArm(n) => (
            "EXC_BAD_INSTRUCTION / ",
            CodeFamily::MacBadInstructionArm,
            n,
        ),
        CrashReason::MacBadInstructionPpc(n) => (
            "EXC_BAD_INSTRUCTION / ",
            CodeFamily::MacBadInstructionPpc,
            n,
        ),
        CrashReason::MacBadInstructionX86(n) => (
            "EXC_BAD_INSTRUCTION / ",
            CodeFamily::MacBadInstructionX86,
            n,
        ),
        CrashReason::MacArithmeticArm(n) => ("EXC_ARITHMETIC / ", CodeFamily::MacArithmeticArm, n),
        CrashReason::MacArithmeticPpc(n) => ("EXC_ARITHMETIC / ", CodeFamily::MacArithmeticPpc, n),
        CrashReason::MacArithmeticX86(n) => ("EXC_ARITHMETIC / ", CodeFamily::MacArithmeticX86, n),
        CrashReason::MacSoftware(n) => ("EXC_SOFTWARE / ", CodeFamily::MacSoftware, n),
        CrashReason::MacBreakpointArm(n) => ("EXC_BREAKPOINT / ", CodeFamily::MacBreakpointArm, n),
        CrashReason::MacBreakpointPpc(n) => ("EXC_BREAKPOINT / ", CodeFamily::MacBreakpointPpc, n),
        CrashReason::MacBreakpointX86(n) => ("EXC_BREAKPOINT / ", CodeFamily::MacBreakpointX86, n),
        CrashReason::MacResource(kind, code, subcode) => {
            return push_resource(out, names, kind, code, subcode);
        }
        CrashReason::MacGuard(kind, code, subcode) => {
            return push_guard(out, names, kind, code, subcode);
        }
        CrashReason::LinuxGeneral(signal, flags) => {
            return push_linux_general(out, names, signal, flags);
        }
        CrashReason::LinuxSigill(n) => ("SIGILL / ", CodeFamily::LinuxSigill, n),
        CrashReason::LinuxSigtrap(n) => ("SIGTRAP / ", CodeFamily::LinuxSigtrap, n),
        CrashReason::LinuxSigbus(n) => ("SIGBUS / ", CodeFamily::LinuxSigbus, n),
        CrashReason::LinuxSigfpe(n) => ("SIGFPE / ", CodeFamily::LinuxSigfpe, n),
        CrashReason::LinuxSigsegv(n) => ("SIGSEGV / ", CodeFamily::LinuxSigsegv, n),
        CrashReason::LinuxSigsys(n) => ("SIGSYS / ", CodeFamily::LinuxSigsys, n),
        CrashReason::WindowsGeneral(code) => return push_windows_general(out, names, code),
        CrashReason::WindowsWinError(n) => ("", CodeFamily::WinError, n),
        CrashReason::WindowsWinErrorWithFacility(facility, error) => {
            return push_facility_error(out, names, facility, error);
        }
        CrashReason::WindowsNtStatus(n) => ("", CodeFamily::NtStatus, n),
        CrashReason::WindowsAccessViolation(n) => (
            "EXCEPTION_ACCESS_VIOLATION_",
            CodeFamily::WindowsAccess,
            n,
        ),
        CrashReason::WindowsInPageError(access, status) => {
            return push_in_page_error(out, names, access, status);
        }
        CrashReason::WindowsStackBufferOverrun(n) => {
            let prefix = "EXCEPTION_STACK_BUFFER_OVERRUN / ";
            return push_name(out, names, prefix, CodeFamily::FastFail, n);
        }
        CrashReason::WindowsUnknown(code) => {
            return push_unknown(out, &[Piece::Wide(code as u64, 8)]);
        }
        CrashReason::Unknown(code, flags) => {
            let flags = Piece::Wide(flags as u64, 8);
            return push_unknown(
                out,
                &[Piece::Wide(code as u64, 8), Piece::Words(" / "), flags],
            );
        }
    };
    push_name_32(out, names, prefix, family, code)
}

// Appends a prefix and the name of a code of 32 bits.
fn push_name_32(
    out: &mut String,
    names: &CodeNames<'_>,
    prefix: &str,
    family: CodeFamily,
    code: u32,
) -> Result<(), AllocError>
    ensures { OnOk result (string_bytes out.new ≡ string_bytes out.old
        ++ name_with_prefix names.now prefix.now family code) }
{
    push_name(out, names, prefix, family, code as u64)
}

// Appends a Win32 error with its facility.
fn push_facility_error(
    out: &mut String,
    names: &CodeNames<'_>,
    facility: u32,
    error: u32,
) -> Result<(), AllocError>
    ensures { OnOk result (string_bytes out.new
        ≡ string_bytes out.old
        ++ reason_text names.now (CrashReason.WindowsWinErrorWithFacility facility error)) }
{
    push_name(
        out,
        names,
        "",
        CodeFamily::WinErrorFacility,
        facility as u64,
    )?;
    push_name(out, names, " / ", CodeFamily::WinError, error as u64)
}

// Appends an in-page error with its status.
fn push_in_page_error(
    out: &mut String,
    names: &CodeNames<'_>,
    access: u32,
    status: u64,
) -> Result<(), AllocError>
    ensures { OnOk result (string_bytes out.new
        ≡ string_bytes out.old
        ++ reason_text names.now (CrashReason.WindowsInPageError access status)) }
{
    let prefix = "EXCEPTION_IN_PAGE_ERROR_";
    push_name(
        out,
        names,
        prefix,
        CodeFamily::WindowsInPageError,
        access as u64,
    )?;
    push_name(out, names, " / ", CodeFamily::NtStatus, status)
}

// Appends unknown codes.
fn push_unknown(out: &mut String, values: &[Piece<'_>]) -> Result<(), AllocError>
    ensures { OnOk result (string_bytes out.new ≡ string_bytes out.old
        ++ (codes "unknown " ++ flat_map piece_text values.now)) }
{
    out.push_str("unknown ")?;
    push_pieces(out, values)
}

// Returns the name of a code, or the code itself in at least eight digits.
#[tactic(auto, unfolding(crate::specs::ReasonText::name_text))]
fn name_or_code<'n>(names: &CodeNames<'n>, family: CodeFamily, code: u64) -> Piece<'n>
    ensures { piece_text result ≡ name_text names.now family code }
{
    match names.name(family, code) {
        Some(name) => Piece::Words(name),
        None => Piece::Wide(code, 8),
    }
}

// Appends a prefix and the name of a code.
#[tactic(auto, unfolding(crate::specs::ReasonText::name_with_prefix))]
pub(crate) fn push_name(
    out: &mut String,
    names: &CodeNames<'_>,
    prefix: &str,
    family: CodeFamily,
    code: u64,
) -> Result<(), AllocError>
    ensures { OnOk result (string_bytes out.new ≡ string_bytes out.old
        ++ name_with_prefix names.now prefix.now family code) }
{
    push_pieces(
        out,
        &[Piece::Words(prefix), name_or_code(names, family, code)],
    )
}

// Appends an exception of macOS or iOS.
#[rattlefmt::skip]
#[tactic(auto, unfolding(crate::specs::ReasonText::mac_general_text))]
fn push_mac_general(
    out: &mut String,
    names: &CodeNames<'_>,
    code: u32,
    flags: u32,
) -> Result<(), AllocError>
    ensures { OnOk result (string_bytes out.new ≡ string_bytes out.old
        ++ mac_general_text names.now code flags) }
{
    if code == MAC_SIMULATED {
        return out.push_str("Simulated Exception");
    }
    let name = name_or_code(names, CodeFamily::Mac, code as u64);
    push_pieces(out, &[name, Piece::Words(" / "), Piece::Wide(flags as u64, 8)])
}

// Appends a signal of Linux or Android.
#[rattlefmt::skip]
#[tactic(auto, unfolding(crate::specs::ReasonText::linux_general_text))]
fn push_linux_general(
    out: &mut String,
    names: &CodeNames<'_>,
    signal: u32,
    flags: u32,
) -> Result<(), AllocError>
    ensures { OnOk result (string_bytes out.new ≡ string_bytes out.old
        ++ linux_general_text names.now signal flags) }
{
    let signal = name_or_code(names, CodeFamily::Linux, signal as u64);
    match names.name(CodeFamily::LinuxSicode, flags as u64) {
        Some(_) if flags == 0 => push_pieces(out, &[signal]),
        Some(name) => push_pieces(out, &[signal, Piece::Words(" / "), Piece::Words(name)]),
        None => push_pieces(out, &[signal, Piece::Words(" / "), Piece::Wide(flags as u64, 8)]),
    }
}

// Appends an exception of Windows.
#[tactic(auto, unfolding(crate::specs::ReasonText::windows_general_text))]
fn push_windows_general(
    out: &mut String,
    names: &CodeNames<'_>,
    code: u32,
) -> Result<(), AllocError>
    ensures { OnOk result (string_bytes out.new ≡ string_bytes out.old
        ++ windows_general_text names.now code) }
{
    match code {
        WINDOWS_OUT_OF_MEMORY => out.push_str("Out of Memory"),
        WINDOWS_CPP_EXCEPTION => out.push_str("Unhandled C++ Exception"),
        WINDOWS_SIMULATED => out.push_str("Simulated Exception"),
        _ => push_pieces(
            out,
            &[name_or_code(names, CodeFamily::Windows, code as u64)],
        ),
    }
}
