ghost use Rattle.std.specs.Prelude.{◌≡◌, Some};
ghost use Rattle.minidump_reason.specs.Reason.{windows_code, windows_error, windows_error_with_facility};
ghost use Rattle.minidump_reason.specs.Reason.{windows_reason};

use crate::bits::bits_of;
use crate::{CodeFamily, CodeNames, CrashReason};
use minidump_format::format::MINIDUMP_EXCEPTION_STREAM;
use minidump_system::Cpu;

const EXCEPTION_ACCESS_VIOLATION: u32 = 0xc000_0005;

const EXCEPTION_IN_PAGE_ERROR: u32 = 0xc000_0006;

const STATUS_STACK_BUFFER_OVERRUN: u32 = 0xc000_0409;

// The bits of an error code that tell its severity and its owner.
const SEVERITY_MASK: u32 = 0xf000_0000;

impl CrashReason {
    /// Returns the reason for an exception code of Windows: an exception, or an error as
    /// [`CrashReason::from_windows_error`] returns it.
    pub fn from_windows_code(exception_code: u32, names: &CodeNames<'_>) -> CrashReason
        ensures { result ≡ windows_code names.now exception_code }
    {
        if names.has(CodeFamily::Windows, exception_code) {
            CrashReason::WindowsGeneral(exception_code)
        } else {
            CrashReason::from_windows_error(exception_code, names)
        }
    }

    /// Returns the reason for an error code of Windows: a Win32 error, else an NTSTATUS value, else
    /// an error with its facility, else an unknown code.
    pub fn from_windows_error(error_code: u32, names: &CodeNames<'_>) -> CrashReason
        ensures { result ≡ windows_error names.now error_code }
    {
        if names.has(CodeFamily::WinError, error_code) {
            CrashReason::WindowsWinError(error_code)
        } else if names.has(CodeFamily::NtStatus, error_code) {
            CrashReason::WindowsNtStatus(error_code)
        } else {
            CrashReason::from_windows_error_with_facility(error_code, names).unwrap_or(
                CrashReason::WindowsUnknown(error_code),
            )
        }
    }

    /// Returns the reason for an error code of Windows that holds a facility and a Win32 error, as
    /// an HRESULT does. Returns `None` if either is unlisted, or if the four highest bits are 0.
    pub fn from_windows_error_with_facility(
        error_code: u32,
        names: &CodeNames<'_>,
    ) -> Option<CrashReason>
        ensures { result ≡ windows_error_with_facility names.now error_code }
    {
        let facility = bits_of(error_code as u64, 16, 12) as u32;
        let error = bits_of(error_code as u64, 0, 16) as u32;
        if error_code & SEVERITY_MASK != 0
            && names.has(CodeFamily::WinErrorFacility, facility)
            && names.has(CodeFamily::WinError, error)
        {
            Some(CrashReason::WindowsWinErrorWithFacility(facility, error))
        } else {
            None
        }
    }

    /// Returns the reason for an exception on Windows. It is that of the code, with the parameters
    /// of access violations, in-page errors and fast fails. It is never `None`.
    pub fn from_windows_exception(
        raw: &MINIDUMP_EXCEPTION_STREAM,
        _cpu: Cpu,
        names: &CodeNames<'_>,
    ) -> Option<CrashReason>
        ensures { result ≡ Some (windows_reason names.now raw.now.exception_record) }
    {
        let record = &raw.exception_record;
        let count = record.number_parameters;
        let first = record.exception_information[0];
        let reason = CrashReason::from_windows_code(record.exception_code, names);
        Some(match reason {
            CrashReason::WindowsGeneral(EXCEPTION_ACCESS_VIOLATION) if count >= 1 => {
                match names.find_code(CodeFamily::WindowsAccess, first) {
                    Some(access) => CrashReason::WindowsAccessViolation(access),
                    None => reason,
                }
            }
            CrashReason::WindowsGeneral(EXCEPTION_IN_PAGE_ERROR) if count >= 3 => {
                let status = record.exception_information[2] % (1 << 32);
                match names.find_code(CodeFamily::WindowsInPageError, first) {
                    Some(access) => CrashReason::WindowsInPageError(access, status),
                    None => reason,
                }
            }
            CrashReason::WindowsNtStatus(STATUS_STACK_BUFFER_OVERRUN) if count >= 1 => {
                CrashReason::WindowsStackBufferOverrun(first % (1 << 32))
            }
            _ => reason,
        })
    }
}
