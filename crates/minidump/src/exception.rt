ghost use Rattle.std.specs.Prelude.{◌≡◌, ◌++◌, OnOk, IfSome};
ghost use Rattle.std.specs.List.{enumerate_from, flat_map};
ghost use Rattle.std.specs.Option.{option_copied, option_map};
ghost use Rattle.minidump_context.specs.declared.validity.MinidumpContextValidity.TheVariants.{All};
ghost use Rattle.minidump_reason.specs.Reason.{crash_reason};
ghost use Rattle.minidump_format.specs.Print.{Prints};
ghost use Rattle.minidump_system.specs.SystemInfo.{system_info_of};
ghost use Rattle.minidump.specs.Exception.{crash_address, exception_context_text, exception_head, exception_stream};
ghost use Rattle.minidump.specs.Exception.{exception_text, location_lines, parameter_line, parameter_lines};
ghost use Rattle.minidump.specs.Thread.{accepted_context};

use crate::thread::{accepted_context, known_context};
use minidump_bytes::{Endian, Piece, Source, Steps, Told, push_pieces};
use minidump_context::MinidumpContext;
use minidump_format::format::{
    MINIDUMP_EXCEPTION, MINIDUMP_EXCEPTION_STREAM, MINIDUMP_LOCATION_DESCRIPTOR,
};
use minidump_format::{Error, Pushed, print_item, push_line_end};
use minidump_reason::{CodeNames, CrashReason};
use minidump_system::{
    Cpu, MinidumpMiscInfo, MinidumpStream, MinidumpSystemInfo, Os, PointerWidth,
};
use std::alloc::{AllocError, Global};
use std::io::Write;

const EXCEPTION_ACCESS_VIOLATION: u32 = 0xc000_0005;

const EXCEPTION_IN_PAGE_ERROR: u32 = 0xc000_0006;

/// The exception that ended a process, with the bytes of its thread's context as they lie in the
/// file.
#[derive(Drop)]
pub struct MinidumpException<'a> {
    /// The record in the stream.
    pub raw: MINIDUMP_EXCEPTION_STREAM,
    /// The id of the thread on which the exception happened.
    pub thread_id: u32,
    context: Option<&'a [u8]>,
    endian: Endian,
}

impl<'a> MinidumpException<'a> {
    /// Returns the bytes of the context as they lie in the file, or `None` if they are not in it.
    pub fn context_bytes(&self) -> Option<&'a [u8]>
        ensures { option_copied result ≡ (exception_stream.value self.now).context }
    {
        self.context
    }

    /// Returns the byte order of the dump, which is that of the context too.
    pub fn endian(&self) -> Endian
        ensures { result ≡ (exception_stream.value self.now).order }
    {
        self.endian
    }

    /// Decodes the registers of the thread at the exception. Prefer this context to that of
    /// [`MinidumpThread::context`](crate::MinidumpThread::context), which has the registers when
    /// the dump was written, often within the handler of the exception.
    ///
    /// Returns `None` if the bytes of the context are not in the file, or [`MinidumpContext::read`]
    /// returns an error for them. `misc` is not used. Takes no memory.
    pub fn context(
        &self,
        system_info: &MinidumpSystemInfo,
        misc: Option<&MinidumpMiscInfo>,
    ) -> Option<MinidumpContext>
        ensures raw { option_map (λ c. c.raw) result
            ≡ accepted_context system_info.now.raw.processor_architecture
            (exception_stream.value self.now).order (exception_stream.value self.now).context }
        ensures valid { IfSome result (λ c. c.valid ≡ All) }
    {
        accepted_context(self.context, self.endian, system_info, misc)
    }

    /// Returns the address of the crash. For an access violation or an in-page error of Windows
    /// with two parameters or more it is the second parameter, the address that was accessed; else
    /// it is the address at which the exception happened. Of either it is the low 32 bits on a
    /// 32-bit processor, since some writers extend the sign.
    pub fn get_crash_address(&self, os: Os, cpu: Cpu) -> u64
        ensures { result ≡ crash_address os cpu self.now.raw.exception_record }
    {
        let record = &self.raw.exception_record;
        let accesses = record.exception_code == EXCEPTION_ACCESS_VIOLATION
            || record.exception_code == EXCEPTION_IN_PAGE_ERROR;
        let address = match os {
            Os::Windows if accesses && record.number_parameters >= 2 => {
                record.exception_information[1]
            }
            _ => record.exception_address,
        };
        match cpu.pointer_width() {
            PointerWidth::Bits32 => address % 0x1_0000_0000,
            _ => address,
        }
    }

    /// Returns the reason of the crash, as [`CrashReason::from_exception`] does. Takes no memory.
    pub fn get_crash_reason(&self, os: Os, cpu: Cpu, names: &CodeNames<'_>) -> CrashReason
        ensures { result ≡ crash_reason names.now os cpu self.now.raw.exception_record }
    {
        CrashReason::from_exception(&self.raw, os, cpu, names)
    }

    /// Returns the id of the thread on which the exception happened.
    pub fn get_crashing_thread_id(&self) -> u32
        ensures { result ≡ self.now.thread_id }
    {
        self.thread_id
    }

    /// Prints the record, and the context, if `system` has an architecture by which it can be
    /// decoded. Of the parameters it prints as many as `number_parameters` says, but at most the 15
    /// that there are. `misc` is not used.
    pub fn print<W: Write>(
        &self,
        alloc: Global,
        f: &mut Told<W>,
        system: Option<&MinidumpSystemInfo>,
        misc: Option<&MinidumpMiscInfo>,
    ) -> Result<(), Error>
        ensures { Prints W.contents f.old f.new
            (exception_text (option_map system_info_of (option_copied system.entry))
            (exception_stream.value self.now)) result }
    {
        let text = ExceptionText {
            exception: self,
            context: known_context(self.context, self.endian, system, misc),
        };
        print_item(&text, alloc, f)
    }
}

// An exception and its context.
#[derive(Drop)]
struct ExceptionText<'a, 'mdmp> {
    exception: &'a MinidumpException<'mdmp>,
    context: Option<MinidumpContext>,
}

impl<'a, 'mdmp> Pushed for ExceptionText<'a, 'mdmp> {
    ghost use Rattle.std.specs.Option.{option_map};
    ghost use Rattle.minidump.specs.Exception.{exception_of, exception_with};

    ghost text = { λ t. exception_with (exception_of t.exception.now)
        (option_map (λ c. c.raw) t.context) };

    fn push(&self, out: &mut Vec<u8>) -> Result<(), AllocError> {
        let exception = self.exception;
        push_head(out, exception.thread_id, &exception.raw.exception_record)?;
        push_parameters(out, &exception.raw.exception_record)?;
        push_location(out, &exception.raw.thread_context)?;
        push_context(out, &self.context)
    }
}

#[rattlefmt::skip]
#[tactic(auto, unfolding(crate::specs::Exception::exception_head))]
fn push_head(out: &mut Vec<u8>, thread_id: u32, r: &MINIDUMP_EXCEPTION) -> Result<(), AllocError>
    ensures { OnOk result (out.new.items ≡ out.old.items ++ exception_head thread_id r.now) }
{
    push_pieces(out, &[
        Piece::Words("MINIDUMP_EXCEPTION\n"),
        Piece::Words("  thread_id                                  = "), Piece::Hex(thread_id as u64), Piece::Words("\n"),
        Piece::Words("  exception_record.exception_code            = "), Piece::Hex(r.exception_code as u64), Piece::Words("\n"),
        Piece::Words("  exception_record.exception_flags           = "), Piece::Hex(r.exception_flags as u64), Piece::Words("\n"),
        Piece::Words("  exception_record.exception_record          = "), Piece::Hex(r.exception_record), Piece::Words("\n"),
        Piece::Words("  exception_record.exception_address         = "), Piece::Hex(r.exception_address), Piece::Words("\n"),
        Piece::Words("  exception_record.number_parameters         = "), Piece::Decimal(r.number_parameters as u64), Piece::Words("\n"),
    ])
}

#[tactic(auto, unfolding(crate::specs::Exception::parameter_lines))]
fn push_parameters(out: &mut Vec<u8>, r: &MINIDUMP_EXCEPTION) -> Result<(), AllocError>
    ensures { OnOk result (out.new.items ≡ out.old.items ++ parameter_lines r.now) }
{
    let count = r.number_parameters.min(15) as usize;
    push_each_parameter(out, &r.exception_information[..count])
}

fn push_each_parameter(out: &mut Vec<u8>, parameters: &[u64]) -> Result<(), AllocError>
    ensures { OnOk result (out.new.items ≡ out.old.items
        ++ flat_map (λ p. parameter_line p.0 p.1) (enumerate_from 0 parameters.now)) }
{
    for index in 0..parameters.len() {
        push_parameter(out, index, parameters[index])?;
    }
    Ok(())
}

#[rattlefmt::skip]
#[tactic(auto, unfolding(crate::specs::Exception::parameter_line))]
fn push_parameter(out: &mut Vec<u8>, index: usize, value: u64) -> Result<(), AllocError>
    ensures { OnOk result (out.new.items ≡ out.old.items ++ parameter_line index value) }
{
    push_pieces(out, &[
        Piece::Words("  exception_record.exception_information["), Piece::Right(index as u64, 2), Piece::Words("] = "), Piece::Hex(value), Piece::Words("\n"),
    ])
}

#[rattlefmt::skip]
#[tactic(auto, unfolding(crate::specs::Exception::location_lines))]
fn push_location(
    out: &mut Vec<u8>,
    location: &MINIDUMP_LOCATION_DESCRIPTOR,
) -> Result<(), AllocError>
    ensures { OnOk result (out.new.items ≡ out.old.items ++ location_lines location.now) }
{
    push_pieces(out, &[
        Piece::Words("  thread_context.data_size                   = "), Piece::Decimal(location.data_size as u64), Piece::Words("\n"),
        Piece::Words("  thread_context.rva                         = "), Piece::Hex(location.rva as u64), Piece::Words("\n"),
    ])
}

#[tactic(auto, unfolding(crate::specs::Exception::no_exception_context))]
fn push_context(out: &mut Vec<u8>, context: &Option<MinidumpContext>) -> Result<(), AllocError>
    ensures { OnOk result (out.new.items ≡ out.old.items
        ++ exception_context_text (option_map (λ c. c.raw) context.now)) }
{
    match context {
        Some(context) => {
            push_line_end(out)?;
            context.push(out)
        }
        None => out.extend_from_slice(b"  (no context)\n\n    "),
    }
}

/// Microsoft's `MINIDUMP_EXCEPTION_STREAM`: one record. Its context is not decoded. The only error
/// is `StreamReadFailure`, if the stream has fewer than 168 bytes.
impl<'a> MinidumpStream<'a> for MinidumpException<'a> {
    ghost use Rattle.minidump.specs.Exception.{Exception, exception_stream};

    ghost Value = { Exception };

    ghost spec = { exception_stream };

    const STREAM_TYPE: u32 = 6;

    fn number_of_type() -> u32
        ensures { result ≡ exception_stream.stream_type }
    {
        Self::STREAM_TYPE
    }

    fn read(
        _alloc: Global,
        bytes: Source<'a>,
        all: Source<'a>,
        endian: Endian,
        _system_info: Option<&MinidumpSystemInfo>,
        steps: &mut Steps,
    ) -> Result<Self, Error> {
        let raw: MINIDUMP_EXCEPTION_STREAM = bytes
            .record(0, endian, steps)
            .ok_or(Error::StreamReadFailure)?;
        Ok(MinidumpException {
            raw,
            thread_id: raw.thread_id,
            context: raw.thread_context.bytes_in(all, steps),
            endian,
        })
    }
}
