ghost use Rattle.std.specs.Prelude.{◌≡◌, ◌++◌, OnOk, string_bytes};
ghost use Rattle.minidump_reason.specs.Bits.{bits_of};
ghost use Rattle.minidump_reason.specs.ReasonText.{cpu_limit, io_limit, memory_limit, resource_flavor, resource_text};
ghost use Rattle.minidump_reason.specs.ReasonText.{threads_limit, wakeups_limit};

use crate::bits::bits_of;
use crate::flavor::Flavor;
use crate::text::push_name;
use crate::{CodeFamily, CodeNames};
use minidump_bytes::Piece;
use std::alloc::AllocError;

const RESOURCE_TYPE_CPU: u32 = 1;

const RESOURCE_TYPE_WAKEUPS: u32 = 2;

const RESOURCE_TYPE_MEMORY: u32 = 3;

const RESOURCE_TYPE_IO: u32 = 4;

const RESOURCE_TYPE_THREADS: u32 = 5;

// Appends a limit of a resource that was exceeded.
pub(crate) fn push_resource(
    out: &mut String,
    names: &CodeNames<'_>,
    kind: u32,
    code: u64,
    subcode: u64,
) -> Result<(), AllocError>
    ensures { OnOk result (string_bytes out.new ≡ string_bytes out.old
        ++ resource_text names.now kind code subcode) }
{
    push_name(
        out,
        names,
        "EXC_RESOURCE / ",
        CodeFamily::MacResource,
        kind as u64,
    )?;
    out.push_str(" / ")?;
    push_resource_flavor(out, names, kind, code, subcode)
}

// Appends the flavor of a limit and its details, by the type of the resource.
#[tactic(auto, unfolding(crate::specs::ReasonText::resource_flavor))]
fn push_resource_flavor(
    out: &mut String,
    names: &CodeNames<'_>,
    kind: u32,
    code: u64,
    subcode: u64,
) -> Result<(), AllocError>
    ensures { OnOk result (string_bytes out.new ≡ string_bytes out.old
        ++ resource_flavor names.now kind code subcode) }
{
    match kind {
        RESOURCE_TYPE_CPU => push_cpu_limit(out, names, code, subcode),
        RESOURCE_TYPE_WAKEUPS => push_wakeups_limit(out, names, code, subcode),
        RESOURCE_TYPE_MEMORY => push_memory_limit(out, names, code, subcode),
        RESOURCE_TYPE_IO => push_io_limit(out, names, code, subcode),
        RESOURCE_TYPE_THREADS => push_threads_limit(out, names, code, subcode),
        _ => limit(code, subcode).push_codes(out),
    }
}

// Returns the flavor of a limit.
fn limit(code: u64, subcode: u64) -> Flavor
    ensures number { result.number ≡ bits_of code 58 3 }
    ensures code { result.code ≡ code }
    ensures subcode { result.subcode ≡ subcode }
{
    Flavor {
        number: bits_of(code, 58, 3),
        code,
        subcode,
    }
}

// Appends a limit of the time of processors.
#[rattlefmt::skip]
fn push_cpu_limit(
    out: &mut String,
    names: &CodeNames<'_>,
    code: u64,
    subcode: u64,
) -> Result<(), AllocError>
    ensures { OnOk result (string_bytes out.new ≡ string_bytes out.old
        ++ cpu_limit names.now code subcode) }
{
    let interval = bits_of(code, 7, 25);
    let permitted = bits_of(code, 0, 3);
    let consumed = bits_of(subcode, 0, 3);
    limit(code, subcode).push(out, names, CodeFamily::MacResourceCpu, &[
        Piece::Words(" interval: "), Piece::Decimal(interval), Piece::Words("s CPU limit: "), Piece::Decimal(permitted),
        Piece::Words("% CPU consumed: "), Piece::Decimal(consumed), Piece::Words("%"),
    ])
}

// Appends a limit of wakeups.
#[rattlefmt::skip]
fn push_wakeups_limit(
    out: &mut String,
    names: &CodeNames<'_>,
    code: u64,
    subcode: u64,
) -> Result<(), AllocError>
    ensures { OnOk result (string_bytes out.new ≡ string_bytes out.old
        ++ wakeups_limit names.now code subcode) }
{
    let interval = bits_of(code, 20, 20);
    let permitted = bits_of(code, 0, 12);
    let observed = bits_of(subcode, 0, 12);
    limit(code, subcode).push(out, names, CodeFamily::MacResourceWakeups, &[
        Piece::Words(" interval: "), Piece::Decimal(interval), Piece::Words("s wakeups permitted: "), Piece::Decimal(permitted),
        Piece::Words(" wakeups observed: "), Piece::Decimal(observed),
    ])
}

// Appends a limit of memory.
#[rattlefmt::skip]
fn push_memory_limit(
    out: &mut String,
    names: &CodeNames<'_>,
    code: u64,
    subcode: u64,
) -> Result<(), AllocError>
    ensures { OnOk result (string_bytes out.new ≡ string_bytes out.old
        ++ memory_limit names.now code subcode) }
{
    let permitted = bits_of(code, 0, 13);
    limit(code, subcode).push(out, names, CodeFamily::MacResourceMemory, &[
        Piece::Words(" high watermark limit: "), Piece::Decimal(permitted), Piece::Words("MiB"),
    ])
}

// Appends a limit of I/O.
#[rattlefmt::skip]
fn push_io_limit(
    out: &mut String,
    names: &CodeNames<'_>,
    code: u64,
    subcode: u64,
) -> Result<(), AllocError>
    ensures { OnOk result (string_bytes out.new ≡ string_bytes out.old
        ++ io_limit names.now code subcode) }
{
    let interval = bits_of(code, 15, 17);
    let permitted = bits_of(code, 0, 15);
    let observed = bits_of(subcode, 0, 15);
    limit(code, subcode).push(out, names, CodeFamily::MacResourceIo, &[
        Piece::Words(" interval: "), Piece::Decimal(interval), Piece::Words("s I/O limit: "), Piece::Decimal(permitted),
        Piece::Words("% I/O observed: "), Piece::Decimal(observed), Piece::Words("%"),
    ])
}

// Appends a limit of threads.
#[rattlefmt::skip]
fn push_threads_limit(
    out: &mut String,
    names: &CodeNames<'_>,
    code: u64,
    subcode: u64,
) -> Result<(), AllocError>
    ensures { OnOk result (string_bytes out.new ≡ string_bytes out.old
        ++ threads_limit names.now code subcode) }
{
    let permitted = bits_of(code, 0, 15);
    limit(code, subcode).push(out, names, CodeFamily::MacResourceThreads, &[
        Piece::Words(" high watermark limit: "), Piece::Decimal(permitted),
    ])
}
