ghost use Rattle.std.specs.Prelude.{◌≡◌, IfOk, IsSome, OnErr, string_bytes};
ghost use Rattle.std.specs.Option.{option_map};
ghost use Rattle.minidump_modules.specs.Version.{join_by_dots, version_of};

use minidump_bytes::{Piece, format_pieces};
use minidump_format::format::{VS_FFI_SIGNATURE, VS_FFI_STRUCVERSION, VS_FIXEDFILEINFO};
use minidump_system::Os;
use std::alloc::{AllocError, Global};

// Makes the text of a version, or returns `None` if it is not set.
pub(crate) fn version_of(
    alloc: Global,
    os: Option<Os>,
    version: &VS_FIXEDFILEINFO,
) -> Result<Option<String>, AllocError>
    ensures text { IfOk result (λ t. option_map string_bytes t ≡ version_of os version.now) }
    ensures some { OnErr result (IsSome (version_of os version.now)) }
{
    if version.signature != VS_FFI_SIGNATURE || version.struct_version != VS_FFI_STRUCVERSION {
        return Ok(None);
    }
    let hi = version.file_version_hi;
    let lo = version.file_version_lo;
    let text = match os {
        Some(Os::Windows | Os::MacOs | Os::Ios) => {
            join_by_dots(alloc, hi / 65536, hi % 65536, lo / 65536, lo % 65536)?
        }
        _ => join_by_dots(
            alloc,
            hi,
            lo,
            version.product_version_hi,
            version.product_version_lo,
        )?,
    };
    Ok(Some(text))
}

// Joins four numbers by dots.
#[tactic(auto, unfolding(crate::specs::Version::join_by_dots))]
fn join_by_dots(alloc: Global, a: u32, b: u32, c: u32, d: u32) -> Result<String, AllocError>
    ensures { IfOk result (λ t. string_bytes t ≡ join_by_dots a b c d) }
{
    format_pieces(
        alloc,
        &[
            Piece::Decimal(a as u64),
            Piece::Words("."),
            Piece::Decimal(b as u64),
            Piece::Words("."),
            Piece::Decimal(c as u64),
            Piece::Words("."),
            Piece::Decimal(d as u64),
        ],
    )
}
