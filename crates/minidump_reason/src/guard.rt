ghost use Rattle.std.specs.Prelude.{◌≡◌, ◌++◌, OnOk, codes, string_bytes};
ghost use Rattle.std.specs.List.{flat_map};
ghost use Rattle.minidump_bytes.specs.Piece.{piece_text};
ghost use Rattle.minidump_reason.specs.Names.{name_of};
ghost use Rattle.minidump_reason.specs.ReasonText.{flavor_text, guard_detail, guard_flavor, guard_text};

use crate::bits::bits_of;
use crate::flavor::Flavor;
use crate::text::push_name;
use crate::{CodeFamily, CodeNames};
use minidump_bytes::{Piece, push_pieces};
use std::alloc::AllocError;

const GUARD_TYPE_NONE: u32 = 0;

const GUARD_TYPE_MACH_PORT: u32 = 1;

const GUARD_TYPE_FD: u32 = 2;

const GUARD_TYPE_USER: u32 = 3;

const GUARD_TYPE_VN: u32 = 4;

const GUARD_TYPE_VIRT_MEMORY: u32 = 5;

const GUARD_TYPE_REJECTED_SC: u32 = 6;

// Appends a guard that was violated.
pub(crate) fn push_guard(
    out: &mut String,
    names: &CodeNames<'_>,
    kind: u32,
    code: u64,
    subcode: u64,
) -> Result<(), AllocError>
    ensures { OnOk result (string_bytes out.new ≡ string_bytes out.old
        ++ guard_text names.now kind code subcode) }
{
    push_name(
        out,
        names,
        "EXC_GUARD / ",
        CodeFamily::MacGuard,
        kind as u64,
    )?;
    push_guard_detail(out, names, kind, code, subcode)
}

// Appends the details of a guard, by its type.
#[rattlefmt::skip]
#[tactic(auto, unfolding(crate::specs::ReasonText::guard_detail))]
fn push_guard_detail(
    out: &mut String,
    names: &CodeNames<'_>,
    kind: u32,
    code: u64,
    subcode: u64,
) -> Result<(), AllocError>
    ensures { OnOk result (string_bytes out.new ≡ string_bytes out.old
        ++ guard_detail names.now kind code subcode) }
{
    match kind {
        GUARD_TYPE_NONE => Ok(()),
        GUARD_TYPE_USER => {
            let namespace = bits_of(code, 0, 32);
            push_pieces(out, &[
                Piece::Words("/ namespace: "), Piece::Decimal(namespace), Piece::Words(" guard identifier: "), Piece::Decimal(subcode),
            ])
        }
        _ => push_guard_flavor(out, names, kind, code, subcode),
    }
}

// Appends the flavor of a guard and its details, by the type of the guard.
#[rattlefmt::skip]
#[tactic(auto, unfolding(crate::specs::ReasonText::guard_flavor))]
fn push_guard_flavor(
    out: &mut String,
    names: &CodeNames<'_>,
    kind: u32,
    code: u64,
    subcode: u64,
) -> Result<(), AllocError>
    ensures { OnOk result (string_bytes out.new ≡ string_bytes out.old
        ++ guard_flavor names.now kind code subcode) }
{
    let flavor = Flavor {
        number: bits_of(code, 32, 29),
        code,
        subcode,
    };
    let low = bits_of(code, 0, 28);
    match kind {
        GUARD_TYPE_MACH_PORT if subcode == 0 => flavor.push_guard(out, names, CodeFamily::MacGuardMachPort, &[
            Piece::Words(" port name: "), Piece::Decimal(low),
        ]),
        GUARD_TYPE_MACH_PORT => flavor.push_guard(out, names, CodeFamily::MacGuardMachPort, &[
            Piece::Words(" port name: "), Piece::Decimal(low), Piece::Words(" subcode: "), Piece::Decimal(subcode),
        ]),
        GUARD_TYPE_FD => flavor.push_guard(out, names, CodeFamily::MacGuardFd, &[
            Piece::Words(" file descriptor: "), Piece::Decimal(low), Piece::Words(" guard identifier: "), Piece::Decimal(subcode),
        ]),
        GUARD_TYPE_VN => flavor.push_guard(out, names, CodeFamily::MacGuardVn, &[
            Piece::Words(" pid: "), Piece::Decimal(low), Piece::Words(" guard identifier: "), Piece::Decimal(subcode),
        ]),
        GUARD_TYPE_VIRT_MEMORY => flavor.push_guard(out, names, CodeFamily::MacGuardVirtMemory, &[
            Piece::Words(" offset: "), Piece::Decimal(subcode),
        ]),
        GUARD_TYPE_REJECTED_SC => flavor.push_guard(out, names, CodeFamily::MacGuardRejectedSysCall, &[
            Piece::Words(" syscall: "), Piece::Decimal(subcode),
        ]),
        _ => {
            out.push_str(" / ")?;
            flavor.push_codes(out)
        }
    }
}

impl Flavor {
    // Appends a separator, and the flavor and its details.
    fn push_guard(
        self,
        out: &mut String,
        names: &CodeNames<'_>,
        family: CodeFamily,
        details: &[Piece<'_>],
    ) -> Result<(), AllocError>
        ensures { OnOk result (string_bytes out.new ≡ string_bytes out.old
            ++ (codes " / "
            ++ flavor_text (name_of names.now family self.number)
            (flat_map piece_text details.now) self.code self.subcode)) }
    {
        out.push_str(" / ")?;
        self.push(out, names, family, details)
    }
}
