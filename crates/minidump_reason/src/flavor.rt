ghost use Rattle.std.specs.Prelude.{◌≡◌, ◌++◌, OnOk, string_bytes, None, []};
ghost use Rattle.std.specs.List.{flat_map};
ghost use Rattle.minidump_bytes.specs.Piece.{piece_text};
ghost use Rattle.minidump_reason.specs.Names.{name_of};
ghost use Rattle.minidump_reason.specs.ReasonText.{flavor_text};

use crate::{CodeFamily, CodeNames};
use minidump_bytes::{Piece, push_pieces};
use std::alloc::AllocError;

// The flavor of a limit or a guard of macOS: its number, and the code and the subcode that it
// stands for.
#[derive(Clone, Copy)]
pub(crate) struct Flavor {
    pub(crate) number: u64,
    pub(crate) code: u64,
    pub(crate) subcode: u64,
}

impl Flavor {
    // Appends the name that a family has for the flavor, and the details, or the code and the
    // subcode if it has none.
    pub(crate) fn push(
        self,
        out: &mut String,
        names: &CodeNames<'_>,
        family: CodeFamily,
        details: &[Piece<'_>],
    ) -> Result<(), AllocError>
        ensures { OnOk result (string_bytes out.new ≡ string_bytes out.old
            ++ flavor_text (name_of names.now family self.number)
            (flat_map piece_text details.now) self.code self.subcode) }
    {
        match names.name(family, self.number) {
            Some(name) => {
                out.push_str(name)?;
                push_pieces(out, details)
            }
            None => self.push_codes(out),
        }
    }

    // Appends the code and the subcode.
    #[rattlefmt::skip]
    pub(crate) fn push_codes(self, out: &mut String) -> Result<(), AllocError>
        ensures { OnOk result (string_bytes out.new ≡ string_bytes out.old
            ++ flavor_text None [] self.code self.subcode) }
    {
        push_pieces(out, &[Piece::Wide(self.code, 16), Piece::Words(" / "), Piece::Wide(self.subcode, 16)])
    }
}
