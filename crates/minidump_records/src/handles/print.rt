ghost use Rattle.std.specs.Prelude.{◌≡◌, ◌++◌, OnOk, string_bytes};
ghost use Rattle.std.specs.List.{flat_map};
ghost use Rattle.std.specs.Option.{option_map};
ghost use Rattle.minidump_format.specs.Print.{Prints};
ghost use Rattle.minidump_records.specs.Handles.{fields_text, handle_data_of, handle_data_text, handle_of, handle_text};
ghost use Rattle.minidump_records.specs.Handles.{info_label, info_line, infos_text, names_text, no_info_line, or_null};
ghost use Rattle.minidump_records.specs.Handles.ObjectChain.{information_text};

use super::{MinidumpHandleDataStream, MinidumpHandleDescriptor, MinidumpHandleObjectInformation};
use minidump_bytes::{Piece, Told, push_pieces};
use minidump_format::format::MINIDUMP_HANDLE_DESCRIPTOR;
use minidump_format::{Error, Pushed, print_item, print_numbered};
use std::alloc::{AllocError, Global};
use std::io::Write;

impl MinidumpHandleDataStream {
    /// Prints the number of handles, and each of them after its index.
    pub fn print<W: Write>(&self, alloc: Global, f: &mut Told<W>) -> Result<(), Error>
        ensures { Prints W.contents f.old f.new
            (handle_data_text (handle_data_of self.now)) result }
    {
        let heading = "MinidumpHandleDataStream\n  handle_count = ";
        print_numbered(heading, "handle", self.handles.as_slice(), alloc, f)
    }
}

impl MinidumpHandleDescriptor {
    /// Prints the descriptor, the names and the information on the object, with `(invalid)` for a
    /// field that the layout doesn't have and `(null)` for a name or information that is absent.
    pub fn print<W: Write>(&self, alloc: Global, f: &mut Told<W>) -> Result<(), Error>
        ensures { Prints W.contents f.old f.new (handle_text (handle_of self.now)) result }
    {
        print_item(self, alloc, f)
    }
}

impl Pushed for MinidumpHandleDescriptor {
    ghost text = { λ h. handle_text (handle_of h) };

    fn push(&self, out: &mut Vec<u8>) -> Result<(), AllocError> {
        let info_rva = self.raw.object_info_rva().copied();
        push_fields(out, &self.raw.shared_fields(), info_rva)?;
        push_names(out, or_null(&self.type_name), or_null(&self.object_name))?;
        push_infos(out, self.object_infos.as_slice())?;
        push_pieces(out, &[Piece::Words("\n")])
    }
}

#[rattlefmt::skip]
#[tactic(auto, unfolding(crate::specs::Handles::fields_text))]
fn push_fields(
    out: &mut Vec<u8>,
    raw: &MINIDUMP_HANDLE_DESCRIPTOR,
    info_rva: Option<u32>,
) -> Result<(), AllocError>
    ensures { OnOk result (out.new.items ≡ out.old.items ++ fields_text raw.now info_rva) }
{
    push_pieces(out, &[
        Piece::Words("MINIDUMP_HANDLE_DESCRIPTOR\n"),
        Piece::Words("  handle            = "), Piece::Hex(raw.handle), Piece::Words("\n"),
        Piece::Words("  type_name_rva     = "), Piece::Hex(raw.type_name_rva as u64), Piece::Words("\n"),
        Piece::Words("  object_name_rva   = "), Piece::Hex(raw.object_name_rva as u64), Piece::Words("\n"),
        Piece::Words("  attributes        = "), Piece::Hex(raw.attributes as u64), Piece::Words("\n"),
        Piece::Words("  granted_access    = "), Piece::Hex(raw.granted_access as u64), Piece::Words("\n"),
        Piece::Words("  handle_count      = "), Piece::Decimal(raw.handle_count as u64), Piece::Words("\n"),
        Piece::Words("  pointer_count     = "), Piece::Decimal(raw.pointer_count as u64), Piece::Words("\n"),
        Piece::Words("  object_info_rva   = "), Piece::OptionalHex(info_rva), Piece::Words("\n"),
    ])
}

#[rattlefmt::skip]
#[tactic(auto, unfolding(crate::specs::Handles::names_text))]
fn push_names<'t>(
    out: &mut Vec<u8>,
    type_name: &'t str,
    object_name: &'t str,
) -> Result<(), AllocError>
    ensures { OnOk result (out.new.items ≡ out.old.items
        ++ names_text type_name.now object_name.now) }
{
    push_pieces(out, &[
        Piece::Words("  (type_name)       = "), Piece::Words(type_name), Piece::Words("\n"),
        Piece::Words("  (object_name)     = "), Piece::Words(object_name), Piece::Words("\n"),
    ])
}

// Returns a name, or `(null)` if it is absent.
fn or_null(name: &Option<String>) -> &str
    ensures { result.now ≡ or_null (option_map string_bytes name.now) }
{
    match name {
        Some(text) => text.as_str(),
        None => "(null)",
    }
}

fn push_infos(
    out: &mut Vec<u8>,
    infos: &[MinidumpHandleObjectInformation],
) -> Result<(), AllocError>
    ensures { OnOk result (out.new.items ≡ out.old.items ++ infos_text infos.now) }
{
    if infos.len() == 0 {
        push_no_info(out)
    } else {
        push_info_lines(out, infos)
    }
}

#[tactic(auto, unfolding(crate::specs::Handles::no_info_line))]
fn push_no_info(out: &mut Vec<u8>) -> Result<(), AllocError>
    ensures { OnOk result (out.new.items ≡ out.old.items ++ no_info_line) }
{
    push_label(out)?;
    push_pieces(out, &[Piece::Words("(null)\n")])
}

fn push_info_lines(
    out: &mut Vec<u8>,
    infos: &[MinidumpHandleObjectInformation],
) -> Result<(), AllocError>
    ensures { OnOk result (out.new.items ≡ out.old.items ++ flat_map info_line infos.now) }
{
    for info in infos {
        push_info_line(out, info)?;
    }
    Ok(())
}

#[tactic(auto, unfolding(crate::specs::Handles::info_line))]
fn push_info_line(
    out: &mut Vec<u8>,
    info: &MinidumpHandleObjectInformation,
) -> Result<(), AllocError>
    ensures { OnOk result (out.new.items ≡ out.old.items ++ info_line info.now) }
{
    push_label(out)?;
    push_information(out, info)?;
    push_pieces(out, &[Piece::Words("\n")])
}

#[tactic(auto, unfolding(crate::specs::Handles::info_label))]
fn push_label(out: &mut Vec<u8>) -> Result<(), AllocError>
    ensures { OnOk result (out.new.items ≡ out.old.items ++ info_label) }
{
    push_pieces(out, &[Piece::Words("  (object_info)     = ")])
}

#[tactic(auto, unfolding(crate::specs::Handles::ObjectChain::information_text))]
fn push_information(
    out: &mut Vec<u8>,
    info: &MinidumpHandleObjectInformation,
) -> Result<(), AllocError>
    ensures { OnOk result (out.new.items ≡ out.old.items ++ information_text info.now) }
{
    push_pieces(
        out,
        &[
            Piece::Words("{next_info_rva: "),
            Piece::Hex(info.raw.next_info_rva as u64),
            Piece::Words(", info_type: "),
            Piece::Decimal(info.raw.info_type as u64),
            Piece::Words(", size_of_info: "),
            Piece::Decimal(info.raw.size_of_info as u64),
            Piece::Words("}"),
        ],
    )
}
