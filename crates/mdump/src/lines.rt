//! The lines of what lies at an address.
ghost use Rattle.std.specs.Prelude.{◌≡◌, ◌++◌, IfErr, IfOk, OnOk, string_bytes};
ghost use Rattle.std.specs.Option.{option_copied, option_map};
ghost use Rattle.minidump.specs.Below.Format.Print.{Prints};
ghost use Rattle.minidump.specs.Below.MemoryLists.Memory.{range_of_region};
ghost use Rattle.minidump.specs.Below.MemoryLists.Unified.{unified_list, unified_regions};
ghost use Rattle.minidump.specs.Below.MemoryLists.UnifiedInfo.{info_list};
ghost use Rattle.minidump.specs.Below.Modules.Module.{range_of_module};
ghost use Rattle.minidump.specs.Below.Modules.ModuleList.{module_list_of};
ghost use Rattle.minidump.specs.DumpValue.{dump_of};
ghost use Rattle.mdump.specs.Done.{info_line, info_of_dump, lines_of, looked_up_in, memory_line};
ghost use Rattle.mdump.specs.Done.{module_line, range_found};

use minidump::text::{Piece, no_memory, push_pieces, put_text};
use minidump::{
    Error, Minidump, MinidumpLinuxMaps, MinidumpMemoryInfoList, MinidumpModuleList, Told,
    UnifiedMemoryInfoList, UnifiedMemoryList,
};
use std::alloc::{AllocError, Global};
use std::io::Write;

// Writes the lines of what lies at an address.
#[tactic(auto, using(minidump::proofs::ReportLemmas::prints_nothing))]
pub(crate) fn print_lines<O: Write>(
    dump: &Minidump<'_>,
    alloc: Global,
    address: u64,
    out: &mut Told<O>,
) -> Result<(), Error>
    ensures { Prints O.contents out.old out.new (lines_of (dump_of dump.now) address) result }
{
    match lines_of(dump, alloc, address) {
        Ok(lines) => put_text(out, lines.as_str()),
        Err(_) => Err(no_memory(out)),
    }
}

// Makes the lines of what lies at an address.
fn lines_of(dump: &Minidump<'_>, alloc: Global, address: u64) -> Result<String, Error>
    ensures { IfOk result (λ lines. string_bytes lines ≡ lines_of (dump_of dump.now) address) }
{
    let memory = dump.get_memory(alloc)?;
    let modules = dump.find_stream(alloc)?;
    let infos = information(dump, alloc)?;
    let mut lines = String::with_capacity(alloc, 256)?;
    push_region(&mut lines, memory.as_ref(), address)?;
    push_module(&mut lines, modules.as_ref(), address)?;
    push_info(&mut lines, infos.as_ref(), address)?;
    Ok(lines)
}

// Appends the line of the region of memory that contains an address, or that there is none.
#[rattlefmt::skip]
fn push_region(
    out: &mut String,
    memory: Option<&UnifiedMemoryList<'_>>,
    address: u64,
) -> Result<(), AllocError>
    ensures { OnOk result (string_bytes out.new ≡ string_bytes out.old
        ++ memory_line (looked_up_in range_of_region
        (option_map (λ m. unified_regions (unified_list m)) (option_copied memory.entry))
        address)) }
{
    match memory.and_then(|memory| memory.memory_at_address(address)) {
        Some(region) => push_pieces(out, &[
            Piece::Words("memory "), Piece::Hex(region.base_address()), Piece::Words(" "),
            Piece::Hex(region.size()), Piece::Words("\n"),
        ]),
        None => out.push_str("memory none\n"),
    }
}

// Appends the line of the module that contains an address, or that there is none.
#[rattlefmt::skip]
fn push_module(
    out: &mut String,
    modules: Option<&MinidumpModuleList>,
    address: u64,
) -> Result<(), AllocError>
    ensures { OnOk result (string_bytes out.new ≡ string_bytes out.old
        ++ module_line (looked_up_in range_of_module
        (option_map module_list_of (option_copied modules.entry)) address)) }
{
    match modules.and_then(|modules| modules.module_at_address(address)) {
        Some(module) => push_pieces(out, &[
            Piece::Words("module "), Piece::Hex(module.raw.base_of_image), Piece::Words(" "),
            Piece::Hex(module.raw.size_of_image as u64), Piece::Words(" "),
            Piece::Words(module.name.as_str()), Piece::Words("\n"),
        ]),
        None => out.push_str("module none\n"),
    }
}

// Appends the line of the range of the region that contains an address, by the memory information
// or the maps, or that there is none.
#[rattlefmt::skip]
fn push_info(
    out: &mut String,
    infos: Option<&UnifiedMemoryInfoList<'_>>,
    address: u64,
) -> Result<(), AllocError>
    ensures { OnOk result (string_bytes out.new ≡ string_bytes out.old
        ++ info_line (range_found (option_map info_list (option_copied infos.entry)) address)) }
{
    let found = infos.and_then(|infos| infos.memory_info_at_address(address));
    match found.and_then(|region| region.memory_range()) {
        Some(range) => push_pieces(out, &[
            Piece::Words("info "), Piece::Hex(range.start), Piece::Words(" "),
            Piece::Hex(range.end), Piece::Words("\n"),
        ]),
        None => out.push_str("info none\n"),
    }
}

// Reads the memory information of a dump, or its maps if that is missing or malformed.
fn information<'a>(
    dump: &Minidump<'a>,
    alloc: Global,
) -> Result<Option<UnifiedMemoryInfoList<'a>>, Error>
    ensures list { IfOk result (λ list. option_map info_list list
        ≡ info_of_dump (dump_of dump.now)) }
    ensures memory { IfErr result (λ e. e ≡ Error.OutOfMemory) }
{
    match dump.find_stream::<MinidumpMemoryInfoList>(alloc)? {
        Some(info) => Ok(Some(UnifiedMemoryInfoList::Info(info))),
        None => Ok(
            dump.find_stream::<MinidumpLinuxMaps>(alloc)?
                .map(UnifiedMemoryInfoList::Maps),
        ),
    }
}
