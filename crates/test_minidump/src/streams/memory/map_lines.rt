use bitflags::Flags;
use minidump::{Error, MMapPath, MinidumpLinuxMapInfo, Region};
use std::alloc::Global;

// The region of a line, if it is one.
fn line(alloc: Global, text: &str) -> Result<Option<MinidumpLinuxMapInfo<'static>>, Error> {
    MinidumpLinuxMapInfo::from_line(alloc, text.as_bytes())
}

// The fields that no report prints. A NUL is a character of a path.
fn has_six_fields(alloc: Global) -> Result<bool, Error> {
    let is_it = |m: &MinidumpLinuxMapInfo<'_>| {
        (m.map.address, m.map.offset, m.map.dev, m.map.inode)
            == ((0x1a00, 0x1b00), 16, (0xfd, 5), 7)
            && m.map.perms.bits() == 21
            && matches!(&m.map.pathname, MMapPath::Path(text) if text.as_str() == "/x\0")
    };
    let found = line(alloc, "1a00-1B00 r-xp 10 fd:05 7 /x\0")?;
    Ok(found.as_ref().is_some_and(is_it))
}

// A line, its addresses, and whether the region may be read, written to or run.
#[rattlefmt::skip]
const ACCESS: &[(&str, Option<(u64, u64)>, (bool, bool, bool))] = &[
    (
        "10a00-10b00 ------- 10bac9000 fd:05 1196511  [stack:1234567]",
        Some((0x10a00, 0x10aff)),
        (false, false, false),
    ),
    ("fffff-10000 -r- 10bac9000 fd:05 1196511  ", None, (true, false, false)),
    (
        "0000-ffffffffffffffff xwq 0 0:0 1 ",
        Some((0, 0xffff_ffff_ffff_fffe)),
        (false, true, true),
    ),
    ("5-5  0 0:0 1 ", None, (false, false, false)),
];

fn allows(
    alloc: Global,
    row: &(&str, Option<(u64, u64)>, (bool, bool, bool)),
) -> Result<bool, Error> {
    let found = line(alloc, row.0)?;
    let is_it = |m: &MinidumpLinuxMapInfo<'_>| {
        Region::memory_range(m).map(|range| (range.start, range.end)) == row.1
            && (m.is_readable(), m.is_writable(), m.is_executable()) == row.2
    };
    Ok(found.as_ref().is_some_and(is_it))
}

fn is_line(alloc: Global, bytes: &[u8]) -> Result<bool, Error> {
    Ok(MinidumpLinuxMapInfo::from_line(alloc, bytes)?.is_some())
}

// Neither no bytes nor two lines are a line of a map.
fn others_are_none(alloc: Global) -> Result<bool, Error> {
    Ok(!is_line(alloc, b"")? && !is_line(alloc, b"1-2 r 0 0:0 1 x\ny")?)
}

#[test]
fn a_line_has_six_fields(rt: HostRuntime) {
    for row in ACCESS {
        assert!(rt; allows(rt.alloc(), row) == Ok(true), "{}", row.0);
    }
    let found = [has_six_fields(rt.alloc()), others_are_none(rt.alloc())];
    assert!(rt; found == [Ok(true); 2]);
}
