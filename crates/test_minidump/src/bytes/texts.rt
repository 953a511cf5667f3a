use minidump_bytes::{Endian, Source, Steps, text_before_nul};
use std::alloc::{AllocError, Global};

// Bytes, an offset and the byte order, and the texts there: of UTF-16, of UTF-8, and of UTF-8 with a
// NUL after it.
type Texts = (
    &'static [u8],
    u64,
    Endian,
    Option<&'static str>,
    Option<&'static str>,
    Option<&'static str>,
);

#[rattlefmt::skip]
const TEXTS: &[Texts] = &[
    (&[2, 0, 0, 0, 0x00, 0xd8], 0, Endian::Little, None, None, None),
    (&[0, 0, 0, 4, 0xd8, 0x3d, 0xde, 0x00], 0, Endian::Big, Some("\u{1f600}"), None, None),
    (&[4, 0, 0, 0, 0x00, 0xdc, 0x00, 0xd8], 0, Endian::Little, None, None, None),
    (&[7, 6, 0, 0, 0, 0xff, 0xfe, 0, 0, 0x61, 0, 0x62, 0], 1, Endian::Little, Some("\u{feff}\0a"), None, None),
    (&[0, 0, 0, 2, 0xff, 0xfe], 0, Endian::Big, Some("\u{fffe}"), None, None),
    (&[3, 0, 0, 0, 0x61, 0, 0x62, 0], 0, Endian::Little, None, Some("a\0b"), Some("a\0b")),
    (&[4, 0, 0, 0, 0x61, 0, 0x62], 0, Endian::Little, None, None, None),
    (&[0xfe, 0xff, 0xff, 0xff, 0x61, 0], 0, Endian::Little, None, None, None),
    (&[0, 0, 0, 0], 0, Endian::Little, Some(""), Some(""), None),
    (&[0, 0, 0, 0], 1, Endian::Little, None, None, None),
    (&[0, 0, 0, 0], 4, Endian::Little, None, None, None),
    (&[0, 0, 0, 0], u64::MAX - 3, Endian::Little, None, None, None),
    (&[0, 0, 0, 0], u64::MAX, Endian::Big, None, None, None),
    (&[9, 4, 0, 0, 0, b'k', 0xc3, 0xa9, b'!'], 1, Endian::Little, Some("\u{c36b}\u{21a9}"), Some("k\u{e9}!"), None),
    (&[2, 0, 0, 0, b'i', b'd', 0, 1], 0, Endian::Little, Some("\u{6469}"), Some("id"), Some("id")),
    (&[0, 0, 0, 3, b'a', 0, b'b', 0], 0, Endian::Big, None, Some("a\0b"), Some("a\0b")),
    (&[0, 0, 0, 0, 0], 0, Endian::Little, Some(""), Some(""), Some("")),
    (&[0, 0, 0, 0, 0], 1, Endian::Little, Some(""), Some(""), None),
    (&[0, 0, 0, 0, 0], 2, Endian::Little, None, None, None),
    (&[2, 0, 0, 0, 0xc0, 0x80, 0], 0, Endian::Little, Some("\u{80c0}"), None, None),
    (&[3, 0, 0, 0, 0xed, 0xa0, 0x80, 0], 0, Endian::Little, None, None, None),
    (&[255, 255, 255, 255, b'a'], 0, Endian::Little, None, None, None),
    (&[255, 255, 255, 255, b'a'], u64::MAX - 1, Endian::Big, None, None, None),
];

fn texts_are(alloc: Global, row: &Texts) -> Result<bool, AllocError> {
    let (bytes, offset, endian, text16, text8, text8_nul) = *row;
    let source = Source::new(bytes);
    let mut steps = Steps::new();
    let read = source.text16(alloc, offset, endian, &mut steps)?;
    Ok(
        read.as_deref() == text16
            && source.text8(offset, endian, &mut steps) == text8
            && source.text8_nul(offset, endian, &mut steps) == text8_nul,
    )
}

// Code units, and the text before the first 0.
#[rattlefmt::skip]
const UNITS: &[(&[u16], Option<&str>)] = &[
    (&[0x61, 0x62, 0, 0xd800], Some("ab")),
    (&[0xd800], None),
    (&[0xfeff, 0xd83d, 0xde00, 0x62], Some("\u{feff}\u{1f600}b")),
    (&[0, 0x61], Some("")),
    (&[], Some("")),
];

fn units_spell(alloc: Global, row: &(&[u16], Option<&str>)) -> Result<bool, AllocError> {
    Ok(text_before_nul(alloc, row.0)?.as_deref() == row.1)
}

// An offset in `b"a\r\0\n\nb\xff\0c"`, the text from there up to a NUL, and the line from there.
#[rattlefmt::skip]
const STRINGS: &[(u64, Option<&str>, Option<&[u8]>)] = &[
    (0, Some("a\r"), Some(b"a\r\0")),
    (2, Some(""), Some(b"\0")),
    (3, None, Some(b"")),
    (4, None, Some(b"")),
    (5, None, Some(b"b\xff\0c")),
    (7, Some(""), Some(b"\0c")),
    (8, None, Some(b"c")),
    (9, None, None),
    (u64::MAX, None, None),
];

fn strings_are(row: &(u64, Option<&str>, Option<&[u8]>)) -> bool {
    let source = Source::new(b"a\r\0\n\nb\xff\0c");
    source.cstring(row.0, &mut Steps::new()) == row.1
        && source.line(row.0, &mut Steps::new()) == row.2
}

#[test]
fn reads_texts(rt: HostRuntime) {
    let alloc = rt.alloc();
    for row in TEXTS {
        assert!(rt; texts_are(alloc, row) == Ok(true), "{:?}", row.0);
    }
    for row in UNITS {
        assert!(rt; units_spell(alloc, row) == Ok(true), "{:?}", row.0);
    }
    for row in STRINGS {
        assert!(rt; strings_are(row), "{}", row.0);
    }
}
