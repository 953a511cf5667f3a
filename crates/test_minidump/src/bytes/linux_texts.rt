use minidump_bytes::{LinuxOsStr, LinuxOsString};
use std::alloc::{AllocError, Global};

// A text, each of its lines with `|` after it, each of its words, and what is left without the white
// space around it. A line feed or a NUL ends a line.
#[rattlefmt::skip]
const PARTS: &[(&[u8], &[u8], &[u8], &[u8])] = &[
    (b"A=1\0B=2\0", b"A=1|B=2|", b"A=1\0B=2\0|", b"A=1\0B=2\0"),
    (b"a\n", b"a|", b"a|", b"a"),
    (b"\n\0b", b"||b|", b"\0b|", b"\0b"),
    (b" a b=c=d", b" a b=c=d|", b"a|b=c=d|", b"a b=c=d"),
    (b" \t\x0c\rx \x0b y\r\n", b" \t\x0c\rx \x0b y\r|", b"x|\x0b|y|", b"x \x0b y"),
    (b"x\x0by  z\0", b"x\x0by  z|", b"x\x0by|z\0|", b"x\x0by  z\0"),
    (b"\t\x0c\r\n", b"\t\x0c\r|", b"", b""),
    (b"", b"", b"", b""),
];

fn push(found: &mut Vec<u8>, part: LinuxOsStr<'_>) -> Result<(), AllocError> {
    found.extend_from_slice(part.as_bytes())?;
    found.push(b'|')?;
    Ok(())
}

fn push_parts(
    text: LinuxOsStr<'_>,
    lines: &mut Vec<u8>,
    words: &mut Vec<u8>,
) -> Result<(), AllocError> {
    for line in text.lines() {
        push(lines, line)?;
    }
    for word in text.split_ascii_whitespace() {
        push(words, word)?;
    }
    Ok(())
}

fn parts_are(alloc: Global, row: &(&[u8], &[u8], &[u8], &[u8])) -> bool {
    let text = LinuxOsStr::from_bytes(row.0);
    let mut lines = Vec::new(alloc);
    let mut words = Vec::new(alloc);
    push_parts(text, &mut lines, &mut words) == Ok(())
        && lines.as_slice() == row.1
        && words.as_slice() == row.2
        && text.trim_ascii_whitespace().as_bytes() == row.3
}

// Bytes, and the text with marks in it. A sequence of four bytes that ends after three is one mark,
// and bytes that begin none are one each.
#[rattlefmt::skip]
const SHOWN: &[(&[u8], &str)] = &[
    (b"a\xc3\xa9", "a\u{e9}"),
    (b"a\xffb", "a\u{fffd}b"),
    (b"\xf0\x9f\x98b", "\u{fffd}b"),
    (b"\xf0\x80\x80", "\u{fffd}\u{fffd}\u{fffd}"),
    (b"\xc0\x80", "\u{fffd}\u{fffd}"),
    (b"\xe2\x82", "\u{fffd}"),
    (b"", ""),
];

fn shown_is(alloc: Global, row: &(&[u8], &str)) -> Result<bool, AllocError> {
    Ok(
        LinuxOsStr::from_bytes(row.0)
            .to_string_lossy(alloc)?
            .as_str()
            == row.1,
    )
}

fn owned_is_copied(alloc: Global) -> Result<bool, AllocError> {
    let owned = LinuxOsString::from_vec(Vec::from_slice(alloc, b"a\xff")?);
    Ok(owned.try_clone(alloc)?.as_os_str() == LinuxOsStr::from_bytes(b"a\xff"))
}

#[test]
fn cuts_and_shows_linux_texts(rt: HostRuntime) {
    let alloc = rt.alloc();
    for row in PARTS {
        assert!(rt; parts_are(alloc, row), "{:?}", row.0);
    }
    for row in SHOWN {
        assert!(rt; shown_is(alloc, row) == Ok(true), "{:?}", row.0);
    }
    assert!(rt; owned_is_copied(alloc) == Ok(true));
}
