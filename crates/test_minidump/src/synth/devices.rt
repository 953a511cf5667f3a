// The devices, and the readers and writers of `minidump_bytes` over them.
use minidump_bytes::{DeviceFailed, Told, write_bytes};
use minidump_synth::{FailsAt, OneByte, TakesNone};
use std::alloc::Global;
use std::io::ErrorKind;

// Whether a writer that takes one byte a call, and whose calls fail from number `at` on, takes `at`
// of five bytes, or all. After a failure it is not called again, not by a write of nothing either.
fn takes_up_to(alloc: Global, at: usize, kind: ErrorKind) -> bool {
    let text = b"abcde";
    let mut f = Told::new(FailsAt::with_kind(OneByte::new(Vec::new(alloc)), at, kind));
    let wants = if at < 5 { Err(DeviceFailed) } else { Ok(()) };
    let answers = [f.put(b""), f.put(text), f.put(b"")];
    let digits = write_bytes(&mut f, b"");
    let device = f.into_device();
    answers == [Ok(()), wants, wants]
        && digits == wants
        && device.calls == 5.min(at.saturating_add(1))
        && text.get(..at.min(5)) == Some(device.inner.inner.as_slice())
}

// What each of seven calls gives of a reader of five bytes, one a call, whose calls fail from a
// number on: the byte, `.` at the end, and `!` for a failure. And how often the reader is called.
fn gives(at: usize, kind: ErrorKind) -> ([u8; 7], usize) {
    let mut f = Told::new(FailsAt::with_kind(OneByte::new(&b"abcde"[..]), at, kind));
    let mut given = [b'!'; 7];
    for byte in &mut given {
        let mut buf = [b'.'; 4];
        if f.take(&mut buf).is_ok() {
            *byte = buf[0];
        }
    }
    (given, f.into_device().calls)
}

#[rattlefmt::skip]
const GIVEN: &[(usize, &[u8; 7], usize)] = &[
    (0, b"!!!!!!!", 1), (1, b"a!!!!!!", 2), (2, b"ab!!!!!", 3), (3, b"abc!!!!", 4), (4, b"abcd!!!", 5),
    (5, b"abcde!!", 6), (6, b"abcde.!", 7), (7, b"abcde..", 7),
];

fn nothing_taken_is_a_failure(alloc: Global) -> bool {
    let mut f = Told::new(TakesNone::new(OneByte::new(Vec::new(alloc)), 2));
    let answer = f.put(b"abcde");
    let device = f.into_device();
    answer == Err(DeviceFailed)
        && device.calls == 3
        && device.inner.inner.as_slice() == b"ab".as_slice()
}

// Every kind of error, that of an interrupted call among them.
const KINDS: &[ErrorKind] = &[
    ErrorKind::NotFound,
    ErrorKind::PermissionDenied,
    ErrorKind::ConnectionRefused,
    ErrorKind::ConnectionReset,
    ErrorKind::HostUnreachable,
    ErrorKind::NetworkUnreachable,
    ErrorKind::ConnectionAborted,
    ErrorKind::NotConnected,
    ErrorKind::AddrInUse,
    ErrorKind::AddrNotAvailable,
    ErrorKind::NetworkDown,
    ErrorKind::BrokenPipe,
    ErrorKind::AlreadyExists,
    ErrorKind::WouldBlock,
    ErrorKind::NotADirectory,
    ErrorKind::IsADirectory,
    ErrorKind::DirectoryNotEmpty,
    ErrorKind::ReadOnlyFilesystem,
    ErrorKind::FilesystemLoop,
    ErrorKind::StaleNetworkFileHandle,
    ErrorKind::InvalidInput,
    ErrorKind::InvalidData,
    ErrorKind::TimedOut,
    ErrorKind::WriteZero,
    ErrorKind::StorageFull,
    ErrorKind::NotSeekable,
    ErrorKind::QuotaExceeded,
    ErrorKind::FileTooLarge,
    ErrorKind::ResourceBusy,
    ErrorKind::ExecutableFileBusy,
    ErrorKind::Deadlock,
    ErrorKind::CrossesDevices,
    ErrorKind::TooManyLinks,
    ErrorKind::InvalidFilename,
    ErrorKind::ArgumentListTooLong,
    ErrorKind::Interrupted,
    ErrorKind::Unsupported,
    ErrorKind::UnexpectedEof,
    ErrorKind::OutOfMemory,
    ErrorKind::InProgress,
    ErrorKind::Other,
    ErrorKind::Uncategorized,
];

#[test]
fn devices_work_up_to_a_failure(rt: HostRuntime) {
    let alloc = rt.alloc();
    for (at, given, calls) in GIVEN {
        assert!(rt; takes_up_to(alloc, *at, ErrorKind::Other), "{at}");
        assert!(rt; gives(*at, ErrorKind::Other) == (**given, *calls), "{at}");
    }
    for kind in KINDS {
        assert!(rt; takes_up_to(alloc, 1, *kind), "{kind:?}");
        assert!(rt; gives(1, *kind) == (*b"a!!!!!!", 2), "{kind:?}");
    }
    assert!(rt; nothing_taken_is_a_failure(alloc));
}
