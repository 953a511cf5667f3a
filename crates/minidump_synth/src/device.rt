use std::io;
use std::io::{ErrorKind, Read, Write};

/// A reader or writer that moves one byte a call.
#[derive(Drop)]
pub struct OneByte<D> {
    /// The reader or writer that it calls.
    pub inner: D,
}

impl<D> OneByte<D> {
    /// Wraps a device that is to be passed one byte a call.
    pub fn new(inner: D) -> OneByte<D> {
        OneByte { inner }
    }
}

impl<W: Write> Write for OneByte<W> {
    ghost contents = { λ d. W.contents d.inner };

    fn write(&mut self, buf: &[u8]) -> io::Result<usize> {
        if buf.is_empty() {
            return Ok(0);
        }
        self.inner.write(&buf[..1])
    }

    fn flush(&mut self) -> io::Result<()> {
        self.inner.flush()
    }
}

impl<R: Read> Read for OneByte<R> {
    ghost remaining = { λ d. R.remaining d.inner };

    fn read(&mut self, buf: &mut [u8]) -> io::Result<usize> {
        if buf.is_empty() {
            return Ok(0);
        }
        self.inner.read(&mut buf[..1])
    }
}

/// A reader or writer whose reads or writes fail from call number `at` on, counted from 0. Flushing
/// doesn't count.
#[derive(Drop)]
pub struct FailsAt<D> {
    /// The reader or writer that it calls.
    pub inner: D,
    /// The number of calls that succeed before they fail.
    pub at: usize,
    /// The kind of the error with which they fail.
    pub kind: ErrorKind,
    /// The number of calls, failed ones included.
    pub calls: usize,
}

impl<D> FailsAt<D> {
    /// Wraps a device of which the first `at` calls succeed, and the others fail with
    /// `ErrorKind::Other`.
    pub fn new(inner: D, at: usize) -> FailsAt<D> {
        FailsAt::with_kind(inner, at, ErrorKind::Other)
    }

    /// Wraps a device of which the first `at` calls succeed, and the others fail with an error of
    /// this kind.
    pub fn with_kind(inner: D, at: usize, kind: ErrorKind) -> FailsAt<D> {
        FailsAt {
            inner,
            at,
            kind,
            calls: 0,
        }
    }
}

impl<W: Write> Write for FailsAt<W> {
    ghost contents = { λ d. W.contents d.inner };

    fn write(&mut self, buf: &[u8]) -> io::Result<usize> {
        if count_call(&mut self.calls) >= self.at {
            return Err(io::Error::from(self.kind));
        }
        self.inner.write(buf)
    }

    fn flush(&mut self) -> io::Result<()> {
        self.inner.flush()
    }
}

impl<R: Read> Read for FailsAt<R> {
    ghost remaining = { λ d. R.remaining d.inner };

    fn read(&mut self, buf: &mut [u8]) -> io::Result<usize> {
        if count_call(&mut self.calls) >= self.at {
            return Err(io::Error::from(self.kind));
        }
        self.inner.read(buf)
    }
}

/// A writer that takes no bytes from call number `at` on, counted from 0: it returns `Ok(0)`.
#[derive(Drop)]
pub struct TakesNone<D> {
    /// The writer that it calls.
    pub inner: D,
    /// The number of calls that take bytes before they take none.
    pub at: usize,
    /// The number of calls, those that took nothing included.
    pub calls: usize,
}

impl<D> TakesNone<D> {
    /// Wraps a writer that takes bytes in the first `at` calls.
    pub fn new(inner: D, at: usize) -> TakesNone<D> {
        TakesNone {
            inner,
            at,
            calls: 0,
        }
    }
}

impl<W: Write> Write for TakesNone<W> {
    ghost contents = { λ d. W.contents d.inner };

    fn write(&mut self, buf: &[u8]) -> io::Result<usize> {
        if count_call(&mut self.calls) < self.at {
            self.inner.write(buf)
        } else {
            Ok(0)
        }
    }

    fn flush(&mut self) -> io::Result<()> {
        self.inner.flush()
    }
}

// Counts a call, and returns its number.
fn count_call(calls: &mut usize) -> usize {
    let call = *calls;
    *calls = call.saturating_add(1);
    call
}
