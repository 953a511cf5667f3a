ghost use Rattle.std.specs.Prelude.{◌≡◌, IsSome, None, OnErr, OnOk};
ghost use Rattle.whocrashed.specs.Output.{Writes, failure_of};

use std::alloc::AllocError;
use std::io;
use std::io::Write;

/// What the program prints to. It remembers why it failed.
#[derive(Drop)]
pub(crate) struct Output<O> {
    to: O,
    failure: Option<io::Error>,
}

/// The error of an [`Output`] that has failed.
#[derive(Clone, Copy)]
pub(crate) struct OutputFailed;

/// Why a report on a dump ended early.
#[derive(Drop)]
pub(crate) enum Stopped {
    /// Memory ran out.
    NoMemory(io::Error),
    /// The output failed.
    NoOutput,
}

impl<O: Write> Output<O> {
    /// Wraps a writer that has not failed yet.
    pub(crate) fn new(to: O) -> Output<O>
        ensures { failure_of result ≡ None }
    {
        Output { to, failure: None }
    }

    /// Writes a text. If that fails, part of it may have been written.
    pub(crate) fn put(&mut self, text: &[u8]) -> Result<(), OutputFailed>
        ensures all { OnOk result (Writes O.contents self.old self.new text.now) }
        ensures failed { OnErr result (IsSome (failure_of self.new)) }
    {
        match self.to.write_all(text) {
            Ok(()) => Ok(()),
            Err(error) => {
                self.failure = Some(error);
                Err(OutputFailed)
            }
        }
    }

    /// Returns why it failed, or `None` if it hasn't.
    pub(crate) fn failure(&self) -> Option<io::Error>
        ensures { result ≡ failure_of self.now }
    {
        self.failure
    }
}

impl From<AllocError> for Stopped {
    ghost use Rattle.std.specs.declared.io.Error.{Error};
    ghost use Rattle.whocrashed.specs.declared.output.Stopped.TheVariants.{NoMemory};

    ghost from_gives = { λ _ stopped. (error : Error) × (stopped ≡ NoMemory error) };

    fn from(error: AllocError) -> Stopped {
        Stopped::NoMemory(io::Error::from(error))
    }
}

impl From<OutputFailed> for Stopped {
    ghost use Rattle.whocrashed.specs.declared.output.Stopped.TheVariants.{NoOutput};

    ghost from_gives = { λ _ stopped. stopped ≡ NoOutput };

    fn from(_: OutputFailed) -> Stopped {
        Stopped::NoOutput
    }
}
