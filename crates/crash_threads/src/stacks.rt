ghost use Rattle.std.specs.Prelude.{◌≡◌};
ghost use Rattle.minidump.specs.Thread.{thread_of};
ghost use Rattle.crash_streams.specs.Contents.{contents_of};
ghost use Rattle.crash_threads.specs.Addresses.{named_stack, stack_memory};

use crash_streams::Contents;
use minidump::MinidumpThread;
use minidump::format::MINIDUMP_MEMORY_DESCRIPTOR;

/// A range of addresses.
#[derive(Clone, Copy, PartialEq, Eq)]
pub struct StackRange {
    /// The first address, which is the lowest.
    pub base: u64,
    /// How many bytes it has.
    pub size: u64,
}

// Returns where a stack is, as an entry names it.
pub(crate) fn named_stack(stack: &MINIDUMP_MEMORY_DESCRIPTOR) -> Option<StackRange>
    ensures { result ≡ named_stack stack.now }
{
    let range = StackRange {
        base: stack.start_of_memory_range,
        size: stack.memory.data_size as u64,
    };
    (range.size != 0).then_some(range)
}

// Returns the memory of a stack.
pub(crate) fn stack_memory<'a>(
    contents: &Contents<'a>,
    thread: &MinidumpThread<'a>,
) -> Option<StackRange>
    ensures { result ≡ stack_memory (contents_of contents.now) (thread_of thread.now) }
{
    let region = thread.stack_memory(&contents.space.memory)?;
    Some(StackRange {
        base: region.base_address(),
        size: region.size(),
    })
}
