ghost use Rattle.std.proofs.Common.{rules};

use super::{MINIDUMP_LOCATION_DESCRIPTOR, MINIDUMP_MEMORY_DESCRIPTOR};
use minidump_bytes::{Endian, Exact, Record};

/// A thread: Microsoft's `MINIDUMP_THREAD`.
#[derive(Clone, Copy, PartialEq, Eq)]
pub struct MINIDUMP_THREAD {
    /// The id of the thread.
    pub thread_id: u32,
    /// The suspend count.
    pub suspend_count: u32,
    /// The priority class.
    pub priority_class: u32,
    /// The priority level.
    pub priority: u32,
    /// The address of the thread environment block.
    pub teb: u64,
    /// The memory region of the stack.
    pub stack: MINIDUMP_MEMORY_DESCRIPTOR,
    /// The location of its context.
    pub thread_context: MINIDUMP_LOCATION_DESCRIPTOR,
}

impl Record for MINIDUMP_THREAD {
    ghost use Rattle.minidump_format.specs.Thread.{thread};

    ghost SIZE = { 48 };

    const SIZE: usize = 48;

    ghost layout = { thread };

    fn decode(bytes: &[u8], endian: Endian) -> Self {
        MINIDUMP_THREAD {
            thread_id: endian.u32_at(bytes, 0),
            suspend_count: endian.u32_at(bytes, 4),
            priority_class: endian.u32_at(bytes, 8),
            priority: endian.u32_at(bytes, 12),
            teb: endian.u64_at(bytes, 16),
            stack: MINIDUMP_MEMORY_DESCRIPTOR::decode(&bytes[24..40], endian),
            thread_context: MINIDUMP_LOCATION_DESCRIPTOR::decode(&bytes[40..48], endian),
        }
    }

    ghost fits = { Prim.search rules };
}

impl Exact for MINIDUMP_THREAD {
    ghost exact = { Prim.search rules };
}

/// The name of a thread: Microsoft's `MINIDUMP_THREAD_NAME`.
#[derive(Clone, Copy, PartialEq, Eq)]
pub struct MINIDUMP_THREAD_NAME {
    /// The id of the thread.
    pub thread_id: u32,
    /// The RVA of the name.
    pub thread_name_rva: u64,
}

impl Record for MINIDUMP_THREAD_NAME {
    ghost use Rattle.minidump_format.specs.Thread.{thread_name};

    ghost SIZE = { 12 };

    const SIZE: usize = 12;

    ghost layout = { thread_name };

    fn decode(bytes: &[u8], endian: Endian) -> Self {
        MINIDUMP_THREAD_NAME {
            thread_id: endian.u32_at(bytes, 0),
            thread_name_rva: endian.u64_at(bytes, 4),
        }
    }

    ghost fits = { Prim.search rules };
}

impl Exact for MINIDUMP_THREAD_NAME {
    ghost exact = { Prim.search rules };
}

/// The state of a thread: Microsoft's `MINIDUMP_THREAD_INFO`.
#[derive(Clone, Copy, PartialEq, Eq)]
pub struct MINIDUMP_THREAD_INFO {
    /// The id of the thread.
    pub thread_id: u32,
    /// The state of the thread: Microsoft's `MINIDUMP_THREAD_INFO_` numbers.
    pub dump_flags: u32,
    /// The dump status of the thread, an `HRESULT`.
    pub dump_error: u32,
    /// The exit status of the thread.
    pub exit_status: u32,
    /// The time at which the thread began, in units of 100 nanoseconds since 1601.
    pub create_time: u64,
    /// The time at which the thread ended, in units of 100 nanoseconds since 1601.
    pub exit_time: u64,
    /// The time for which it ran in kernel mode, in units of 100 nanoseconds.
    pub kernel_time: u64,
    /// The time for which it ran in user mode, in units of 100 nanoseconds.
    pub user_time: u64,
    /// The address at which it began.
    pub start_address: u64,
    /// The processors that the thread may run on, a bit each.
    pub affinity: u64,
}

impl Record for MINIDUMP_THREAD_INFO {
    ghost use Rattle.minidump_format.specs.Thread.{thread_info};

    ghost SIZE = { 64 };

    const SIZE: usize = 64;

    ghost layout = { thread_info };

    fn decode(bytes: &[u8], endian: Endian) -> Self {
        MINIDUMP_THREAD_INFO {
            thread_id: endian.u32_at(bytes, 0),
            dump_flags: endian.u32_at(bytes, 4),
            dump_error: endian.u32_at(bytes, 8),
            exit_status: endian.u32_at(bytes, 12),
            create_time: endian.u64_at(bytes, 16),
            exit_time: endian.u64_at(bytes, 24),
            kernel_time: endian.u64_at(bytes, 32),
            user_time: endian.u64_at(bytes, 40),
            start_address: endian.u64_at(bytes, 48),
            affinity: endian.u64_at(bytes, 56),
        }
    }

    ghost fits = { Prim.search rules };
}

impl Exact for MINIDUMP_THREAD_INFO {
    ghost exact = { Prim.search rules };
}
