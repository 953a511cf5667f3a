/// How much of a crash its text has.
#[derive(Clone, Copy)]
pub struct TextLimits {
    /// The most frames of a thread that are printed. The candidates after them count, too, but
    /// inlined calls don't. Of a thread other than the one that crashed only the first frame is
    /// printed, even if this is 0, unless [`all_threads`](TextLimits::all_threads) is set or none
    /// crashed.
    pub frames: usize,
    /// Whether all threads are printed as the one that crashed is: with their stacks, their frames
    /// and the end of their walks. They are, too, if none crashed.
    pub all_threads: bool,
    /// Whether the items of lists are printed, and not only their numbers: all modules, with their
    /// ends and their indices, the unloaded ones with their ends, the streams, the regions of memory,
    /// the handles and the limits of the process, but neither the maps nor the environment; and of
    /// each frame its stack pointer, its frame pointer and, if that isn't its address, its
    /// instruction.
    pub lists: bool,
    /// Whether all modules and the unloaded ones are printed, as by [`lists`](TextLimits::lists).
    pub modules: bool,
    /// Whether the handles are printed, as by [`lists`](TextLimits::lists).
    pub handles: bool,
    /// Whether the variables of the environment are printed, and not only their number. They may
    /// hold secrets, such as passwords.
    pub environment: bool,
}
