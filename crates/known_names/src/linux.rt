//! The names of Linux, of `names/linux.names`. `names/compile` made this file.

ghost use Rattle.std.specs.Prelude.{◌≡◌, ◌++◌, OnOk, string_bytes};
ghost use Rattle.known_names.specs.KnownNames.{linux_lines, linux_1};

use std::alloc::AllocError;

// Appends the lines.
#[tactic(auto, unfolding(crate::specs::KnownNames::linux_lines))]
pub(crate) fn push_lines(out: &mut String) -> Result<(), AllocError>
    ensures { OnOk result (string_bytes out.new ≡ string_bytes out.old ++ linux_lines) }
{
    out.push_str(linux_1())?;
    Ok(())
}

#[tactic(auto, unfolding(crate::specs::KnownNames::linux_1))]
fn linux_1() -> &'static str
    ensures { result.now ≡ linux_1 }
{
    LINUX_1
}

const LINUX_1: &str = "\
Linux 1 SIGHUP\n\
Linux 2 SIGINT\n\
Linux 3 SIGQUIT\n\
Linux 4 SIGILL\n\
Linux 5 SIGTRAP\n\
Linux 6 SIGABRT\n\
Linux 7 SIGBUS\n\
Linux 8 SIGFPE\n\
Linux 9 SIGKILL\n\
Linux 10 SIGUSR1\n\
Linux 11 SIGSEGV\n\
Linux 12 SIGUSR2\n\
Linux 13 SIGPIPE\n\
Linux 14 SIGALRM\n\
Linux 15 SIGTERM\n\
Linux 16 SIGSTKFLT\n\
Linux 17 SIGCHLD\n\
Linux 18 SIGCONT\n\
Linux 19 SIGSTOP\n\
Linux 20 SIGTSTP\n\
Linux 21 SIGTTIN\n\
Linux 22 SIGTTOU\n\
Linux 23 SIGURG\n\
Linux 24 SIGXCPU\n\
Linux 25 SIGXFSZ\n\
Linux 26 SIGVTALRM\n\
Linux 27 SIGPROF\n\
Linux 28 SIGWINCH\n\
Linux 29 SIGIO\n\
Linux 30 SIGPWR\n\
Linux 31 SIGSYS\n\
Linux 0xffffffff DUMP_REQUESTED\n\
LinuxSicode 0x00000000 SI_USER\n\
LinuxSicode 0x00000080 SI_KERNEL\n\
LinuxSicode 0xffffffc4 SI_ASYNCNL\n\
LinuxSicode 0xfffffff9 SI_DETHREAD\n\
LinuxSicode 0xfffffffa SI_TKILL\n\
LinuxSicode 0xfffffffb SI_SIGIO\n\
LinuxSicode 0xfffffffc SI_ASYNCIO\n\
LinuxSicode 0xfffffffd SI_MESGQ\n\
LinuxSicode 0xfffffffe SI_TIMER\n\
LinuxSicode 0xffffffff SI_QUEUE\n\
LinuxSigill 1 ILL_ILLOPC\n\
LinuxSigill 2 ILL_ILLOPN\n\
LinuxSigill 3 ILL_ILLADR\n\
LinuxSigill 4 ILL_ILLTRP\n\
LinuxSigill 5 ILL_PRVOPC\n\
LinuxSigill 6 ILL_PRVREG\n\
LinuxSigill 7 ILL_COPROC\n\
LinuxSigill 8 ILL_BADSTK\n\
LinuxSigill 9 ILL_BADIADDR\n\
LinuxSigtrap 1 TRAP_BRKPT\n\
LinuxSigtrap 2 TRAP_TRACE\n\
LinuxSigtrap 3 TRAP_BRANCH\n\
LinuxSigtrap 4 TRAP_HWBKPT\n\
LinuxSigtrap 5 TRAP_UNK\n\
LinuxSigtrap 6 TRAP_PERF\n\
LinuxSigbus 1 BUS_ADRALN\n\
LinuxSigbus 2 BUS_ADRERR\n\
LinuxSigbus 3 BUS_OBJERR\n\
LinuxSigbus 4 BUS_MCEERR_AR\n\
LinuxSigbus 5 BUS_MCEERR_AO\n\
LinuxSigfpe 1 FPE_INTDIV\n\
LinuxSigfpe 2 FPE_INTOVF\n\
LinuxSigfpe 3 FPE_FLTDIV\n\
LinuxSigfpe 4 FPE_FLTOVF\n\
LinuxSigfpe 5 FPE_FLTUND\n\
LinuxSigfpe 6 FPE_FLTRES\n\
LinuxSigfpe 7 FPE_FLTINV\n\
LinuxSigfpe 8 FPE_FLTSUB\n\
LinuxSigfpe 14 FPE_FLTUNK\n\
LinuxSigfpe 15 FPE_CONDTRAP\n\
LinuxSigsegv 1 SEGV_MAPERR\n\
LinuxSigsegv 2 SEGV_ACCERR\n\
LinuxSigsegv 3 SEGV_BNDERR\n\
LinuxSigsegv 4 SEGV_PKUERR\n\
LinuxSigsegv 5 SEGV_ACCADI\n\
LinuxSigsegv 6 SEGV_ADIDERR\n\
LinuxSigsegv 7 SEGV_ADIPERR\n\
LinuxSigsegv 8 SEGV_MTEAERR\n\
LinuxSigsegv 9 SEGV_MTESERR\n\
LinuxSigsys 1 SYS_SECCOMP\n\
LinuxSigsys 2 SYS_USER_DISPATCH\n\
";
