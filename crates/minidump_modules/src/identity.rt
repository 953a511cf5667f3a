ghost use Rattle.std.specs.Prelude.{◌≡◌, IfOk, IsOkUnless, IsSome, OnErr, string_bytes};
ghost use Rattle.std.specs.Option.{option_map};
ghost use Rattle.minidump_modules.specs.CodeId.{text_of};
ghost use Rattle.minidump_modules.specs.Identity.{Identity};

use crate::{CodeId, DebugId};
use minidump_format::Error;
use std::alloc::Global;

/// What symbol tools ask of a module, loaded or unloaded.
pub trait Module {
    ghost identity: { Self → Identity };

    /// Returns the base address.
    fn base_address(&self) -> u64
        ensures { result ≡ (identity self.now).base };

    /// Returns the number of bytes of memory that the module takes.
    fn size(&self) -> u64
        ensures { result ≡ (identity self.now).size };

    /// Returns the name of its file.
    fn code_file(&self) -> &str
        ensures { result.now ≡ (identity self.now).code_file };

    /// Returns the identifier of its code: the time stamp and the size, the GUID of its debug file
    /// on macOS and iOS, or the build id of an ELF file. Returns `Ok(None)` if it has none. The
    /// only error is [`Error::OutOfMemory`], and only if it has one.
    fn code_identifier(&self, alloc: Global) -> Result<Option<CodeId>, Error>
        ensures means { IfOk result (λ id. option_map text_of id
            ≡ (identity self.now).code_identifier) }
        ensures memory { IsOkUnless result Error.OutOfMemory }
        ensures some { OnErr result (IsSome (identity self.now).code_identifier) };

    /// Returns the name of its debug file, or `None` if it has none. The only error is
    /// [`Error::OutOfMemory`], and only if it has one.
    fn debug_file(&self, alloc: Global) -> Result<Option<String>, Error>
        ensures means { IfOk result (λ name. option_map string_bytes name
            ≡ (identity self.now).debug_file) }
        ensures memory { IsOkUnless result Error.OutOfMemory }
        ensures some { OnErr result (IsSome (identity self.now).debug_file) };

    /// Returns the identifier of its debug file, or `None` if it has none.
    fn debug_identifier(&self) -> Option<DebugId>
        ensures { result ≡ (identity self.now).debug_identifier };

    /// Returns the version, four numbers joined by dots, or `None` if it has none. The only error
    /// is [`Error::OutOfMemory`], and only if it has one.
    fn version(&self, alloc: Global) -> Result<Option<String>, Error>
        ensures means { IfOk result (λ text. option_map string_bytes text
            ≡ (identity self.now).version) }
        ensures memory { IsOkUnless result Error.OutOfMemory }
        ensures some { OnErr result (IsSome (identity self.now).version) };
}
