use crate::spans::{MakeRow, Span, bit, bytes_of, flag, push_text};
use crash::{CrashModule, CrashThread, UnloadedModule};
use std::alloc::AllocError;

/// A register: its value, and its name.
#[repr(C)]
#[derive(Clone, Copy)]
pub struct RegisterRow {
    /// The value.
    pub value: u64,
    /// The name.
    pub name: Span,
}

/// A thread. A number that is absent is 0.
#[repr(C)]
#[derive(Clone, Copy)]
pub struct ThreadRow {
    /// The first address of its stack, as its entry names it.
    pub stack_base: u64,
    /// The number of bytes of its stack.
    pub stack_size: u64,
    /// The name.
    pub name: Span,
    /// The last error in words.
    pub last_error: Span,
    /// The number of its frames and candidates.
    pub frame_count: usize,
    /// The number of its candidates, the last of these.
    pub candidate_count: usize,
    /// How many bytes its context has, if it is cut.
    pub short_size: usize,
    /// How many bytes a whole context has, if that is cut.
    pub whole_size: usize,
    /// The id of the thread.
    pub id: u32,
    /// 1 if there are registers of it, else 0.
    pub has_context: u16,
    /// 1 if the list of threads has it, else 0.
    pub is_listed: u16,
}

/// A module.
#[repr(C)]
#[derive(Clone, Copy)]
pub struct ModuleRow {
    /// The first address.
    pub base: u64,
    /// The address after it, 0 if that has more than 64 bits.
    pub end: u64,
    /// The path of its file.
    pub path: Span,
    /// The version.
    pub version: Span,
    /// The identifier of its code.
    pub code_id: Span,
    /// The last part of the path of its debug file.
    pub debug_file: Span,
    /// The identifier of its debug file.
    pub debug_id: Span,
}

/// A module that was unloaded.
#[repr(C)]
#[derive(Clone, Copy)]
pub struct UnloadedRow {
    /// The first address.
    pub base: u64,
    /// The address after it, 0 if that has more than 64 bits.
    pub end: u64,
    /// The path of its file.
    pub path: Span,
    /// The identifier of its code.
    pub code_id: Span,
}

impl MakeRow for (&'static str, u64) {
    ghost use Rattle.std.specs.Prelude.{List, ℕ};
    ghost use Rattle.minidump_c.specs.Tables.{register_row};

    type Row = RegisterRow;

    ghost Value = { List ℕ × ℕ };

    ghost value_of = { λ r. (r.0.now, r.1) };

    ghost row_after = { register_row };

    fn make_row(&self, texts: &mut Vec<u8>) -> Result<RegisterRow, AllocError> {
        let name = push_text(texts, self.0.as_bytes())?;
        Ok(RegisterRow {
            value: self.1,
            name,
        })
    }
}

impl MakeRow for CrashThread {
    ghost use Rattle.crash_threads.specs.Threads.{ThreadValue, thread_value};
    ghost use Rattle.minidump_c.specs.Tables.{thread_row};

    type Row = ThreadRow;

    ghost Value = { ThreadValue };

    ghost value_of = { thread_value };

    ghost row_after = { thread_row };

    fn make_row(&self, texts: &mut Vec<u8>) -> Result<ThreadRow, AllocError> {
        let name = push_text(texts, bytes_of(&self.name))?;
        let last_error = push_text(texts, bytes_of(&self.last_error))?;
        let short = self.short_context();
        Ok(ThreadRow {
            stack_base: self.stack.map_or(0, |s| s.base),
            stack_size: self.stack.map_or(0, |s| s.size),
            name,
            last_error,
            frame_count: self
                .walk
                .as_ref()
                .map_or(0, |w| w.frames.len() + w.candidates.len()),
            candidate_count: self.walk.as_ref().map_or(0, |w| w.candidates.len()),
            short_size: short.map_or(0, |s| s.size),
            whole_size: short.map_or(0, |s| s.whole),
            id: self.id,
            has_context: flag(&self.context) as u16,
            is_listed: bit(self.is_listed) as u16,
        })
    }
}

impl MakeRow for CrashModule {
    ghost use Rattle.crash_process.specs.Modules.{LoadedValue, loaded_of};
    ghost use Rattle.minidump_c.specs.Tables.{module_row};

    type Row = ModuleRow;

    ghost Value = { LoadedValue };

    ghost value_of = { loaded_of };

    ghost row_after = { module_row };

    fn make_row(&self, texts: &mut Vec<u8>) -> Result<ModuleRow, AllocError> {
        let path = push_text(texts, self.path.as_bytes())?;
        let version = push_text(texts, bytes_of(&self.version))?;
        let code_id = push_text(texts, bytes_of(&self.code_id))?;
        let debug_file = push_text(texts, bytes_of(&self.debug_file))?;
        let debug_id = push_text(texts, bytes_of(&self.debug_id))?;
        Ok(ModuleRow {
            base: self.base,
            end: self.end.unwrap_or(0),
            path,
            version,
            code_id,
            debug_file,
            debug_id,
        })
    }
}

impl MakeRow for UnloadedModule {
    ghost use Rattle.crash_process.specs.Modules.{UnloadedModuleValue, unloaded_module_of};
    ghost use Rattle.minidump_c.specs.Tables.{unloaded_row};

    type Row = UnloadedRow;

    ghost Value = { UnloadedModuleValue };

    ghost value_of = { unloaded_module_of };

    ghost row_after = { unloaded_row };

    fn make_row(&self, texts: &mut Vec<u8>) -> Result<UnloadedRow, AllocError> {
        let path = push_text(texts, self.path.as_bytes())?;
        let code_id = push_text(texts, bytes_of(&self.code_id))?;
        Ok(UnloadedRow {
            base: self.base,
            end: self.end.unwrap_or(0),
            path,
            code_id,
        })
    }
}
