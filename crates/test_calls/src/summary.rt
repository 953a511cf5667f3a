use anyhow::Result;
use crash_summary::{CrashSummary, summarise};
use minidump::CodeNames;
use std::fs;

/// Prints the summary of the crash in a file.
pub fn print_file(rt: &HostRuntime, path: &str) -> Result<()> {
    let bytes = fs::read(rt, path)?;
    let crash = summarise(rt.alloc(), &bytes, &CodeNames::empty())?;
    print_crash(rt, &crash)
}

// Prints a summary, a line for each part that it has.
fn print_crash(rt: &HostRuntime, crash: &CrashSummary) -> Result<()> {
    println!(rt; "thread  {:#x}", crash.thread)?;
    if let Some(address) = crash.address {
        println!(rt; "address {address:#x}")?;
    }
    if let Some(reason) = &crash.reason {
        println!(rt; "reason  {}", reason.as_str())?;
    }
    if let Some(module) = &crash.module {
        println!(rt;
            "module  {:#x} {:#x} {}",
            module.base,
            module.size,
            module.name.as_str()
        )?;
    }
    if let Some(stack) = crash.stack {
        println!(rt; "stack   {:#x} {:#x}", stack.base, stack.size)?;
    }
    Ok(())
}
