ghost use Rattle.std.specs.Prelude.{◌≡◌, [], ◌∷◌, codes, map, string_bytes};
ghost use Rattle.std.specs.List.{concat};
ghost use Rattle.minidump.specs.Below.Contexts.Context.{map_ok};
ghost use Rattle.minidump.specs.Below.Records.Annotations.{annotation_of};
ghost use Rattle.minidump.specs.Below.Records.Crashpad.{module_of};
ghost use Rattle.minidump.specs.Below.Records.Dictionary.{entries_of};
ghost use Rattle.minidump.specs.Below.Records.Record.{mac_record_of};
ghost use Rattle.minidump.specs.Promise.{assertion_stream, crashpad_info_stream};
ghost use Rattle.minidump.specs.Promise.{mac_crash_info_stream, soft_errors_stream};
ghost use Rattle.crash_streams.specs.Contents.{message_streams_of};
ghost use Rattle.crash_lines.specs.Lines.{Adds, if_ok};
ghost use Rattle.crash_lines.specs.Messages.{annotation_row, assertion_line, crashpad_lines};
ghost use Rattle.crash_lines.specs.Messages.{kind_words, mac_lines, messages_lines, module_lines};
ghost use Rattle.crash_lines.specs.Messages.{module_row, object_row, record_lines, report_line};
ghost use Rattle.crash_lines.specs.Messages.{simple_row, unnamed_row};

use crate::lines::{Added, push_row, push_table};
use crate::parts::Part::{Decimal, Guid, HexIf, Said, Units, Words};
use crash::{MessageStreams, annotation_text};
use minidump::format::MINIDUMP_CRASHPAD_INFO;
use minidump::{
    Error, MinidumpAnnotation, MinidumpAssertion, MinidumpCrashpadInfo, MinidumpMacCrashInfo,
    MinidumpModuleCrashpadInfo, MinidumpSoftErrors, RawMacCrashInfo,
};
use std::collections::BTreeMap;

/// Appends the lines of what the process itself said of the crash.
pub fn push_messages(out: &mut String, messages: &MessageStreams<'_>) -> Added
    ensures { Adds out.old out.new (messages_lines (message_streams_of messages.now)) result }
{
    push_assertion(out, &messages.assertion)?;
    push_crashpad(out, &messages.crashpad)?;
    push_mac(out, &messages.mac_crash_info)?;
    push_soft(out, &messages.soft_errors)
}

// Appends the line of an assertion, if there is one.
#[rattlefmt::skip]
#[tactic(auto, unfolding(crate::specs::Messages::assertion_line))]
fn push_assertion(out: &mut String, found: &Result<MinidumpAssertion, Error>) -> Added
    ensures { Adds out.old out.new
        (if_ok (λ a. assertion_line a ∷ []) (map_ok assertion_stream.value found.now)) result }
{
    match found {
        Ok(assertion) => push_row(out, &[
            Words("assertion "), Words(kind_words(assertion.raw._type)),
            Units("", &assertion.raw.expression), Units(", function ", &assertion.raw.function),
            Units(", file ", &assertion.raw.file), Words(", line "),
            Decimal(assertion.raw.line as u64),
        ]),
        Err(_) => Ok(()),
    }
}

// Returns the words for the kind of an assertion, of those that Breakpad has.
fn kind_words(kind: u32) -> &'static str
    ensures { result.now ≡ kind_words kind }
{
    match kind {
        1 => "(invalid parameter) ",
        2 => "(pure virtual call) ",
        _ => "",
    }
}

// Appends the identifiers of Crashpad's report and of its client, the annotations of the process, and
// then those of each module.
fn push_crashpad(out: &mut String, found: &Result<MinidumpCrashpadInfo, Error>) -> Added
    ensures { Adds out.old out.new
        (if_ok crashpad_lines (map_ok crashpad_info_stream.value found.now)) result }
{
    match found {
        Ok(info) => {
            push_report(out, &info.raw)?;
            push_texts(out, &info.simple_annotations)?;
            for module in info.module_list.as_slice() {
                push_module(out, module)?;
            }
            Ok(())
        }
        Err(_) => Ok(()),
    }
}

// Appends the line of the identifiers of Crashpad's report and of its client.
#[rattlefmt::skip]
#[tactic(auto, unfolding(crate::specs::Messages::report_line))]
fn push_report(out: &mut String, raw: &MINIDUMP_CRASHPAD_INFO) -> Added
    ensures { Adds out.old out.new (report_line raw.now ∷ []) result }
{
    push_row(out, &[
        Words("Crashpad report "), Guid(&raw.report_id), Words(", client "), Guid(&raw.client_id),
    ])
}

// Appends the annotations of a module, below a line with its index.
fn push_module(out: &mut String, module: &MinidumpModuleCrashpadInfo) -> Added
    ensures { Adds out.old out.new (module_lines (module_of module.now)) result }
{
    push_module_row(out, module.module_index)?;
    push_unnamed(out, module.list_annotations.as_slice())?;
    push_texts(out, &module.simple_annotations)?;
    push_objects(out, &module.annotation_objects)
}

// Appends the line before the annotations of a module, by its index.
#[tactic(auto, unfolding(crate::specs::Messages::module_row))]
fn push_module_row(out: &mut String, index: usize) -> Added
    ensures { Adds out.old out.new (module_row index ∷ []) result }
{
    push_row(
        out,
        &[Words("annotations of module "), Decimal(index as u64)],
    )
}

// Appends the lines of texts without names.
#[tactic(auto, unfolding(crate::specs::Messages::unnamed_row))]
fn push_unnamed(out: &mut String, texts: &[String]) -> Added
    ensures { Adds out.old out.new (map unnamed_row (map string_bytes texts.now)) result }
{
    for text in texts {
        push_row(out, &[Words("list annotation "), Words(text.as_str())])?;
    }
    Ok(())
}

// Appends the texts of a dictionary.
fn push_texts(out: &mut String, texts: &BTreeMap<String, String>) -> Added
    ensures { Adds out.old out.new
        (map simple_row (entries_of string_bytes texts.now.entries)) result }
{
    for (name, text) in texts {
        push_annotation(out, "annotation ", name.as_str(), text.as_str())?;
    }
    Ok(())
}

// Appends the annotations that have a type.
fn push_objects(out: &mut String, objects: &BTreeMap<String, MinidumpAnnotation>) -> Added
    ensures { Adds out.old out.new
        (map object_row (entries_of annotation_of objects.now.entries)) result }
{
    for (name, annotation) in objects {
        let text = annotation_text(annotation);
        push_annotation(out, "object annotation ", name.as_str(), text)?;
    }
    Ok(())
}

// Appends the line of an annotation after words: its name and its text.
#[rattlefmt::skip]
#[tactic(auto, unfolding(crate::specs::Messages::annotation_row))]
fn push_annotation<'t>(
    out: &mut String,
    what: &'t str,
    name: &'t str,
    text: &'t str,
) -> Added
    ensures { Adds out.old out.new (annotation_row what.now (name.now, text.now) ∷ []) result }
{
    push_row(out, &[Words(what), Words(name), Words(" = "), Words(text)])
}

// Appends the lines of the records of macOS's crash information, each with its number.
fn push_mac(out: &mut String, found: &Result<MinidumpMacCrashInfo, Error>) -> Added
    ensures { Adds out.old out.new
        (if_ok (λ all. mac_lines all.records)
        (map_ok mac_crash_info_stream.value found.now)) result }
{
    match found {
        Ok(info) => {
            let records = info.raw.as_slice();
            for (number, record) in records.iter().enumerate() {
                push_record(out, number, record)?;
            }
            Ok(())
        }
        Err(_) => Ok(()),
    }
}

// Appends the number of a record, and the texts and the numbers of it that are there.
#[rattlefmt::skip]
#[tactic(auto, unfolding(crate::specs::Messages::record_lines))]
fn push_record(out: &mut String, number: usize, record: &RawMacCrashInfo) -> Added
    ensures { Adds out.old out.new (record_lines number (mac_record_of record.now)) result }
{
    push_table(out, &[
        &[Words("macOS record "), Decimal(number as u64)],
        &[Said("macOS module: ", record.module_path())],
        &[Said("macOS message: ", record.message())],
        &[Said("macOS second message: ", record.message2())],
        &[Said("macOS signature: ", record.signature_string())],
        &[Said("macOS backtrace: ", record.backtrace())],
        &[HexIf("macOS thread ", record.thread().copied())],
        &[HexIf("macOS dialog mode ", record.dialog_mode().copied())],
        &[HexIf("macOS abort cause ", record.abort_cause().copied())],
    ])
}

// Appends the line of Mozilla's soft errors, if they are there.
fn push_soft(out: &mut String, found: &Result<MinidumpSoftErrors<'_>, Error>) -> Added
    ensures { Adds out.old out.new (if_ok (λ t. concat (codes "soft errors " ∷ t ∷ []) ∷ [])
        (map_ok soft_errors_stream.value found.now)) result }
{
    match found {
        Ok(errors) => push_row(out, &[Words("soft errors "), Words(errors.as_ref())]),
        Err(_) => Ok(()),
    }
}
