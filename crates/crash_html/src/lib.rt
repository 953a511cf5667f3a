//! A page in HTML on a crash, which shows what a line of JSON says of it, without a server or a
//! network.
//!
//! [`page`] puts the JSON between the two parts of the page, as data that the page's own script
//! reads. The characters by which a text could end that data, or begin an element or a reference of
//! HTML, are written as escapes of JSON, as `\u003c`. In JSON they occur only within texts, so the
//! value stays the same. The script shows what the JSON says as text, and makes no elements, styles
//! or links of it. It lists the frames, with functions and lines where the JSON has them, and draws
//! the address space. Without scripts, the page shows the JSON itself, and also where one fails
//! before all is shown.
//!
//! # Errors
//!
//! [`page`] returns `AllocError` if an allocation fails.
//!
//! # What is proved
//!
//! The page is its head, the JSON's text with these escapes, and its tail, and between head and
//! tail no byte is `<`, `>` or `&`: [`page`]. It is not proved that the value stays the same, nor
//! what the script and a browser make of it.
#![tactic(auto)]

ghost use Rattle.std.specs.Prelude.{◌≡◌, ◌++◌, IfOk, OnOk, encode_utf8_all, string_bytes, true};
ghost use Rattle.std.specs.List.{list_all};
ghost use Rattle.crash_html.specs.Page.{embedded_char, embedded_json, is_inert, page_with};

mod head;
mod tail;

use head::HEAD;
use std::alloc::{AllocError, Global};
use tail::TAIL;

/// Makes the page of a crash, in HTML. `json` is the crash as JSON, which the page's script reads:
/// the text that the crate `crash_json` makes.
///
/// Returns `AllocError` if an allocation fails.
#[tactic(auto, using(crate::proofs::EmbedLemmas::embedded_inert), unfolding(crate::specs::Page::page_with))]
pub fn page(alloc: Global, json: &str) -> Result<String, AllocError>
    ensures page { IfOk result (λ page. string_bytes page ≡ page_with json.now) }
    ensures inert { list_all is_inert (embedded_json json.now) ≡ true }
{
    enclose(alloc, HEAD, json, TAIL)
}

// Returns a text of JSON, embedded, between a head and a tail.
fn enclose(alloc: Global, head: &str, json: &str, tail: &str) -> Result<String, AllocError>
    ensures { IfOk result (λ page. string_bytes page ≡ head.now ++ embedded_json json.now
        ++ tail.now) }
{
    let mut page = String::new(alloc);
    page.push_str(head)?;
    push_embedded(&mut page, json)?;
    page.push_str(tail)?;
    Ok(page)
}

// Appends a text of JSON as data of a script element.
fn push_embedded(out: &mut String, json: &str) -> Result<(), AllocError>
    ensures { OnOk result (string_bytes out.new ≡ string_bytes out.old ++ embedded_json json.now) }
{
    for c in json.chars() {
        push_char(out, c)?;
    }
    Ok(())
}

// Appends a character, or its escape.
fn push_char(out: &mut String, c: char) -> Result<(), AllocError>
    ensures { OnOk result (string_bytes out.new ≡ string_bytes out.old
        ++ encode_utf8_all (embedded_char c)) }
{
    match c {
        '<' => out.push_str("\\u003c"),
        '>' => out.push_str("\\u003e"),
        '&' => out.push_str("\\u0026"),
        '\u{2028}' => out.push_str("\\u2028"),
        '\u{2029}' => out.push_str("\\u2029"),
        _ => out.push(c),
    }
}
