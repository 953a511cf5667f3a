//! Writes JSON values with the writer of `json`.
//!
//! A type has a JSON value by [`ToJson`], and so has each item of a list; by [`NumberedJson`] an item's
//! value has its number in it. A type that stands for members of an object adds them by [`Members`], and
//! `members!` lists members, each by its name.
ghost use Rattle.std.specs.Prelude.{ℕ, List, [], ◌∷◌, ◌++◌, length, string_bytes};
ghost use Rattle.std.specs.Result.{result_ok};
ghost use Rattle.json.specs.Json.{Json, boolean, null, string};
ghost use Rattle.crash_json.specs.Tree.{Adds, Puts, array_of, count, hex_string};
ghost use Rattle.crash_json.specs.Tree.{numbered_array_of, object_of, or_null};

use json::Writer;
use minidump_bytes::{LinuxOsStr, Piece, format_pieces};
use minidump_format::Error;
use std::alloc::{AllocError, Global};

/// What a call that puts JSON returns: `AllocError` if an allocation fails.
pub(crate) type Put = Result<(), AllocError>;

/// A type that has a JSON value.
pub(crate) trait ToJson {
    ghost json: { Self → Json };

    /// Puts the value.
    fn put(&self, out: &mut Writer, alloc: Global) -> Put
        ensures { Puts result out.old out.new (json self.now) };
}

// ---- objects

/// A type that stands for members of an object.
pub(crate) trait Members {
    ghost members: { Self → List (List ℕ × Json) };

    /// Adds the members to those of an object.
    fn add(&self, out: &mut Writer, alloc: Global) -> Put
        ensures { Adds result out.old out.new (members self.now) };

    /// Puts the object of the members.
    #[tactic(auto, using(crate::proofs::Tokens::object_of_members))]
    final fn put_object(&self, out: &mut Writer, alloc: Global) -> Put
        ensures { Puts result out.old out.new (object_of (members self.now)) }
    {
        out.begin_object()?;
        self.add(out, alloc)?;
        out.end_object()
    }
}

/// Lists members of an object, each its name and its value, as `members! { "size": self.size, }`.
/// The members of a value that stands for some are listed by `..` and that value.
macro_rules! members {
    () => { () };
    (..$rest:expr $(,)?) => { $rest };
    (..$part:expr, $($rest:tt)*) => { ($part, members! { $($rest)* }) };
    ($name:literal: $value:expr, $($rest:tt)*) => { ($name, $value, members! { $($rest)* }) };
}

pub(crate) use members;

impl Members for () {
    ghost members = { λ _. [] };

    #[tactic(auto, unfolding(crate::specs::Tree::member_list_tokens))]
    fn add(&self, _out: &mut Writer, _alloc: Global) -> Put {
        Ok(())
    }
}

// A name, its value, and the members after it.
impl<'n, T: ToJson, R: Members> Members for (&'n str, T, R) {
    ghost members = { λ m. (m.0.now, T.json m.1) ∷ R.members m.2 };

    #[tactic(auto, unfolding(crate::specs::Tree::member_list_tokens))]
    fn add(&self, out: &mut Writer, alloc: Global) -> Put {
        out.key(self.0)?;
        self.1.put(out, alloc)?;
        self.2.add(out, alloc)
    }
}

// Members, and others after them.
impl<A: Members, B: Members> Members for (A, B) {
    ghost members = { λ m. A.members m.0 ++ B.members m.1 };

    #[tactic(auto, using(crate::proofs::Tokens::more))]
    fn add(&self, out: &mut Writer, alloc: Global) -> Put {
        self.0.add(out, alloc)?;
        self.1.add(out, alloc)
    }
}

impl<'l, M: Members> Members for &'l M {
    ghost members = { λ m. M.members m.now };

    fn add(&self, out: &mut Writer, alloc: Global) -> Put {
        (**self).add(out, alloc)
    }
}

// ---- values without parts

// `null`.
impl ToJson for () {
    ghost json = { λ _. null };

    fn put(&self, out: &mut Writer, _alloc: Global) -> Put {
        out.null()
    }
}

impl ToJson for bool {
    ghost json = { boolean };

    fn put(&self, out: &mut Writer, _alloc: Global) -> Put {
        out.boolean(*self)
    }
}

// A byte of code, in decimal.
impl ToJson for u8 {
    ghost json = { count };

    fn put(&self, out: &mut Writer, _alloc: Global) -> Put {
        out.u64(*self as u64)
    }
}

// An id or a number of a line, in decimal.
impl ToJson for u32 {
    ghost json = { count };

    fn put(&self, out: &mut Writer, _alloc: Global) -> Put {
        out.u64(*self as u64)
    }
}

// A count or an index, in decimal.
impl ToJson for usize {
    ghost json = { count };

    fn put(&self, out: &mut Writer, _alloc: Global) -> Put {
        out.u64(*self as u64)
    }
}

// An address, an offset or a code, in hexadecimal, as the text `"0x1f"`.
impl ToJson for u64 {
    ghost json = { hex_string };

    #[tactic(auto, unfolding(crate::specs::Tree::hex_text))]
    fn put(&self, out: &mut Writer, alloc: Global) -> Put {
        let text = format_pieces(alloc, &[Piece::Hex(*self)])?;
        out.string(text.as_str())
    }
}

/// A size or a count of 64 bits in decimal, or `null`.
#[derive(Clone, Copy)]
pub(crate) struct Decimal(pub(crate) Option<u64>);

impl ToJson for Decimal {
    ghost json = { λ d. or_null count d.0 };

    fn put(&self, out: &mut Writer, _alloc: Global) -> Put {
        match self.0 {
            Some(number) => out.u64(number),
            None => out.null(),
        }
    }
}

impl<'l> ToJson for &'l str {
    ghost json = { λ text. string text.now };

    fn put(&self, out: &mut Writer, _alloc: Global) -> Put {
        out.string(*self)
    }
}

impl ToJson for String {
    ghost json = { λ text. string (string_bytes text) };

    fn put(&self, out: &mut Writer, _alloc: Global) -> Put {
        out.string(self.as_str())
    }
}

// A text that Linux wrote: what isn't UTF-8 is U+FFFD.
impl ToJson for LinuxOsStr<'_> {
    ghost use Rattle.std.specs.Str.Lossy.{utf8_lossy};
    ghost use Rattle.minidump_bytes.specs.LinuxOsStr.{text_of};

    ghost json = { λ text. string (utf8_lossy (text_of text)) };

    fn put(&self, out: &mut Writer, alloc: Global) -> Put {
        let text = self.to_string_lossy(alloc)?;
        out.string(text.as_str())
    }
}

// ---- values of others

impl<'l, T: ToJson> ToJson for &'l T {
    ghost json = { λ item. T.json item.now };

    fn put(&self, out: &mut Writer, alloc: Global) -> Put {
        (**self).put(out, alloc)
    }
}

// A value, or `null`.
impl<T: ToJson> ToJson for Option<T> {
    ghost json = { or_null T.json };

    fn put(&self, out: &mut Writer, alloc: Global) -> Put {
        match self {
            Some(item) => item.put(out, alloc),
            None => out.null(),
        }
    }
}

// The value of a stream, or `null` if it can't be read.
impl<T: ToJson> ToJson for Result<T, Error> {
    ghost json = { λ found. or_null T.json (result_ok found) };

    fn put(&self, out: &mut Writer, alloc: Global) -> Put {
        match self {
            Ok(item) => item.put(out, alloc),
            Err(_) => out.null(),
        }
    }
}

// ---- lists

impl<'l, T: ToJson> ToJson for &'l [T] {
    ghost json = { λ items. array_of T.json items.now };

    fn put(&self, out: &mut Writer, alloc: Global) -> Put {
        let items = *self;
        out.begin_array()?;
        for x in items {
            x.put(out, alloc)?;
        }
        out.end_array()
    }
}

impl<T: ToJson> ToJson for Vec<T> {
    ghost json = { λ items. array_of T.json items.items };

    fn put(&self, out: &mut Writer, alloc: Global) -> Put {
        self.as_slice().put(out, alloc)
    }
}

/// How many items a list has.
#[derive(Clone, Copy)]
pub(crate) struct Length<'l, T>(pub(crate) &'l Vec<T>);

impl<T> ToJson for Length<'_, T> {
    ghost json = { λ l. count (length l.0.now.items) };

    fn put(&self, out: &mut Writer, _alloc: Global) -> Put {
        out.u64(self.0.len() as u64)
    }
}

/// Gives the items of a list their JSON values, by their numbers, from 0 on.
pub(crate) trait NumberedJson<X> {
    ghost json_at: { Self → ℕ → X → Json };

    /// Puts the value of an item.
    fn put_at(&self, number: usize, item: &X, out: &mut Writer, alloc: Global) -> Put
        ensures { Puts result out.old out.new (json_at self.now number item.now) };
}

/// The items of a list, whose values may depend on their numbers.
#[derive(Clone, Copy)]
pub(crate) struct Numbered<'l, X, F>(pub(crate) &'l Vec<X>, pub(crate) &'l F);

impl<X, F: NumberedJson<X>> ToJson for Numbered<'_, X, F> {
    ghost json = { λ n. numbered_array_of (F.json_at n.1.now) n.0.now.items };

    fn put(&self, out: &mut Writer, alloc: Global) -> Put {
        let by = self.1;
        let items = self.0.as_slice();
        out.begin_array()?;
        for (number, x) in items.iter().enumerate() {
            by.put_at(number, x, out, alloc)?;
        }
        out.end_array()
    }
}
