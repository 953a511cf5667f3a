ghost use Rattle.std.specs.Prelude.{◌≡◌, ◌↔◌, IfOk, IsOkUnless, IsTrue, OnErr};
ghost use Rattle.minidump_records.specs.Crashpad.Annotations.{AreSame, IsText, annotation_of};

use super::dictionary::DictionaryValue;
use minidump_bytes::{Endian, Source, Steps};
use minidump_format::Error;
use minidump_format::format::MINIDUMP_ANNOTATION;
use std::alloc::Global;

/// The value of a named annotation of a module.
#[derive(Drop)]
pub enum MinidumpAnnotation {
    /// No value.
    Invalid,
    /// A text.
    String(String),
    /// A value of a type from 0x8000 on. Such types are the choice of the program that crashed.
    UserDefined(MINIDUMP_ANNOTATION),
    /// A value of another type.
    Unsupported(MINIDUMP_ANNOTATION),
}

impl MinidumpAnnotation {
    /// Returns `true` if both are `Invalid`, or are equal texts. This is no equality: an annotation
    /// of another kind is not the same as itself, since its value is not read.
    pub fn same_as(&self, other: &MinidumpAnnotation) -> bool
        ensures { IsTrue result ↔ AreSame (annotation_of self.now) (annotation_of other.now) }
    {
        match (self, other) {
            (MinidumpAnnotation::Invalid, MinidumpAnnotation::Invalid) => true,
            (MinidumpAnnotation::String(text), MinidumpAnnotation::String(other)) => text == other,
            _ => false,
        }
    }

    /// Copies the annotation. The only error is [`Error::OutOfMemory`], and only if it is a text.
    pub fn try_clone(&self, alloc: Global) -> Result<MinidumpAnnotation, Error>
        ensures same { IfOk result (λ copy. annotation_of copy ≡ annotation_of self.now) }
        ensures memory { IsOkUnless result Error.OutOfMemory }
        ensures some { OnErr result (IsText (annotation_of self.now)) }
    {
        Ok(match self {
            MinidumpAnnotation::Invalid => MinidumpAnnotation::Invalid,
            MinidumpAnnotation::String(text) => {
                MinidumpAnnotation::String(String::from_str(alloc, text.as_str())?)
            }
            MinidumpAnnotation::UserDefined(raw) => MinidumpAnnotation::UserDefined(*raw),
            MinidumpAnnotation::Unsupported(raw) => MinidumpAnnotation::Unsupported(*raw),
        })
    }
}

/// Reads the value of an annotation by its type.
impl DictionaryValue<MINIDUMP_ANNOTATION> for MinidumpAnnotation {
    ghost use Rattle.minidump_records.specs.Crashpad.Annotations.{Annotation, annotation_in, annotation_of};
    ghost use Rattle.minidump_records.specs.Crashpad.Annotations.{annotation_reads};

    ghost Value = { Annotation };

    ghost value = { annotation_of };

    ghost key = { λ e. e.name };

    ghost part = { annotation_in };

    ghost fewest = { annotation_reads };

    fn key_of(entry: &MINIDUMP_ANNOTATION) -> u32 {
        entry.name
    }

    fn read_value(
        alloc: Global,
        entry: &MINIDUMP_ANNOTATION,
        all: Source<'_>,
        endian: Endian,
        steps: &mut Steps,
    ) -> Result<Self, Error> {
        match entry.ty {
            MINIDUMP_ANNOTATION::TYPE_INVALID => Ok(MinidumpAnnotation::Invalid),
            MINIDUMP_ANNOTATION::TYPE_STRING => {
                let text = all
                    .text8(entry.value as u64, endian, steps)
                    .ok_or(Error::StreamReadFailure)?;
                Ok(MinidumpAnnotation::String(String::from_str(alloc, text)?))
            }
            MINIDUMP_ANNOTATION::TYPE_USER_DEFINED.. => Ok(MinidumpAnnotation::UserDefined(*entry)),
            _ => Ok(MinidumpAnnotation::Unsupported(*entry)),
        }
    }
}
