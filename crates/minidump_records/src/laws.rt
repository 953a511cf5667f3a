//! Laws of the streams of this crate, over the definitions that their contracts cite.
ghost use Rattle.std.specs.Prelude.{◌≡◌, ◌≢◌, ◌↔◌, ◌<◌, ◌^◌, ◌++◌, ◌∷◌, ℕ, All, List, None, Some, map};
ghost use Rattle.minidump_bytes.specs.declared.endian.Endian.{Endian};
ghost use Rattle.minidump_format.specs.declared.format.crashpad.MINIDUMP_ANNOTATION.{MINIDUMP_ANNOTATION};
ghost use Rattle.minidump_system.specs.Meaning.{DependsOnItsBytesAlone};
ghost use Rattle.minidump_records.specs.declared.thread_info.MinidumpThreadInfo.{MinidumpThreadInfo};
ghost use Rattle.minidump_records.specs.declared.breakpad_info.MinidumpBreakpadInfo.{MinidumpBreakpadInfo};
ghost use Rattle.minidump_records.specs.Bounds.{CrashpadIsWithin, HandlesAreWithin, IsBoundedByTheFile};
ghost use Rattle.minidump_records.specs.Crashpad.Annotations.{Annotation, AreSame, unsupported, user_defined};
ghost use Rattle.minidump_records.specs.Handles.{chain_offsets, object_chain};
ghost use Rattle.minidump_system.specs.LastValues.{IsDictionaryOf, dictionary_of};
ghost use Rattle.minidump_records.specs.ThreadInfo.{last_info};
ghost use Rattle.minidump_records.specs.ThreadNames.{ThreadName, last_name_of_each_thread, name_of_thread};
ghost use Rattle.minidump_records.specs.declared.handles.information.MinidumpHandleObjectInformation.{};
ghost use Rattle.minidump_records.specs.declared.handles.information.MinidumpHandleObjectInformation.{MinidumpHandleObjectInformation};
ghost use Rattle.minidump_records.specs.declared.handles.raw.RawHandleDescriptor.{RawHandleDescriptor};
ghost use Rattle.minidump_system.specs.Chain.{IsChain};
ghost use Rattle.minidump_records.specs.Handles.ObjectChain.{information_at, next_of};

use crate::linux::{CpuInfo, Environ, LinuxPairsFile, LsbRelease, ProcStatus};
use crate::{
    MinidumpAssertion, MinidumpBreakpadInfo, MinidumpCrashpadInfo, MinidumpHandleDataStream,
    MinidumpHandleObjectInformation, MinidumpLinuxCpuInfo, MinidumpLinuxEnviron,
    MinidumpLinuxLsbRelease, MinidumpLinuxProcLimits, MinidumpLinuxProcStatus, MinidumpSoftErrors,
    MinidumpThreadInfo, MinidumpThreadInfoList, RawHandleDescriptor,
};
use minidump_system::MinidumpStream;

/// In a dictionary the keys ascend by their bytes, and each key has the value of its last pair. No
/// other list of entries does this.
pub fn dictionaries_have_the_last_values()
    ensures texts { (pairs es : List (List ℕ × List ℕ)) → IsDictionaryOf pairs es
        ↔ (es ≡ dictionary_of pairs) }
    ensures annotations { (pairs es : List (List ℕ × Annotation)) → IsDictionaryOf pairs es
        ↔ (es ≡ dictionary_of pairs) }
{}

/// `same_as` is no equality: an annotation whose value is not read is never the same as itself.
pub fn an_annotation_need_not_be_the_same_as_itself()
    ensures user_defined { (raw : MINIDUMP_ANNOTATION)
        → AreSame (user_defined raw) (user_defined raw) → ⊥ }
    ensures unsupported { (raw : MINIDUMP_ANNOTATION) → AreSame (unsupported raw) (unsupported raw)
        → ⊥ }
{}

/// If several names have the id of a thread, the last one is kept. A thread whose id no name has
/// gets none.
pub fn last_name_of_a_thread_is_kept()
    ensures last { (before later : List ThreadName) (n : ThreadName) → n.0 < 2 ^ 32
        → All (λ x. x.0 ≢ n.0) later
        → name_of_thread (last_name_of_each_thread (2 ^ 32) (before ++ (n ∷ later))) n.0
        ≡ Some n.1 }
    ensures none { (names : List ThreadName) (id : ℕ) → id < 2 ^ 32
        → All (λ x. x.0 ≢ id) names → name_of_thread (last_name_of_each_thread (2 ^ 32) names) id
        ≡ None }
{}

/// If several entries have the id of a thread, the last one is found. For an id that no entry has,
/// none is.
pub fn last_info_of_a_thread_is_found()
    ensures last { (before later : List MinidumpThreadInfo) (i : MinidumpThreadInfo)
        → All (λ x. x.raw.thread_id ≢ i.raw.thread_id) later
        → last_info (before ++ (i ∷ later)) i.raw.thread_id ≡ Some i }
    ensures none { (infos : List MinidumpThreadInfo) (id : ℕ)
        → All (λ x. x.raw.thread_id ≢ id) infos → last_info infos id ≡ None }
{}

/// What these streams mean depends on their bytes and the byte order alone, not on the rest of the
/// file or the system information.
pub fn streams_depend_on_their_bytes_alone()
    ensures thread_infos { DependsOnItsBytesAlone ⟦<MinidumpThreadInfoList as MinidumpStream<'static>>⟧.spec.meaning }
    ensures breakpad_info { DependsOnItsBytesAlone ⟦<MinidumpBreakpadInfo as MinidumpStream<'static>>⟧.spec.meaning }
    ensures assertion { DependsOnItsBytesAlone ⟦<MinidumpAssertion as MinidumpStream<'static>>⟧.spec.meaning }
    ensures soft_errors { DependsOnItsBytesAlone ⟦<MinidumpSoftErrors<'static> as MinidumpStream<'static>>⟧.spec.meaning }
    ensures cpu_info { DependsOnItsBytesAlone ⟦<MinidumpLinuxCpuInfo<'static> as MinidumpStream<'static>>⟧.spec.meaning }
    ensures proc_status { DependsOnItsBytesAlone ⟦<MinidumpLinuxProcStatus<'static> as MinidumpStream<'static>>⟧.spec.meaning }
    ensures lsb_release { DependsOnItsBytesAlone ⟦<MinidumpLinuxLsbRelease<'static> as MinidumpStream<'static>>⟧.spec.meaning }
    ensures environ { DependsOnItsBytesAlone ⟦<MinidumpLinuxEnviron<'static> as MinidumpStream<'static>>⟧.spec.meaning }
    ensures proc_limits { DependsOnItsBytesAlone ⟦<MinidumpLinuxProcLimits<'static> as MinidumpStream<'static>>⟧.spec.meaning }
{}

/// A clone of Breakpad's information is the same value.
pub fn breakpad_info_clones_are_the_same()
    ensures { (x y : MinidumpBreakpadInfo) → ⟦<MinidumpBreakpadInfo as Clone>⟧.is_clone x y → y
        ≡ x }
{}

/// The byte between the key and the value of a line: a colon in the texts of cpuinfo and status, an
/// equals sign in those of lsb-release and the environment.
pub fn linux_pairs_have_their_separators()
    ensures cpu_info { ⟦<CpuInfo as LinuxPairsFile>⟧.SEPARATOR ≡ 58 }
    ensures proc_status { ⟦<ProcStatus as LinuxPairsFile>⟧.SEPARATOR ≡ 58 }
    ensures lsb_release { ⟦<LsbRelease as LinuxPairsFile>⟧.SEPARATOR ≡ 61 }
    ensures environ { ⟦<Environ as LinuxPairsFile>⟧.SEPARATOR ≡ 61 }
{}

/// The pieces of information on an object are at the longest list of distinct offsets that begins
/// at a link, where each later offset is the one that the piece before it names. There is a piece
/// at each of these offsets.
pub fn object_chain_is_the_longest()
    ensures offsets { (order : Endian) (file : List ℕ) (link : ℕ)
        → IsChain (information_at order file) next_of link (chain_offsets order file link) }
    ensures pieces { (order : Endian) (file : List ℕ) (link : ℕ)
        → map (information_at order file) (chain_offsets order file link)
        ≡ map Some (object_chain order file link) }
{}

/// The list of offsets that `object_chain_is_the_longest` describes is the only one.
#[tactic(auto, using(minidump_system::proofs::OneChain::chain_is_one))]
pub fn object_chain_is_one()
    ensures { (order : Endian) (file : List ℕ) (link : ℕ) (offsets other : List ℕ)
        → IsChain (information_at order file) next_of link offsets
        → IsChain (information_at order file) next_of link other → other ≡ offsets }
{}

/// The length of a file bounds how many handles it has, how many pieces of information on an
/// object, how many links to modules in Crashpad's list, and how many texts in the list of a
/// module: also where a chain runs in a circle, entries share bytes, or a count is forged.
pub fn values_are_bounded_by_the_file()
    ensures handles { IsBoundedByTheFile ⟦<MinidumpHandleDataStream as MinidumpStream<'static>>⟧.spec.meaning HandlesAreWithin }
    ensures crashpad { IsBoundedByTheFile ⟦<MinidumpCrashpadInfo as MinidumpStream<'static>>⟧.spec.meaning CrashpadIsWithin }
{}

/// A clone of a raw descriptor of a handle, or of a piece of information on its object, is the same
/// value.
pub fn handle_clones_are_the_same()
    ensures raw { (x y : RawHandleDescriptor) → ⟦<RawHandleDescriptor as Clone>⟧.is_clone x y → y
        ≡ x }
    ensures information { (x y : MinidumpHandleObjectInformation)
        → ⟦<MinidumpHandleObjectInformation as Clone>⟧.is_clone x y → y ≡ x }
{}
