ghost use Rattle.std.specs.Prelude.{◌≡◌};
ghost use Rattle.std.specs.Iterator.{YieldsFirst, item_count};
ghost use Rattle.minidump_format.specs.Xstate.{xstate_features, features_left, feature_of};
ghost use Rattle.minidump_format.specs.Xstate.{index_name, index_of};

use super::{XSTATE_CONFIG_FEATURE_MSC_INFO, XSTATE_FEATURE};

impl XSTATE_CONFIG_FEATURE_MSC_INFO {
    /// Returns an iterator over the enabled features, each with its index, ascending.
    pub fn iter(&self) -> XstateFeatures<'_>
        ensures { features_left result ≡ xstate_features self.now }
    {
        XstateFeatures {
            config: self,
            index: 0,
        }
    }
}

/// An iterator over the enabled features of an [`XSTATE_CONFIG_FEATURE_MSC_INFO`], each with its
/// index, ascending.
#[derive(Drop)]
pub struct XstateFeatures<'a> {
    config: &'a XSTATE_CONFIG_FEATURE_MSC_INFO,
    /// The next index.
    index: usize,
}

impl<'a> Iterator for XstateFeatures<'a> {
    type Item = (usize, XSTATE_FEATURE);

    ghost next_gives = { YieldsFirst features_left };

    ghost remaining = { item_count features_left };

    fn next(&mut self) -> Option<(usize, XSTATE_FEATURE)> {
        let features: &[XSTATE_FEATURE] = &self.config.features;
        while self.index < features.len() {
            let index = self.index;
            self.index += 1;
            if (self.config.enabled_features >> index) & 1 == 1 {
                return Some((index, features[index]));
            }
        }
        None
    }
}

/// The named features of a processor's extended state: Microsoft's `XSTATE_` numbers.
#[allow(non_camel_case_types)]
#[derive(Clone, Copy, Debug, PartialEq, Eq)]
pub enum XstateFeatureIndex {
    /// The x87 state.
    LEGACY_FLOATING_POINT = 0,
    /// The SSE state.
    LEGACY_SSE = 1,
    /// The AVX state: the upper halves of the registers `ymm0` to `ymm15`.
    GSSE = 2,
    /// The bounds registers of MPX.
    MPX_BNDREGS = 3,
    /// The configuration and status registers of MPX.
    MPX_BNDCSR = 4,
    /// The mask registers of AVX-512.
    AVX512_KMASK = 5,
    /// The upper halves of the registers `zmm0` to `zmm15`.
    AVX512_ZMM_H = 6,
    /// The registers `zmm16` to `zmm31`.
    AVX512_ZMM = 7,
    /// The state of Intel Processor Trace.
    XSTATE_IPT = 8,
    /// The state of AMD's Lightweight Profiling.
    LWP = 62,
}

impl XstateFeatureIndex {
    /// Returns the named feature with this index, or `None` if there is none.
    pub fn from_index(index: usize) -> Option<XstateFeatureIndex>
        ensures { result ≡ feature_of index }
    {
        Some(match index {
            0 => XstateFeatureIndex::LEGACY_FLOATING_POINT,
            1 => XstateFeatureIndex::LEGACY_SSE,
            2 => XstateFeatureIndex::GSSE,
            3 => XstateFeatureIndex::MPX_BNDREGS,
            4 => XstateFeatureIndex::MPX_BNDCSR,
            5 => XstateFeatureIndex::AVX512_KMASK,
            6 => XstateFeatureIndex::AVX512_ZMM_H,
            7 => XstateFeatureIndex::AVX512_ZMM,
            8 => XstateFeatureIndex::XSTATE_IPT,
            62 => XstateFeatureIndex::LWP,
            _ => return None,
        })
    }

    /// Returns the index of the feature.
    pub fn number(self) -> usize
        ensures { result ≡ index_of self }
    {
        self as usize
    }

    /// Returns the name of the feature, as it stands in this enum.
    pub fn name(self) -> &'static str
        ensures { result.now ≡ index_name self }
    {
        match self {
            XstateFeatureIndex::LEGACY_FLOATING_POINT => "LEGACY_FLOATING_POINT",
            XstateFeatureIndex::LEGACY_SSE => "LEGACY_SSE",
            XstateFeatureIndex::GSSE => "GSSE",
            XstateFeatureIndex::MPX_BNDREGS => "MPX_BNDREGS",
            XstateFeatureIndex::MPX_BNDCSR => "MPX_BNDCSR",
            XstateFeatureIndex::AVX512_KMASK => "AVX512_KMASK",
            XstateFeatureIndex::AVX512_ZMM_H => "AVX512_ZMM_H",
            XstateFeatureIndex::AVX512_ZMM => "AVX512_ZMM",
            XstateFeatureIndex::XSTATE_IPT => "XSTATE_IPT",
            XstateFeatureIndex::LWP => "LWP",
        }
    }
}
