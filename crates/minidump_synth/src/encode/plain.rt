use super::Encode;
use crate::Section;

impl Encode for u8 {
    fn encode(&self, into: &mut Section) {
        into.u8(*self);
    }
}

impl Encode for u16 {
    fn encode(&self, into: &mut Section) {
        into.u16(*self);
    }
}

impl Encode for u32 {
    fn encode(&self, into: &mut Section) {
        into.u32(*self);
    }
}

impl Encode for u64 {
    fn encode(&self, into: &mut Section) {
        into.u64(*self);
    }
}

impl Encode for u128 {
    fn encode(&self, into: &mut Section) {
        into.u128(*self);
    }
}

impl Encode for &[u8] {
    fn encode(&self, into: &mut Section) {
        into.bytes(self);
    }
}

impl<const N: usize> Encode for [u8; N] {
    fn encode(&self, into: &mut Section) {
        into.bytes(self);
    }
}

impl Encode for Vec<u8> {
    fn encode(&self, into: &mut Section) {
        into.bytes(self);
    }
}

impl Encode for Section {
    fn encode(&self, into: &mut Section) {
        into.append(self);
    }
}
