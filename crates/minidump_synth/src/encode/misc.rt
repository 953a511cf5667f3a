use super::Encode;
use crate::Section;
use minidump_format::format::{
    MINIDUMP_MISC_INFO, MINIDUMP_MISC_INFO_2, MINIDUMP_MISC_INFO_3, MINIDUMP_MISC_INFO_4,
    MINIDUMP_MISC_INFO_5, SYSTEMTIME, TIME_ZONE_INFORMATION, XSTATE_CONFIG_FEATURE_MSC_INFO,
    XSTATE_FEATURE,
};

// Writes the fields of a layout: those of the one before it, and its own.
macro_rules! fields {
    (1, $raw:ident, $into:ident) => {
        $into
            .u32($raw.size_of_info)
            .u32($raw.flags1)
            .u32($raw.process_id)
            .u32($raw.process_create_time)
            .u32($raw.process_user_time)
            .u32($raw.process_kernel_time)
    };
    (2, $raw:ident, $into:ident) => {
        fields!(1, $raw, $into)
            .u32($raw.processor_max_mhz)
            .u32($raw.processor_current_mhz)
            .u32($raw.processor_mhz_limit)
            .u32($raw.processor_max_idle_state)
            .u32($raw.processor_current_idle_state)
    };
    (3, $raw:ident, $into:ident) => {
        fields!(2, $raw, $into)
            .u32($raw.process_integrity_level)
            .u32($raw.process_execute_flags)
            .u32($raw.protected_process)
            .u32($raw.time_zone_id)
            .record(&$raw.time_zone)
    };
    (4, $raw:ident, $into:ident) => {
        fields!(3, $raw, $into)
            .records(&$raw.build_string)
            .records(&$raw.dbg_bld_str)
    };
    (5, $raw:ident, $into:ident) => {
        fields!(4, $raw, $into)
            .record(&$raw.xstate_data)
            .u32($raw.process_cookie)
    };
}

impl Encode for MINIDUMP_MISC_INFO {
    fn encode(&self, into: &mut Section) {
        fields!(1, self, into);
    }
}

impl Encode for MINIDUMP_MISC_INFO_2 {
    fn encode(&self, into: &mut Section) {
        fields!(2, self, into);
    }
}

impl Encode for SYSTEMTIME {
    fn encode(&self, into: &mut Section) {
        into.u16(self.year)
            .u16(self.month)
            .u16(self.day_of_week)
            .u16(self.day)
            .u16(self.hour)
            .u16(self.minute)
            .u16(self.second)
            .u16(self.milliseconds);
    }
}

impl Encode for TIME_ZONE_INFORMATION {
    fn encode(&self, into: &mut Section) {
        into.i32(self.bias)
            .records(&self.standard_name)
            .record(&self.standard_date)
            .i32(self.standard_bias)
            .records(&self.daylight_name)
            .record(&self.daylight_date)
            .i32(self.daylight_bias);
    }
}

impl Encode for MINIDUMP_MISC_INFO_3 {
    fn encode(&self, into: &mut Section) {
        fields!(3, self, into);
    }
}

impl Encode for MINIDUMP_MISC_INFO_4 {
    fn encode(&self, into: &mut Section) {
        fields!(4, self, into);
    }
}

impl Encode for XSTATE_FEATURE {
    fn encode(&self, into: &mut Section) {
        into.u32(self.offset).u32(self.size);
    }
}

impl Encode for XSTATE_CONFIG_FEATURE_MSC_INFO {
    fn encode(&self, into: &mut Section) {
        into.u32(self.size_of_info)
            .u32(self.context_size)
            .u64(self.enabled_features)
            .records(&self.features);
    }
}

impl Encode for MINIDUMP_MISC_INFO_5 {
    fn encode(&self, into: &mut Section) {
        fields!(5, self, into);
    }
}
