ghost use Rattle.std.proofs.Common.{rules};

use minidump_bytes::{Endian, Record, array_at};

/// Information on the process, in the first layout: Microsoft's `MINIDUMP_MISC_INFO`.
#[derive(Clone, Copy, PartialEq, Eq)]
pub struct MINIDUMP_MISC_INFO {
    /// The size of the record as its writer states it. The layout is chosen by the stream's length
    /// instead.
    pub size_of_info: u32,
    /// Which of the other fields are set: [`MiscInfoFlags`](super::MiscInfoFlags), as a number.
    pub flags1: u32,
    /// The id of the process.
    pub process_id: u32,
    /// The time at which the process began, in seconds since 1970.
    pub process_create_time: u32,
    /// The time for which the process ran in user mode, in seconds.
    pub process_user_time: u32,
    /// The time for which the process ran in kernel mode, in seconds.
    pub process_kernel_time: u32,
}

impl Record for MINIDUMP_MISC_INFO {
    ghost use Rattle.minidump_format.specs.Misc.{misc_info};

    ghost SIZE = { 24 };

    const SIZE: usize = 24;

    ghost layout = { misc_info };

    fn decode(bytes: &[u8], endian: Endian) -> Self {
        MINIDUMP_MISC_INFO {
            size_of_info: endian.u32_at(bytes, 0),
            flags1: endian.u32_at(bytes, 4),
            process_id: endian.u32_at(bytes, 8),
            process_create_time: endian.u32_at(bytes, 12),
            process_user_time: endian.u32_at(bytes, 16),
            process_kernel_time: endian.u32_at(bytes, 20),
        }
    }

    ghost fits = { Prim.search rules };
}

/// The second layout, with the clock rates of the processors: Microsoft's `MINIDUMP_MISC_INFO_2`.
#[derive(Clone, Copy, PartialEq, Eq)]
pub struct MINIDUMP_MISC_INFO_2 {
    /// The size of the record as its writer states it. The layout is chosen by the stream's length
    /// instead.
    pub size_of_info: u32,
    /// Which of the other fields are set: [`MiscInfoFlags`](super::MiscInfoFlags), as a number.
    pub flags1: u32,
    /// The id of the process.
    pub process_id: u32,
    /// The time at which the process began, in seconds since 1970.
    pub process_create_time: u32,
    /// The time for which the process ran in user mode, in seconds.
    pub process_user_time: u32,
    /// The time for which the process ran in kernel mode, in seconds.
    pub process_kernel_time: u32,
    /// The processor's highest clock rate in MHz.
    pub processor_max_mhz: u32,
    /// The processor's current clock rate in MHz.
    pub processor_current_mhz: u32,
    /// The limit that the system sets to the clock rate, in MHz.
    pub processor_mhz_limit: u32,
    /// The processor's highest idle state.
    pub processor_max_idle_state: u32,
    /// The processor's current idle state.
    pub processor_current_idle_state: u32,
}

impl Record for MINIDUMP_MISC_INFO_2 {
    ghost use Rattle.minidump_format.specs.Misc.{misc_info_2};

    ghost SIZE = { 44 };

    const SIZE: usize = 44;

    ghost layout = { misc_info_2 };

    fn decode(bytes: &[u8], endian: Endian) -> Self {
        MINIDUMP_MISC_INFO_2 {
            size_of_info: endian.u32_at(bytes, 0),
            flags1: endian.u32_at(bytes, 4),
            process_id: endian.u32_at(bytes, 8),
            process_create_time: endian.u32_at(bytes, 12),
            process_user_time: endian.u32_at(bytes, 16),
            process_kernel_time: endian.u32_at(bytes, 20),
            processor_max_mhz: endian.u32_at(bytes, 24),
            processor_current_mhz: endian.u32_at(bytes, 28),
            processor_mhz_limit: endian.u32_at(bytes, 32),
            processor_max_idle_state: endian.u32_at(bytes, 36),
            processor_current_idle_state: endian.u32_at(bytes, 40),
        }
    }

    ghost fits = { Prim.search rules };
}

/// A date and time of day: Microsoft's `SYSTEMTIME`.
#[derive(Clone, Copy, PartialEq, Eq)]
pub struct SYSTEMTIME {
    /// The year; 0 in a time zone's date that recurs every year.
    pub year: u16,
    /// The month, 1 to 12; 0 in a time zone without daylight saving time.
    pub month: u16,
    /// The day of the week, 0 for Sunday.
    pub day_of_week: u16,
    /// The day of the month; in a date that recurs every year, which occurrence of `day_of_week` in
    /// the month, 5 for the last.
    pub day: u16,
    /// The hour, 0 to 23.
    pub hour: u16,
    /// The minute, 0 to 59.
    pub minute: u16,
    /// The second, 0 to 59.
    pub second: u16,
    /// The milliseconds, 0 to 999.
    pub milliseconds: u16,
}

impl Record for SYSTEMTIME {
    ghost use Rattle.minidump_format.specs.Misc.{system_time};

    ghost SIZE = { 16 };

    const SIZE: usize = 16;

    ghost layout = { system_time };

    fn decode(bytes: &[u8], endian: Endian) -> Self {
        SYSTEMTIME {
            year: endian.u16_at(bytes, 0),
            month: endian.u16_at(bytes, 2),
            day_of_week: endian.u16_at(bytes, 4),
            day: endian.u16_at(bytes, 6),
            hour: endian.u16_at(bytes, 8),
            minute: endian.u16_at(bytes, 10),
            second: endian.u16_at(bytes, 12),
            milliseconds: endian.u16_at(bytes, 14),
        }
    }

    ghost fits = { Prim.search rules };
}

/// A time zone: Microsoft's `TIME_ZONE_INFORMATION`.
#[derive(Clone, Copy, PartialEq, Eq)]
pub struct TIME_ZONE_INFORMATION {
    /// Minutes to add to local time for UTC.
    pub bias: i32,
    /// The name of standard time, in UTF-16, up to the first 0.
    pub standard_name: [u16; 32],
    /// When standard time begins.
    pub standard_date: SYSTEMTIME,
    /// Minutes to add to `bias` in standard time.
    pub standard_bias: i32,
    /// The name of daylight saving time, in UTF-16, up to the first 0.
    pub daylight_name: [u16; 32],
    /// When daylight saving time begins.
    pub daylight_date: SYSTEMTIME,
    /// Minutes to add to `bias` in daylight saving time.
    pub daylight_bias: i32,
}

impl Record for TIME_ZONE_INFORMATION {
    ghost use Rattle.minidump_format.specs.Misc.{time_zone};

    ghost SIZE = { 172 };

    const SIZE: usize = 172;

    ghost layout = { time_zone };

    fn decode(bytes: &[u8], endian: Endian) -> Self {
        TIME_ZONE_INFORMATION {
            bias: endian.i32_at(bytes, 0),
            standard_name: array_at(bytes, 4, endian),
            standard_date: SYSTEMTIME::decode(&bytes[68..84], endian),
            standard_bias: endian.i32_at(bytes, 84),
            daylight_name: array_at(bytes, 88, endian),
            daylight_date: SYSTEMTIME::decode(&bytes[152..168], endian),
            daylight_bias: endian.i32_at(bytes, 168),
        }
    }

    ghost fits = { Prim.search rules };
}

/// The third layout, with the time zone: Microsoft's `MINIDUMP_MISC_INFO_3`.
#[derive(Clone, Copy, PartialEq, Eq)]
pub struct MINIDUMP_MISC_INFO_3 {
    /// The size of the record as its writer states it. The layout is chosen by the stream's length
    /// instead.
    pub size_of_info: u32,
    /// Which of the other fields are set: [`MiscInfoFlags`](super::MiscInfoFlags), as a number.
    pub flags1: u32,
    /// The id of the process.
    pub process_id: u32,
    /// The time at which the process began, in seconds since 1970.
    pub process_create_time: u32,
    /// The time for which the process ran in user mode, in seconds.
    pub process_user_time: u32,
    /// The time for which the process ran in kernel mode, in seconds.
    pub process_kernel_time: u32,
    /// The processor's highest clock rate in MHz.
    pub processor_max_mhz: u32,
    /// The processor's current clock rate in MHz.
    pub processor_current_mhz: u32,
    /// The limit that the system sets to the clock rate, in MHz.
    pub processor_mhz_limit: u32,
    /// The processor's highest idle state.
    pub processor_max_idle_state: u32,
    /// The processor's current idle state.
    pub processor_current_idle_state: u32,
    /// The integrity level of the process.
    pub process_integrity_level: u32,
    /// The execute flags of the process.
    pub process_execute_flags: u32,
    /// Whether the process is protected.
    pub protected_process: u32,
    /// The time zone id: 0 no daylight saving time, 1 standard time, 2 daylight saving time.
    pub time_zone_id: u32,
    /// The time zone.
    pub time_zone: TIME_ZONE_INFORMATION,
}

impl Record for MINIDUMP_MISC_INFO_3 {
    ghost use Rattle.minidump_format.specs.Misc.{misc_info_3};

    ghost SIZE = { 232 };

    const SIZE: usize = 232;

    ghost layout = { misc_info_3 };

    fn decode(bytes: &[u8], endian: Endian) -> Self {
        MINIDUMP_MISC_INFO_3 {
            size_of_info: endian.u32_at(bytes, 0),
            flags1: endian.u32_at(bytes, 4),
            process_id: endian.u32_at(bytes, 8),
            process_create_time: endian.u32_at(bytes, 12),
            process_user_time: endian.u32_at(bytes, 16),
            process_kernel_time: endian.u32_at(bytes, 20),
            processor_max_mhz: endian.u32_at(bytes, 24),
            processor_current_mhz: endian.u32_at(bytes, 28),
            processor_mhz_limit: endian.u32_at(bytes, 32),
            processor_max_idle_state: endian.u32_at(bytes, 36),
            processor_current_idle_state: endian.u32_at(bytes, 40),
            process_integrity_level: endian.u32_at(bytes, 44),
            process_execute_flags: endian.u32_at(bytes, 48),
            protected_process: endian.u32_at(bytes, 52),
            time_zone_id: endian.u32_at(bytes, 56),
            time_zone: TIME_ZONE_INFORMATION::decode(&bytes[60..232], endian),
        }
    }

    ghost fits = { Prim.search rules };
}

/// The fourth layout, with the builds: Microsoft's `MINIDUMP_MISC_INFO_4`.
#[derive(Clone, Copy, PartialEq, Eq)]
pub struct MINIDUMP_MISC_INFO_4 {
    /// The size of the record as its writer states it. The layout is chosen by the stream's length
    /// instead.
    pub size_of_info: u32,
    /// Which of the other fields are set: [`MiscInfoFlags`](super::MiscInfoFlags), as a number.
    pub flags1: u32,
    /// The id of the process.
    pub process_id: u32,
    /// The time at which the process began, in seconds since 1970.
    pub process_create_time: u32,
    /// The time for which the process ran in user mode, in seconds.
    pub process_user_time: u32,
    /// The time for which the process ran in kernel mode, in seconds.
    pub process_kernel_time: u32,
    /// The processor's highest clock rate in MHz.
    pub processor_max_mhz: u32,
    /// The processor's current clock rate in MHz.
    pub processor_current_mhz: u32,
    /// The limit that the system sets to the clock rate, in MHz.
    pub processor_mhz_limit: u32,
    /// The processor's highest idle state.
    pub processor_max_idle_state: u32,
    /// The processor's current idle state.
    pub processor_current_idle_state: u32,
    /// The integrity level of the process.
    pub process_integrity_level: u32,
    /// The execute flags of the process.
    pub process_execute_flags: u32,
    /// Whether the process is protected.
    pub protected_process: u32,
    /// The time zone id: 0 no daylight saving time, 1 standard time, 2 daylight saving time.
    pub time_zone_id: u32,
    /// The time zone.
    pub time_zone: TIME_ZONE_INFORMATION,
    /// The build of the system, in UTF-16, up to the first 0.
    pub build_string: [u16; 260],
    /// The build of the library that wrote the dump, in UTF-16, up to the first 0.
    pub dbg_bld_str: [u16; 40],
}

impl Record for MINIDUMP_MISC_INFO_4 {
    ghost use Rattle.minidump_format.specs.Misc.{misc_info_4};

    ghost SIZE = { 832 };

    const SIZE: usize = 832;

    ghost layout = { misc_info_4 };

    fn decode(bytes: &[u8], endian: Endian) -> Self {
        MINIDUMP_MISC_INFO_4 {
            size_of_info: endian.u32_at(bytes, 0),
            flags1: endian.u32_at(bytes, 4),
            process_id: endian.u32_at(bytes, 8),
            process_create_time: endian.u32_at(bytes, 12),
            process_user_time: endian.u32_at(bytes, 16),
            process_kernel_time: endian.u32_at(bytes, 20),
            processor_max_mhz: endian.u32_at(bytes, 24),
            processor_current_mhz: endian.u32_at(bytes, 28),
            processor_mhz_limit: endian.u32_at(bytes, 32),
            processor_max_idle_state: endian.u32_at(bytes, 36),
            processor_current_idle_state: endian.u32_at(bytes, 40),
            process_integrity_level: endian.u32_at(bytes, 44),
            process_execute_flags: endian.u32_at(bytes, 48),
            protected_process: endian.u32_at(bytes, 52),
            time_zone_id: endian.u32_at(bytes, 56),
            time_zone: TIME_ZONE_INFORMATION::decode(&bytes[60..232], endian),
            build_string: array_at(bytes, 232, endian),
            dbg_bld_str: array_at(bytes, 752, endian),
        }
    }

    ghost fits = { Prim.search rules };
}

/// The offset and the size of a feature in the extended state: Microsoft's `XSTATE_FEATURE`.
#[derive(Clone, Copy, PartialEq, Eq)]
pub struct XSTATE_FEATURE {
    /// The offset of its state in the extended state.
    pub offset: u32,
    /// The number of bytes of its state.
    pub size: u32,
}

impl Record for XSTATE_FEATURE {
    ghost use Rattle.minidump_format.specs.Misc.{xstate_feature};

    ghost SIZE = { 8 };

    const SIZE: usize = 8;

    ghost layout = { xstate_feature };

    fn decode(bytes: &[u8], endian: Endian) -> Self {
        XSTATE_FEATURE {
            offset: endian.u32_at(bytes, 0),
            size: endian.u32_at(bytes, 4),
        }
    }

    ghost fits = { Prim.search rules };
}

/// The layout of a processor's extended state: Microsoft's `XSTATE_CONFIG_FEATURE_MSC_INFO`.
#[derive(Clone, Copy, PartialEq, Eq)]
pub struct XSTATE_CONFIG_FEATURE_MSC_INFO {
    /// The size of the record as its writer states it.
    pub size_of_info: u32,
    /// The number of bytes of the extended state.
    pub context_size: u32,
    /// The enabled features, a bit for each index.
    pub enabled_features: u64,
    /// The offsets and sizes of the features by index,
    /// [`XstateFeatureIndex`](super::XstateFeatureIndex).
    pub features: [XSTATE_FEATURE; 64],
}

impl Record for XSTATE_CONFIG_FEATURE_MSC_INFO {
    ghost use Rattle.minidump_format.specs.Misc.{xstate_config};

    ghost SIZE = { 528 };

    const SIZE: usize = 528;

    ghost layout = { xstate_config };

    fn decode(bytes: &[u8], endian: Endian) -> Self {
        XSTATE_CONFIG_FEATURE_MSC_INFO {
            size_of_info: endian.u32_at(bytes, 0),
            context_size: endian.u32_at(bytes, 4),
            enabled_features: endian.u64_at(bytes, 8),
            features: array_at(bytes, 16, endian),
        }
    }

    ghost fits = { Prim.search rules };
}

/// The fifth layout, with the extended state: Microsoft's `MINIDUMP_MISC_INFO_5`.
#[derive(Clone, Copy, PartialEq, Eq)]
pub struct MINIDUMP_MISC_INFO_5 {
    /// The size of the record as its writer states it. The layout is chosen by the stream's length
    /// instead.
    pub size_of_info: u32,
    /// Which of the other fields are set: [`MiscInfoFlags`](super::MiscInfoFlags), as a number.
    pub flags1: u32,
    /// The id of the process.
    pub process_id: u32,
    /// The time at which the process began, in seconds since 1970.
    pub process_create_time: u32,
    /// The time for which the process ran in user mode, in seconds.
    pub process_user_time: u32,
    /// The time for which the process ran in kernel mode, in seconds.
    pub process_kernel_time: u32,
    /// The processor's highest clock rate in MHz.
    pub processor_max_mhz: u32,
    /// The processor's current clock rate in MHz.
    pub processor_current_mhz: u32,
    /// The limit that the system sets to the clock rate, in MHz.
    pub processor_mhz_limit: u32,
    /// The processor's highest idle state.
    pub processor_max_idle_state: u32,
    /// The processor's current idle state.
    pub processor_current_idle_state: u32,
    /// The integrity level of the process.
    pub process_integrity_level: u32,
    /// The execute flags of the process.
    pub process_execute_flags: u32,
    /// Whether the process is protected.
    pub protected_process: u32,
    /// The time zone id: 0 no daylight saving time, 1 standard time, 2 daylight saving time.
    pub time_zone_id: u32,
    /// The time zone.
    pub time_zone: TIME_ZONE_INFORMATION,
    /// The build of the system, in UTF-16, up to the first 0.
    pub build_string: [u16; 260],
    /// The build of the library that wrote the dump, in UTF-16, up to the first 0.
    pub dbg_bld_str: [u16; 40],
    /// The layout of the processor's extended state.
    pub xstate_data: XSTATE_CONFIG_FEATURE_MSC_INFO,
    /// The process cookie.
    pub process_cookie: u32,
}

impl Record for MINIDUMP_MISC_INFO_5 {
    ghost use Rattle.minidump_format.specs.Misc.{misc_info_5};

    ghost SIZE = { 1364 };

    const SIZE: usize = 1364;

    ghost layout = { misc_info_5 };

    fn decode(bytes: &[u8], endian: Endian) -> Self {
        MINIDUMP_MISC_INFO_5 {
            size_of_info: endian.u32_at(bytes, 0),
            flags1: endian.u32_at(bytes, 4),
            process_id: endian.u32_at(bytes, 8),
            process_create_time: endian.u32_at(bytes, 12),
            process_user_time: endian.u32_at(bytes, 16),
            process_kernel_time: endian.u32_at(bytes, 20),
            processor_max_mhz: endian.u32_at(bytes, 24),
            processor_current_mhz: endian.u32_at(bytes, 28),
            processor_mhz_limit: endian.u32_at(bytes, 32),
            processor_max_idle_state: endian.u32_at(bytes, 36),
            processor_current_idle_state: endian.u32_at(bytes, 40),
            process_integrity_level: endian.u32_at(bytes, 44),
            process_execute_flags: endian.u32_at(bytes, 48),
            protected_process: endian.u32_at(bytes, 52),
            time_zone_id: endian.u32_at(bytes, 56),
            time_zone: TIME_ZONE_INFORMATION::decode(&bytes[60..232], endian),
            build_string: array_at(bytes, 232, endian),
            dbg_bld_str: array_at(bytes, 752, endian),
            xstate_data: XSTATE_CONFIG_FEATURE_MSC_INFO::decode(&bytes[832..1360], endian),
            process_cookie: endian.u32_at(bytes, 1360),
        }
    }

    ghost fits = { Prim.search rules };
}
