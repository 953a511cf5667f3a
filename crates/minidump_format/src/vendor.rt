ghost use Rattle.std.specs.Prelude.{◌≡◌};
ghost use Rattle.minidump_format.specs.Vendor.{vendor_of};

/// Returns the vendor of a stream type: `Official` up to 0xffff, else `Google Extension`,
/// `Crashpad Extension` or `Mozilla Extension` by its high half, or `Unknown Extension`.
pub fn stream_vendor(stream_type: u32) -> &'static str
    ensures { result.now ≡ vendor_of stream_type }
{
    if stream_type <= 0xffff {
        return "Official";
    }
    match stream_type >> 16 {
        0x4767 => "Google Extension",
        0x4350 => "Crashpad Extension",
        0x4d7a => "Mozilla Extension",
        _ => "Unknown Extension",
    }
}
