//! Names of tasks, which may have any bytes, for people.
ghost use Rattle.std.specs.Prelude.{◌≡◌, ◌++◌, ◌<◌, OnOk, string_bytes};
ghost use Rattle.recording_audit.specs.Report.{shown_byte, shown_name};

use std::alloc::AllocError;

/// Writes a name: each byte that isn't a printed sign of ASCII by its number.
pub(crate) fn push_name(text: &mut String, name: &[u8]) -> Result<(), AllocError>
    ensures { OnOk result (string_bytes text.new ≡ string_bytes text.old ++ shown_name name.now) }
{
    for byte in name {
        push_byte(text, *byte)?;
    }
    Ok(())
}

fn push_byte(text: &mut String, byte: u8) -> Result<(), AllocError>
    ensures { OnOk result (string_bytes text.new ≡ string_bytes text.old ++ shown_byte byte) }
{
    if matches!(byte, b' '..=b'~') {
        let sign = char::from(byte);
        write!(text, "{sign}")
    } else {
        write!(text, "\\x{byte:02x}")
    }
}
