//! The name of a fault's task.
ghost use Rattle.std.specs.Prelude.{◌≡◌, ◌++◌, OnOk, flat_map, string_bytes};
ghost use Rattle.bstr.specs.Utf8.{lossy_chars};
ghost use Rattle.report_json.specs.Json.{sign_of, string_of};
ghost use Rattle.report_json.specs.Objects.{name_member};

use bstr::ByteSlice;
use std::alloc::AllocError;

/// What a fault's object says of the name of its task.
#[derive(Debug, Drop)]
pub enum NameTold {
    /// Nothing.
    Untold,
    /// The name's bytes; none where it isn't known.
    Told(Option<Vec<u8>>),
}

/// Writes what is said of a name.
pub(crate) fn push_name(text: &mut String, name: &NameTold) -> Result<(), AllocError>
    ensures { OnOk result (string_bytes text.new ≡ string_bytes text.old ++ name_member name.now) }
{
    match name {
        NameTold::Untold => Ok(()),
        NameTold::Told(None) => write!(text, ",\"name\":null"),
        NameTold::Told(Some(name)) => {
            write!(text, ",\"name\":")?;
            push_string(text, name.as_slice())
        }
    }
}

/// Writes bytes as a string. What isn't UTF-8 in them is U+FFFD there.
fn push_string(text: &mut String, bytes: &[u8]) -> Result<(), AllocError>
    ensures { OnOk result (string_bytes text.new ≡ string_bytes text.old ++ string_of bytes.now) }
{
    write!(text, "\"")?;
    push_signs(text, bytes)?;
    write!(text, "\"")
}

/// Writes the signs of a string.
fn push_signs(text: &mut String, bytes: &[u8]) -> Result<(), AllocError>
    ensures { OnOk result
        (string_bytes text.new ≡ string_bytes text.old ++ flat_map sign_of (lossy_chars bytes.now)) }
{
    for sign in bytes.chars() {
        push_sign(text, sign)?;
    }
    Ok(())
}

/// Writes a sign of a string, escaped where it has to be.
fn push_sign(text: &mut String, sign: char) -> Result<(), AllocError>
    ensures { OnOk result (string_bytes text.new ≡ string_bytes text.old ++ sign_of sign) }
{
    let code = u32::from(sign);
    if sign == '"' {
        write!(text, "\\\"")
    } else if sign == '\\' {
        write!(text, "\\\\")
    } else if code < 16 {
        write!(text, "\\u000{code:x}")
    } else if code < 32 {
        write!(text, "\\u00{code:x}")
    } else {
        text.push(sign)
    }
}
