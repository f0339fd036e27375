//! Arrays of JSON.
ghost use Rattle.std.specs.Prelude.{◌≡◌, ◌++◌, ℕ, List, OnOk, string_bytes};
ghost use Rattle.report_json.specs.Json.{array_of, further};

use std::alloc::AllocError;

/// What is an element of an array.
pub(crate) trait Element {
    /// Its text.
    ghost text_of: { Self → List ℕ };

    /// Writes it.
    fn push(&self, text: &mut String) -> Result<(), AllocError>
        ensures { OnOk result (string_bytes text.new ≡ string_bytes text.old ++ text_of self.now) };
}

/// Writes an array.
pub(crate) fn push_array<E: Element>(text: &mut String, elements: &[E]) -> Result<(), AllocError>
    ensures { OnOk result (string_bytes text.new ≡ string_bytes text.old ++ array_of E.text_of elements.now) }
{
    match elements.split_first() {
        Some((first, others)) => {
            write!(text, "[")?;
            first.push(text)?;
            push_further(text, others)?;
            write!(text, "]")
        }
        None => write!(text, "[]"),
    }
}

/// Writes further elements.
fn push_further<E: Element>(text: &mut String, elements: &[E]) -> Result<(), AllocError>
    ensures { OnOk result (string_bytes text.new ≡ string_bytes text.old ++ further E.text_of elements.now) }
{
    for element in elements {
        write!(text, ",")?;
        element.push(text)?;
    }
    Ok(())
}
