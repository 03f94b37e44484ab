// Names as diagnostics and line markers show them.
ghost use Rattle.std.specs.Prelude.{◌≡◌, ◌++◌, IfOk, OnOk};
ghost use Rattle.std.specs.List.{list_all};
ghost use Rattle.tree_model.specs.Shown.{shown, shown_byte, is_plain};

use std::alloc::{AllocError, Global};

/// A name as it is shown: `\`, `"` and a newline are escaped.
#[tactic(auto, unfolding(crate::specs::Shown::shown))]
pub fn shown(alloc: Global, text: &[u8]) -> Result<Vec<u8>, AllocError>
    ensures { IfOk result (λ bytes. bytes.items ≡ shown text.now) }
{
    if are_plain(text) {
        return Vec::from_slice(alloc, text);
    }
    let mut bytes = Vec::with_capacity(alloc, text.len())?;
    for byte in text {
        add_shown(&mut bytes, *byte)?;
    }
    Ok(bytes)
}

// Whether each byte is shown as it is, as those of nearly all names are. Three searches for a byte are faster than one look at each.
fn are_plain(text: &[u8]) -> bool
    ensures { result ≡ list_all is_plain text.now }
{
    let backslash = text.contains(&b'\\');
    let quote = text.contains(&b'"');
    let newline = text.contains(&b'\n');
    !(backslash | quote | newline)
}

fn add_shown(bytes: &mut Vec<u8>, byte: u8) -> Result<(), AllocError>
    ensures { OnOk result (bytes.new.items ≡ bytes.old.items ++ shown_byte byte) }
{
    match byte {
        b'\\' => bytes.extend_from_slice(b"\\\\"),
        b'"' => bytes.extend_from_slice(b"\\\""),
        b'\n' => bytes.extend_from_slice(b"\\n"),
        _ => Ok(bytes.push(byte)?),
    }
}
