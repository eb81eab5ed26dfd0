//! Bytes, as they stand in a label.
ghost use Rattle.std.specs.Prelude.{◌≡◌, ◌++◌, OnOk};
ghost use Rattle.hurd_words.specs.Escapes.{escaped_byte};
ghost use Rattle.hurd_pictures.specs.Labels.{label, label_byte, short_label, shown};

use hurd_words::escapes::push_escaped;
use std::alloc::AllocError;

/// The most bytes of a text that are shown.
const MOST_SHOWN: usize = 24;

/// Adds a text as it is.
pub(crate) fn push_text(text: &mut Vec<u8>, more: &[u8]) -> Result<(), AllocError>
    ensures { OnOk result (text.new.items ≡ text.old.items ++ more.now) }
{
    text.extend_from_slice(more)
}

/// Adds a byte, by an escape where it can't be printed.
fn push_by_escape(text: &mut Vec<u8>, byte: u8) -> Result<(), AllocError>
    ensures { OnOk result (text.new.items ≡ text.old.items ++ escaped_byte byte) }
{
    push_escaped(text, &[byte])
}

/// Adds a byte as it is in a label. Graphviz reads two backslashes there as one, `\N` as the name of the node, and `]` as the
/// end of what can't be marked up.
fn push_byte(text: &mut Vec<u8>, byte: u8) -> Result<(), AllocError>
    ensures { OnOk result (text.new.items ≡ text.old.items ++ label_byte byte) }
{
    match byte {
        b'&' => push_text(text, b"&amp;"),
        b'<' => push_text(text, b"&lt;"),
        b'>' => push_text(text, b"&gt;"),
        b'"' => push_text(text, b"&quot;"),
        b']' => push_text(text, b"&#93;"),
        b'\\' => push_text(text, b"\\\\\\\\"),
        b' ' => push_text(text, b" "),
        _ => push_by_escape(text, byte),
    }
}

/// Adds bytes as they stand in a label.
pub(crate) fn push_label(text: &mut Vec<u8>, bytes: &[u8]) -> Result<(), AllocError>
    ensures { OnOk result (text.new.items ≡ text.old.items ++ label bytes.now) }
{
    for byte in bytes {
        push_byte(text, *byte)?;
    }
    Ok(())
}

/// Adds bytes as they stand in a label, or that there are none.
pub(crate) fn push_shown(text: &mut Vec<u8>, bytes: &[u8]) -> Result<(), AllocError>
    ensures { OnOk result (text.new.items ≡ text.old.items ++ shown bytes.now) }
{
    if bytes.is_empty() {
        return push_text(text, b"(none)");
    }
    push_label(text, bytes)
}

/// Adds the first of some bytes, and dots where there are more; or that there are none.
#[tactic(auto, unfolding(crate::specs::Labels::short_label))]
pub(crate) fn push_short(text: &mut Vec<u8>, bytes: &[u8]) -> Result<(), AllocError>
    ensures { OnOk result (text.new.items ≡ text.old.items ++ short_label bytes.now) }
{
    if bytes.len() <= MOST_SHOWN {
        return push_shown(text, bytes);
    }
    push_label(text, &bytes[..MOST_SHOWN])?;
    push_text(text, b" ..")
}
