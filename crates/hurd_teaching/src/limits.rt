//! What is printed of what is learned and of what is seen, if that is limited.
ghost use Rattle.std.specs.Prelude.{◌≡◌, ◌++◌, IfOk, OnOk};
ghost use Rattle.hurd_teaching.specs.Limits.{lines_within, more_line, more_text, shortened, whole_lines};

use hurd_creds::Bytes;
use itoa::Buffer;
use std::alloc::{AllocError, Global};

/// The bytes up to the last newline.
fn whole_lines(bytes: &[u8]) -> &[u8]
    ensures { result.now ≡ whole_lines bytes.now }
{
    let mut end = bytes.len();
    while end > 0 && bytes[end - 1] != b'\n' {
        end -= 1;
    }
    &bytes[..end]
}

/// The whole lines that have room in so many bytes.
fn lines_within(text: &[u8], most: usize) -> &[u8]
    ensures { result.now ≡ lines_within most text.now }
{
    match text.get(..most) {
        Some(first) => whole_lines(first),
        None => whole_lines(text),
    }
}

/// Adds how many bytes are left out. Fails only if memory runs out.
fn push_count(text: &mut Vec<u8>, count: usize) -> Result<(), AllocError>
    ensures { OnOk result (text.new.items ≡ text.old.items ++ more_text count) }
{
    text.extend_from_slice(Buffer::new().format(count).as_bytes())?;
    text.extend_from_slice(b" more bytes, not shown\n")
}

/// Adds a line about somebody that says how many bytes are left out. Fails only if memory runs out.
fn push_more(text: &mut Vec<u8>, who: &[u8], count: usize) -> Result<(), AllocError>
    ensures { OnOk result (text.new.items ≡ text.old.items ++ more_line who.now count) }
{
    text.extend_from_slice(b"  ")?;
    text.extend_from_slice(who)?;
    text.extend_from_slice(b": ")?;
    push_count(text, count)
}

/// What is printed of a text about somebody, if at most so many bytes of it are: all of it; or, if it is longer, the whole lines that have room, and how many
/// bytes more there are. Fails only if memory runs out.
pub fn shortened(
    alloc: Global,
    most: Option<usize>,
    who: &[u8],
    text: Bytes,
) -> Result<Bytes, AllocError>
    ensures { IfOk result (λ short. short ≡ shortened most who.now text) }
{
    let Some(most) = most else {
        return Ok(text);
    };
    let all = text.as_slice();
    if all.len() <= most {
        return Ok(text);
    }
    let kept = lines_within(all, most);
    let mut short = Vec::from_slice(alloc, kept)?;
    push_more(&mut short, who, all.len().saturating_sub(kept.len()))?;
    Ok(Bytes::new(short))
}
