//! The text that a word says.
ghost use Rattle.std.specs.Prelude.{◌≡◌, option_copied, IfOk, IfErr, Ok, Err};
ghost use Rattle.std.specs.List.{list_all};
ghost use Rattle.hurd_trans_iface.specs.Kinds.Hello.{hello_options, says_text};

use hurd_creds::{Bytes, Errno};
use hurd_trans_iface::contents_in;

/// The most bytes of a text that words say.
const MOST_TEXT: usize = 4074;

/// Whether a word says a text.
fn says_text(word: &[u8]) -> bool
    ensures { result ≡ says_text word.now }
{
    contents_in(word).is_some()
}

/// Whether each of these words says a text.
fn all_say_text(words: &[Bytes]) -> bool
    ensures { result ≡ list_all says_text words.now }
{
    words.iter().all(|word| says_text(word.as_slice()))
}

/// The text that options give: that of the last word, where each says one, and none without words.
///
/// Errors: `EINVAL` other words, or a text that is longer than words can say.
pub(crate) fn new_text(words: &[Bytes]) -> Result<Option<&[u8]>, Errno>
    ensures ok { IfOk result (λ text. hello_options words.now ≡ Ok (option_copied text)) }
    ensures err { IfErr result (λ e. hello_options words.now ≡ Err e) }
{
    if !all_say_text(words) {
        return Err(Errno::EINVAL);
    }
    let Some(word) = words.last() else {
        return Ok(None);
    };
    match contents_in(word.as_slice()) {
        Some(text) if text.len() <= MOST_TEXT => Ok(Some(text)),
        _ => Err(Errno::EINVAL),
    }
}
