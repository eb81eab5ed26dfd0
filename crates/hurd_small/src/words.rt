//! What words say.
ghost use Rattle.std.specs.Prelude.{◌≡◌, IfOk, IfErr, [], Ok, Err, None};
ghost use Rattle.hurd_trans_iface.specs.Arguments.{no_options};

use hurd_creds::Errno;
use hurd_trans_iface::Words;

/// Takes no options: `EINVAL` for any word.
pub fn no_options(words: &Words) -> Result<(), Errno>
    ensures ok { IfOk result (λ u. no_options words.now ≡ Ok None) }
    ensures err { IfErr result (λ e. no_options words.now ≡ Err e) }
    ensures no_words { words.now ≡ [] → result ≡ Ok tt }
{
    if words.has_any() {
        return Err(Errno::EINVAL);
    }
    Ok(())
}
