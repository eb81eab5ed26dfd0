//! Modes in words.
ghost use Rattle.std.specs.Prelude.{◌≡◌};
ghost use Rattle.hurd_words.specs.Modes.{mode_of, octal_of};

use bitflags::Flags;
use hurd_creds::{Mode, octal_number};

/// How many octal digits a mode may have.
const MOST_MODE_DIGITS: usize = 6;

/// A number of one to six octal digits, without a sign; zeros may lead.
fn octal(digits: &str) -> Option<u32>
    ensures { result ≡ octal_of digits.now }
{
    if digits.len() <= MOST_MODE_DIGITS {
        octal_number(digits)
    } else {
        None
    }
}

/// A mode of one to six octal digits, of known bits alone.
pub fn mode(digits: &str) -> Option<Mode>
    ensures { result ≡ mode_of digits.now }
{
    let bits = octal(digits)?;
    Mode::from_bits(bits)
}
