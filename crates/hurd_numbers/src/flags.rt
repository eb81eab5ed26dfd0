//! Flags by their bits.
ghost use Rattle.std.specs.Prelude.{◌≡◌};
ghost use Rattle.hurd_lists.specs.Arguments.{ReadsInPlace};
ghost use Rattle.hurd_numbers.specs.Flags.{goaway_flags_at, mode_at, open_flags_at, trans_flags_at, whence_at};

use bitflags::Flags;
use hurd_creds::{GoawayFlags, Mode, OpenFlags, TransFlags};
use hurd_machine::Whence;
use hurd_words::fault::ReadFault;

/// Flags of opening.
pub fn open_flags(bits: u32) -> Result<OpenFlags, ReadFault>
    ensures { ReadsInPlace (λ f. f) (open_flags_at bits) result }
{
    if bits < 512 {
        Ok(<OpenFlags as Flags>::from_bits_retain(bits as u16))
    } else {
        Err(ReadFault::Bad)
    }
}

/// Flags of setting a translator.
pub(crate) fn trans_flags(bits: u32) -> Result<TransFlags, ReadFault>
    ensures { ReadsInPlace (λ f. f) (trans_flags_at bits) result }
{
    if bits < 8 {
        Ok(<TransFlags as Flags>::from_bits_retain(bits as u8))
    } else {
        Err(ReadFault::Bad)
    }
}

/// Flags of sending a server away.
pub(crate) fn goaway_flags(bits: u32) -> Result<GoawayFlags, ReadFault>
    ensures { ReadsInPlace (λ f. f) (goaway_flags_at bits) result }
{
    if bits < 8 {
        Ok(<GoawayFlags as Flags>::from_bits_retain(bits as u8))
    } else {
        Err(ReadFault::Bad)
    }
}

/// A mode; bits that none knows stay.
pub fn mode(bits: u32) -> Mode
    ensures { result ≡ mode_at bits }
{
    <Mode as Flags>::from_bits_retain(bits)
}

/// From where a seek counts.
pub(crate) fn whence(number: u32) -> Result<Whence, ReadFault>
    ensures { ReadsInPlace (λ w. w) (whence_at number) result }
{
    match number {
        0 => Ok(Whence::Set),
        1 => Ok(Whence::Current),
        2 => Ok(Whence::End),
        _ => Err(ReadFault::Bad),
    }
}
