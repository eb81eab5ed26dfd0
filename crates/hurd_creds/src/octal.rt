//! Numbers in octal digits.
ghost use Rattle.std.specs.Prelude.{◌≡◌};
ghost use Rattle.std.specs.List.{list_all};
ghost use Rattle.hurd_creds.specs.Numbers.{is_octal_digit, octal_number_of};

fn are_octal_digits(bytes: &[u8]) -> bool
    ensures { result ≡ list_all is_octal_digit bytes.now }
{
    bytes.iter().all(|byte| *byte >= b'0' && *byte <= b'7')
}

/// A number below 2 to the 32nd in octal digits, without a sign; zeros may lead.
pub fn octal_number(digits: &str) -> Option<u32>
    ensures { result ≡ octal_number_of digits.now }
{
    if are_octal_digits(digits.as_bytes()) {
        u32::from_str_radix(digits, 8).ok()
    } else {
        None
    }
}
