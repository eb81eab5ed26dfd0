//! Numbers in decimal digits.
ghost use Rattle.std.specs.Prelude.{◌≡◌};
ghost use Rattle.std.specs.Char.{is_ascii_digit};
ghost use Rattle.std.specs.List.{list_all};
ghost use Rattle.hurd_creds.specs.Numbers.{long_number_of, number_of};

fn are_digits(bytes: &[u8]) -> bool
    ensures { result ≡ list_all is_ascii_digit bytes.now }
{
    bytes.iter().all(|byte| byte.is_ascii_digit())
}

/// A number below 2 to the 32nd in decimal digits, without a sign; zeros may lead.
pub fn number(digits: &str) -> Option<u32>
    ensures { result ≡ number_of digits.now }
{
    if are_digits(digits.as_bytes()) {
        digits.parse::<u32>().ok()
    } else {
        None
    }
}

/// A number below 2 to the 64th in decimal digits, without a sign; zeros may lead. What is no text is none.
pub fn long_number(digits: &[u8]) -> Option<u64>
    ensures { result ≡ long_number_of digits.now }
{
    if !are_digits(digits) {
        return None;
    }
    match str::from_utf8(digits) {
        Ok(digits) => digits.parse::<u64>().ok(),
        Err(_) => None,
    }
}
