//! Where paths start, and where magical names lead.
ghost use Rattle.std.specs.Prelude.{◌≡◌, codes};
ghost use Rattle.std.specs.Option.{option_map};
ghost use Rattle.hurd_trans_iface.specs.Kinds.Hello.{behind};
ghost use Rattle.hurd_client.specs.Looking as written;

use hurd_creds::long_number;
use hurd_lookup::first_slash;

/// The port of a task's root.
const ROOT_PORT: u64 = 1;

/// The most digits of a port's number in a magical name.
const MOST_DIGITS: usize = 20;

/// The port that a path starts at: the root's if it begins with a slash, else a directory's.
pub(crate) fn start_at(directory: u64, path: &[u8]) -> u64
    ensures { result ≡ written.start_at directory path.now }
{
    match path {
        [b'/', ..] => ROOT_PORT,
        _ => directory,
    }
}

/// The port of the task's own that these digits number.
fn own_port(digits: &[u8]) -> Option<u64>
    ensures { result ≡ written.own_port digits.now }
{
    if digits.len() > MOST_DIGITS {
        return None;
    }
    long_number(digits)
}

/// The port of the task's own that comes after `fd/`, and what is opened at it.
fn own_place(bytes: &[u8]) -> Option<(u64, &[u8])>
    ensures { option_map (λ place. (place.0, place.1.now)) result ≡ written.own_place bytes.now }
{
    let (digits, name) = bytes.split_at(first_slash(bytes));
    Some((own_port(digits)?, name))
}

/// What comes after `fd/` in a name, if it begins so.
fn after_fd(name: &[u8]) -> Option<&[u8]>
    ensures { option_map (λ rest. rest.now) result ≡ behind (codes "fd/") name.now }
{
    name.strip_prefix(b"fd/".as_slice())
}

/// Where a magical name is opened.
pub(crate) fn magical_place(name: &[u8]) -> Option<(u64, &[u8])>
    ensures { option_map (λ place. (place.0, place.1.now)) result ≡ written.magical_place name.now }
{
    if name.first() == Some(&b'/') {
        return Some((ROOT_PORT, name));
    }
    own_place(after_fd(name)?)
}
