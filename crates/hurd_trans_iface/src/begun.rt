//! Which words make a server, and what they say to it.
ghost use Rattle.std.specs.List.{list_all};
ghost use Rattle.std.specs.Option.{option_map};
ghost use Rattle.std.specs.Prelude.{◌≡◌, [], ◌∷◌, ℕ, List, Some, Ok, IfSome, codes, is_some};
ghost use Rattle.hurd_trans_iface.specs.Sayings.{IsFit, server_said, text_said};
ghost use Rattle.hurd_trans_iface.specs.Arguments.{behind, is_bare, no_text};
ghost use Rattle.hurd_trans_iface.specs.Kinds.Hello.{hello_text};
ghost use Rattle.hurd_trans_iface.specs.Meaning.{Meaning, ServerKind, behaviour_of, begin, begin_as, new_server, options_of};
ghost use Rattle.hurd_trans_iface.specs.declared.begun.ServerKind.TheVariants.{Union};
ghost use Rattle.hurd_trans_iface.specs.Kinds.Symlink.{is_absolute, target_text};
ghost use Rattle.hurd_trans_iface.specs.Kinds.Firmlink.{firm_text, is_firm};
ghost use Rattle.hurd_trans_iface.specs.Kinds.Union.{union_text};
ghost use Rattle.hurd_trans_iface.specs.Kinds.Magic.{magic_text};
ghost use Rattle.hurd_trans_iface.specs.Kinds.Drip.{drip_text, says_drops};
ghost use Rattle.hurd_trans_iface.specs.Kinds.Tmpfs.{says_size, size_word, tmpfs_text};
ghost use Rattle.hurd_trans_iface.specs.Words.{IsWithinLimits};

use hurd_creds::{Bytes, MOST_PATH, long_number};

/// The most directories of a union.
const MOST_BRANCHES: usize = 16;

/// The most bytes of a drip.
const MOST_DROPS: u64 = 1000;

/// The most digits that say how many those are.
const MOST_DROP_DIGITS: usize = 4;

/// The most digits that say a size.
const MOST_SIZE_DIGITS: usize = 12;

/// The kinds of servers.
#[derive(Clone, Copy, Debug)]
pub enum ServerKind {
    /// A tree in memory, whose text is the digits of its limit, or none: `/hurd/tmpfs`, alone or with one word `--size=` and a number after it.
    Tmpfs,
    /// A file that gives its text: `/hurd/hello`, alone or with one word `--contents=` and the text after it.
    Hello,
    /// A stream without bytes: `/hurd/null` alone.
    Null,
    /// A stream of zero bytes: `/hurd/zero` alone.
    Zero,
    /// A link to the path that is its text, of 1 to 1,024 bytes: `/hurd/symlink` and the path.
    Symlink,
    /// A firm link to the path that is its text, from the root of the tree, of at most 1,024 bytes: `/hurd/firmlink` and the path.
    Firmlink,
    /// A union of the directories of 1 to 16 such paths: `/hurd/union` and the paths.
    Union,
    /// A magical link, whose text is `fd`: `/hurd/magic` and that.
    Magic,
    /// A drip of as many bytes as the digits of its text say, 0 to 1,000: `/hurd/drip` and the digits.
    Drip,
    /// A pipe: `/hurd/fifo` alone.
    Fifo,
}

/// The kind of server that some words make, with what they say to it, lent.
#[derive(Clone, Copy, Debug)]
pub struct Begun<'a> {
    pub kind: ServerKind,
    /// Its text; none of a union, whose text is its paths.
    pub text: &'a [u8],
    /// The paths of a union; none of any other kind.
    pub paths: &'a [Bytes],
}

/// The text that the words after a program's name say to a kind that wants none.
fn alone(arguments: &[Bytes]) -> Option<&[u8]>
    ensures { option_map (λ text. text.now) result ≡ no_text arguments.now }
{
    match arguments {
        [] => Some(&[]),
        _ => None,
    }
}

/// What comes after these bytes in a word, if it begins with them.
fn behind<'a>(first: &[u8], word: &'a [u8]) -> Option<&'a [u8]>
    ensures { option_map (λ rest. rest.now) result ≡ behind first.now word.now }
{
    word.strip_prefix(first)
}

/// What comes after `--contents=` in a word, if it begins so.
pub fn contents_in(word: &[u8]) -> Option<&[u8]>
    ensures { option_map (λ text. text.now) result ≡ behind (codes "--contents=") word.now }
{
    behind(b"--contents=", word)
}

/// Whether digits say a size: one to twelve, the first no zero but where it is alone.
fn says_size(digits: &[u8]) -> bool
    ensures { result ≡ says_size digits.now }
{
    digits.len() <= MOST_SIZE_DIGITS && is_bare(digits) && long_number(digits).is_some()
}

/// The digits after `--size=` in a word, if it says a size: 0 to 999,999,999,999, with no zero in front.
pub fn size_in(word: &[u8]) -> Option<&[u8]>
    ensures { option_map (λ digits. digits.now) result ≡ size_word word.now }
{
    match behind(b"--size=", word) {
        Some(digits) if says_size(digits) => Some(digits),
        _ => None,
    }
}

/// What the words after `/hurd/tmpfs` say: nothing, or one `--size=` with a number after it.
fn tree(arguments: &[Bytes]) -> Option<&[u8]>
    ensures { option_map (λ text. text.now) result ≡ tmpfs_text arguments.now }
{
    match arguments {
        [] => Some(&[]),
        [word] => size_in(word.as_slice()),
        _ => None,
    }
}

/// What the words after `/hurd/hello` say: nothing, or one `--contents=` with a text after it.
fn hello(arguments: &[Bytes]) -> Option<&[u8]>
    ensures { option_map (λ text. text.now) result ≡ hello_text arguments.now }
{
    match arguments {
        [] => Some(b"Hello, world!\n".as_slice()),
        [word] => contents_in(word.as_slice()),
        _ => None,
    }
}

/// What the words after `/hurd/symlink` say: one path of 1 to 1,024 bytes.
fn symlink(arguments: &[Bytes]) -> Option<&[u8]>
    ensures { option_map (λ text. text.now) result ≡ target_text arguments.now }
{
    match arguments {
        [path] if !path.is_empty() && path.len() <= MOST_PATH => Some(path.as_slice()),
        _ => None,
    }
}

/// Whether a path leads on from the root of the tree.
pub fn is_absolute(path: &[u8]) -> bool
    ensures { result ≡ is_absolute path.now }
{
    path.first() == Some(&b'/')
}

/// Whether this is a path from the root of the tree, of at most 1,024 bytes.
pub fn is_firm(path: &Bytes) -> bool
    ensures { result ≡ is_firm path.now }
{
    is_absolute(path.as_slice()) && path.len() <= MOST_PATH
}

/// What the words after `/hurd/firmlink` say: one path from the root of the tree.
fn firmlink(arguments: &[Bytes]) -> Option<&[u8]>
    ensures { option_map (λ text. text.now) result ≡ firm_text arguments.now }
{
    match arguments {
        [path] if is_firm(path) => Some(path.as_slice()),
        _ => None,
    }
}

/// Whether each is such a path.
fn are_firm(paths: &[Bytes]) -> bool
    ensures { result ≡ list_all is_firm paths.now }
{
    paths.iter().all(|path| is_firm(path))
}

/// Whether the words after `/hurd/union` make a union: 1 to 16 such paths.
pub fn says_targets(arguments: &[Bytes]) -> bool
    ensures { result ≡ is_some (union_text arguments.now) }
{
    match arguments {
        [] => false,
        [_first, ..] => arguments.len() <= MOST_BRANCHES && are_firm(arguments),
    }
}

/// What the words after `/hurd/magic` say: `fd` alone.
fn magic(arguments: &[Bytes]) -> Option<&[u8]>
    ensures { option_map (λ text. text.now) result ≡ magic_text arguments.now }
{
    match arguments {
        [what] if what.is(b"fd") => Some(b"fd".as_slice()),
        _ => None,
    }
}

/// Whether no zero comes before other digits.
fn is_bare(digits: &[u8]) -> bool
    ensures { result ≡ is_bare digits.now }
{
    match digits {
        [first, _, ..] => *first != b'0',
        _ => true,
    }
}

/// Whether a word says how many bytes a drip has: 0 to 1,000 in decimal digits, the first no zero but where it is alone.
pub fn says_drops(digits: &[u8]) -> bool
    ensures { result ≡ says_drops digits.now }
{
    digits.len() <= MOST_DROP_DIGITS
        && is_bare(digits)
        && match long_number(digits) {
            Some(count) => count <= MOST_DROPS,
            None => false,
        }
}

/// What the words after `/hurd/drip` say: how many bytes it has.
fn drip(arguments: &[Bytes]) -> Option<&[u8]>
    ensures { option_map (λ text. text.now) result ≡ drip_text arguments.now }
{
    match arguments {
        [digits] if says_drops(digits.as_slice()) => Some(digits.as_slice()),
        _ => None,
    }
}

/// What the words after `/hurd/union` say: 1 to 16 such paths.
fn union(arguments: &[Bytes]) -> Option<Begun<'_>>
    ensures { option_map server_said result ≡ option_map (new_server Union) (union_text arguments.now) }
{
    if !says_targets(arguments) {
        return None;
    }
    Some(Begun {
        kind: ServerKind::Union,
        text: &[],
        paths: arguments,
    })
}

/// A kind that is no union, with the text that is said to it.
fn saying(kind: ServerKind, text: &[u8]) -> Begun<'_>
    ensures { server_said result ≡ new_server kind (text_said kind text.now []) }
{
    Begun {
        kind,
        text,
        paths: &[],
    }
}

/// What the words after the name of this program say.
fn named<'a>(program: &Bytes, arguments: &'a [Bytes]) -> Option<Begun<'a>>
    ensures { option_map server_said result ≡ begin (program.now ∷ arguments.now) }
{
    if program.is(b"/hurd/tmpfs") {
        Some(saying(ServerKind::Tmpfs, tree(arguments)?))
    } else if program.is(b"/hurd/hello") {
        Some(saying(ServerKind::Hello, hello(arguments)?))
    } else if program.is(b"/hurd/null") {
        Some(saying(ServerKind::Null, alone(arguments)?))
    } else if program.is(b"/hurd/zero") {
        Some(saying(ServerKind::Zero, alone(arguments)?))
    } else if program.is(b"/hurd/symlink") {
        Some(saying(ServerKind::Symlink, symlink(arguments)?))
    } else if program.is(b"/hurd/firmlink") {
        Some(saying(ServerKind::Firmlink, firmlink(arguments)?))
    } else if program.is(b"/hurd/union") {
        union(arguments)
    } else if program.is(b"/hurd/magic") {
        Some(saying(ServerKind::Magic, magic(arguments)?))
    } else if program.is(b"/hurd/drip") {
        Some(saying(ServerKind::Drip, drip(arguments)?))
    } else if program.is(b"/hurd/fifo") {
        Some(saying(ServerKind::Fifo, alone(arguments)?))
    } else {
        None
    }
}

/// The server that these words make, by its kind and by what they say to it; none where no kind takes them.
pub fn begun_by(words: &[Bytes]) -> Option<Begun<'_>>
    ensures begins { option_map server_said result ≡ begin words.now }
    ensures kind { IfSome result (λ b. begin_as b.kind words.now ≡ Some (server_said b)) }
    ensures fit { IsWithinLimits words.now → IfSome result IsFit }
{
    match words {
        [program, arguments @ ..] => named(program, arguments),
        [] => None,
    }
}

/// Whether some kind of server takes these words.
pub fn words_ok(words: &[Bytes]) -> bool
    ensures { result ≡ is_some (begin words.now) }
{
    begun_by(words).is_some()
}

/// The words that a server says of itself make it again, as it was when it began.
pub fn options_begin()
    ensures { (words : List (List ℕ)) (m : Meaning) → begin words ≡ Some m → begin (options_of m.kind m.text) ≡ Some m }
{}

/// Options that a server takes are words, and they make it again with its new text.
pub fn options_set()
    ensures begin { (kind : ServerKind) (words : List (List ℕ)) (text : List ℕ)
        → (behaviour_of kind).set_options words ≡ Ok (Some text) → begin (options_of kind text) ≡ Some (new_server kind text) }
    ensures within { (kind : ServerKind) (words : List (List ℕ)) (text : List ℕ)
        → (behaviour_of kind).set_options words ≡ Ok (Some text) → IsWithinLimits (options_of kind text) }
{}
