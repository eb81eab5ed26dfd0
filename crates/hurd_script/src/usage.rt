//! The words that commands take. Clap reads those with flags.
ghost use Rattle.std.specs.Prelude.{◌≡◌, ◌≢◌, ◌⊎◌, [], IfOk, MatchOption, codes, false, map, option_copied, option_map, string_bytes, true};
ghost use Rattle.std.specs.List.{list_any};
ghost use Rattle.clap.specs.Words.{app_of, fault_of, found_of, is_simple_and_free, rows_of, rule_of};
ghost use Rattle.hurd_script.specs.Flags.{flags_of, is_flag_word, operands_of};
ghost use Rattle.hurd_script.specs.Usage.{ReadsAs, bare_app, both, is_other_flag, letter_flag, list_app, listed, lone, node_app, operand, three};

use clap::error::ErrorKind;
use clap::{Arg, ArgAction, ArgMatches, Command};
use std::alloc::{AllocError, Global};

/// Whether a word begins with `-`, and is not that alone.
pub fn is_flag_word(word: &str) -> bool
    ensures { result ≡ is_flag_word word.now }
{
    let bytes = word.as_bytes();
    bytes.len() > 1 && bytes[0] == b'-'
}

fn has_flag(words: &[String]) -> bool
    ensures { result ≡ list_any is_flag_word (map string_bytes words.now) }
{
    for word in words {
        if is_flag_word(word.as_str()) {
            return true;
        }
    }
    false
}

/// Whether a word is a flag, and not `-d`.
fn is_other_flag(word: &str) -> bool
    ensures { result ≡ is_other_flag word.now }
{
    is_flag_word(word) && word != "-d"
}

fn has_other_flag(words: &[String]) -> bool
    ensures { result ≡ list_any is_other_flag (map string_bytes words.now) }
{
    for word in words {
        if is_other_flag(word.as_str()) {
            return true;
        }
    }
    false
}

/// A command without flags of clap's own.
fn bare_command<'a>(alloc: Global, name: &'a str) -> Command<'a>
    ensures { app_of result ≡ bare_app name.entry.now }
{
    Command::new(alloc, name)
        .no_binary_name(true)
        .disable_help_flag(true)
        .disable_version_flag(true)
}

/// A word that has to be there.
fn operand<'a>(alloc: Global, name: &'a str) -> Arg<'a>
    ensures rule { rule_of result ≡ operand name.entry.now }
    ensures local { result.global ≡ false }
{
    Arg::new(alloc, name).action(ArgAction::Set).required(true)
}

/// A flag of one letter.
pub fn letter_flag<'a>(alloc: Global, name: &'a str, letter: char) -> Arg<'a>
    ensures rule { rule_of result ≡ letter_flag name.entry.now letter }
    ensures local { result.global ≡ false }
{
    Arg::new(alloc, name)
        .short(letter)
        .action(ArgAction::SetTrue)
}

/// A command that takes one word, a node.
pub fn node_command<'a>(alloc: Global, name: &'a str) -> Result<Command<'a>, AllocError>
    ensures { IfOk result (λ command. app_of command ≡ node_app name.entry.now) }
{
    bare_command(alloc, name).arg(operand(alloc, "node"))
}

/// A command that takes a node, and the flag `-d`.
fn list_command<'a>(alloc: Global, name: &'a str) -> Result<Command<'a>, AllocError>
    ensures { IfOk result (λ command. app_of command ≡ list_app name.entry.now) }
{
    node_command(alloc, name)?.arg(letter_flag(alloc, "itself", 'd'))
}

/// What clap makes of the words, unless it refuses them.
pub fn matched<'a>(
    command: Command<'a>,
    words: &'a [String],
) -> Result<Option<ArgMatches<'a>>, AllocError>
    requires { is_simple_and_free (app_of command) ≡ true }
    ensures { let app = app_of command.entry in
        let ws = map string_bytes words.entry.now in
        IfOk result (λ found. MatchOption found (fault_of app ws ≢ []) (λ m. ReadsAs app ws (rows_of (found_of m)))) }
{
    match command.try_get_matches_from(words) {
        Ok(matches) => Ok(Some(matches)),
        Err(error) => {
            if error.kind() == ErrorKind::OutOfMemory {
                Err(AllocError)
            } else {
                Ok(None)
            }
        }
    }
}

/// The one node that the words are, where none is a flag.
pub fn node_of(words: &[String]) -> Option<&str>
    ensures { let ws = map string_bytes words.now in option_copied result ≡ lone (flags_of ws) (operands_of ws) }
{
    if has_flag(words) {
        return None;
    }
    if words.len() == 1 {
        Some(words[0].as_str())
    } else {
        None
    }
}

/// The two words, where none is a flag.
pub fn pair_of(words: &[String]) -> Option<(&str, &str)>
    ensures { let ws = map string_bytes words.now in
        option_map (λ p. (p.0.now, p.1.now)) result ≡ both (flags_of ws) (operands_of ws) }
{
    if has_flag(words) {
        return None;
    }
    if words.len() == 2 {
        Some((words[0].as_str(), words[1].as_str()))
    } else {
        None
    }
}

/// The three words, where none is a flag.
pub fn triple_of(words: &[String]) -> Option<(&str, (&str, &str))>
    ensures { let ws = map string_bytes words.now in
        option_map (λ t. (t.0.now, (t.1.0.now, t.1.1.now))) result ≡ three (flags_of ws) (operands_of ws) }
{
    if has_flag(words) {
        return None;
    }
    if words.len() == 3 {
        Some((words[0].as_str(), (words[1].as_str(), words[2].as_str())))
    } else {
        None
    }
}

/// The one node, and whether the flag `-d` is there, where no other flag is and it is there once at most.
/// Clap is asked where the words are not a node alone.
pub fn listed_of<'a>(
    alloc: Global,
    name: &'a str,
    words: &'a [String],
) -> Result<Option<(&'a str, bool)>, AllocError>
    ensures { let ws = map string_bytes words.entry.now in
        IfOk result (λ node. option_map (λ p. (p.0.now, p.1)) node ≡ listed (flags_of ws) (operands_of ws)) }
{
    if let Some(node) = node_of(words) {
        return Ok(Some((node, false)));
    }
    if has_other_flag(words) {
        return Ok(None);
    }
    let Some(matches) = matched(list_command(alloc, name)?, words)? else {
        return Ok(None);
    };
    let itself = matches.get_flag("itself");
    match matches.get_str("node") {
        Some(node) => Ok(Some((node, itself))),
        None => Ok(None),
    }
}
