//! The words of `settrans`. Clap reads flags.
ghost use Rattle.std.specs.Prelude.{◌≡◌, ◌≤◌, [], IfOk, codes, drop, length, map, option_map, string_bytes};
ghost use Rattle.std.specs.List.{list_all};
ghost use Rattle.clap.specs.Words.{app_of, found_of, rows_of, with_rule};
ghost use Rattle.hurd_script.specs.Flags.{is_flag_word};
ghost use Rattle.hurd_script.specs.Settrans.{are_known_once, flag_count, flags_from, from_node, is_at_odds, is_known, leading_flags, letters_of, setting_of};
ghost use Rattle.hurd_script.specs.Usage.{IsFound, letter_flag, settrans_app, with_letters};

use crate::usage::{is_flag_word, letter_flag, matched, node_command};
use clap::{ArgMatches, Command};
use std::alloc::{AllocError, Global};

/// The flags of `settrans`.
#[derive(Clone, Copy, Debug, PartialEq, Eq)]
pub struct SettransFlags {
    /// `-a`: the words start an active translator.
    pub active: bool,
    /// `-p`: the words are stored as the passive translator, also beside `-a`.
    pub passive: bool,
    /// `-c`: the node is made where there is none.
    pub create: bool,
    /// `-x`: a translator that is there already is a fault.
    pub exclusive: bool,
    /// `-g`: an active translator goes away.
    pub goaway: bool,
    /// `-k`: an active translator stays as it is.
    pub keep: bool,
    /// `-f`: an active translator goes away even if it is in use.
    pub force: bool,
    /// `-o`: an active translator leaves the node, and goes on for those who use it.
    pub orphan: bool,
}

impl SettransFlags {
    /// No flag.
    fn none() -> SettransFlags
        ensures { result ≡ flags_from [] }
    {
        SettransFlags {
            active: false,
            passive: false,
            create: false,
            exclusive: false,
            goaway: false,
            keep: false,
            force: false,
            orphan: false,
        }
    }

    /// Whether an active translator is to stay as it is, and another flag is about it.
    pub(crate) fn is_at_odds(&self) -> bool
        ensures { result ≡ is_at_odds self.now }
    {
        self.keep && (self.active || self.goaway || self.orphan)
    }
}

/// The flags of a command line, its node, and the words after that.
#[derive(Clone, Copy)]
pub struct Setting<'a> {
    pub flags: SettransFlags,
    pub node: &'a str,
    pub words: &'a [String],
}

/// How many flags stand in front.
fn flag_count(words: &[String]) -> usize
    ensures count { result ≡ flag_count (map string_bytes words.now) }
    ensures within { result ≤ length words.now }
{
    let mut count = 0;
    while count < words.len() && is_flag_word(words[count].as_str()) {
        count += 1;
    }
    count
}

/// A flag word without its hyphen.
fn behind_hyphen(flag: &[u8]) -> &[u8]
    ensures { result.now ≡ drop 1 flag.now }
{
    match flag {
        [_, letters @ ..] => letters,
        [] => flag,
    }
}

/// The letters of flag words.
fn letters_of(alloc: Global, flags: &[String]) -> Result<Vec<u8>, AllocError>
    ensures { IfOk result (λ letters. letters.items ≡ letters_of (map string_bytes flags.now)) }
{
    let mut letters = Vec::new(alloc);
    for flag in flags {
        letters.extend_from_slice(behind_hyphen(flag.as_bytes()))?;
    }
    Ok(letters)
}

/// Whether a flag has this letter.
fn is_known(letter: u8) -> bool
    ensures { result ≡ is_known letter }
{
    matches!(
        letter,
        b'a' | b'p' | b'c' | b'x' | b'g' | b'k' | b'f' | b'o'
    )
}

/// Whether each letter is a flag's, and none is there twice.
fn are_known_once(letters: &[u8]) -> bool
    ensures { result ≡ are_known_once letters.now }
{
    for (index, letter) in letters.iter().enumerate() {
        if !is_known(*letter) || letters[index + 1..].contains(letter) {
            return false;
        }
    }
    true
}

/// One flag more, which is called by its letter.
fn with_flag<'a>(
    alloc: Global,
    command: Command<'a>,
    name: &'a str,
    letter: char,
) -> Result<Command<'a>, AllocError>
    ensures { IfOk result (λ command-2. app_of command-2 ≡ with_rule (app_of command.entry) (letter_flag name.entry.now letter)) }
{
    command.arg(letter_flag(alloc, name, letter))
}

/// The flags that say how an active translator goes.
fn leaving_flags<'a>(alloc: Global, command: Command<'a>) -> Result<Command<'a>, AllocError>
    ensures { IfOk result (λ command-2. app_of command-2 ≡ with_letters (app_of command.entry) (codes "gkfo")) }
{
    let command = with_flag(alloc, command, "g", 'g')?;
    let command = with_flag(alloc, command, "k", 'k')?;
    let command = with_flag(alloc, command, "f", 'f')?;
    with_flag(alloc, command, "o", 'o')
}

/// The flags that say what is set.
fn setting_flags<'a>(alloc: Global, command: Command<'a>) -> Result<Command<'a>, AllocError>
    ensures { IfOk result (λ command-2. app_of command-2 ≡ with_letters (app_of command.entry) (codes "apcx")) }
{
    let command = with_flag(alloc, command, "a", 'a')?;
    let command = with_flag(alloc, command, "p", 'p')?;
    let command = with_flag(alloc, command, "c", 'c')?;
    with_flag(alloc, command, "x", 'x')
}

/// A command that takes flags of eight letters, and a node.
fn settrans_command<'a>(alloc: Global) -> Result<Command<'a>, AllocError>
    ensures { IfOk result (λ command. app_of command ≡ settrans_app) }
{
    let command = setting_flags(alloc, node_command(alloc, "settrans")?)?;
    leaving_flags(alloc, command)
}

/// The flags that clap found.
fn flags_found(matches: &ArgMatches) -> SettransFlags
    ensures { IsFound (rows_of (found_of matches.now)) result }
{
    SettransFlags {
        active: matches.get_flag("a"),
        passive: matches.get_flag("p"),
        create: matches.get_flag("c"),
        exclusive: matches.get_flag("x"),
        goaway: matches.get_flag("g"),
        keep: matches.get_flag("k"),
        force: matches.get_flag("f"),
        orphan: matches.get_flag("o"),
    }
}

/// The flags, the node and the words after it, where there is a node and the flags are good.
/// Clap is asked where a flag is in front.
pub fn setting_of<'a>(alloc: Global, words: &'a [String]) -> Result<Option<Setting<'a>>, AllocError>
    ensures { let ws = map string_bytes words.entry.now in
        IfOk result (λ found. option_map (λ s. (s.flags, (s.node.now, map string_bytes s.words.now))) found ≡ setting_of (letters_of (leading_flags ws)) (from_node ws)) }
{
    let count = flag_count(words);
    if count == words.len() {
        return Ok(None);
    }
    if count == 0 {
        return Ok(Some(Setting {
            flags: SettransFlags::none(),
            node: words[0].as_str(),
            words: &words[1..],
        }));
    }
    let letters = letters_of(alloc, &words[..count])?;
    if !are_known_once(letters.as_slice()) {
        return Ok(None);
    }
    let (front, behind) = words.split_at(count + 1);
    let Some(matches) = matched(settrans_command(alloc)?, front)? else {
        return Ok(None);
    };
    match matches.get_str("node") {
        Some(node) => Ok(Some(Setting {
            flags: flags_found(&matches),
            node,
            words: behind,
        })),
        None => Ok(None),
    }
}
