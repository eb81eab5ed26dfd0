//! The words that the program is called with.
use crate::command::hurd;
use crate::shown::all_shown;
use clap::error::ErrorKind;
use clap::{ArgMatches, Error};
use hurd_program::{Request, TextSort, Verb};
use hurd_record::Report;
use hurd_terminal::Output;
use std::alloc::{AllocError, Global};
use std::{env, io};

/// The exit status of trouble.
pub const TROUBLE: u8 = 2;

/// What is asked of one text.
#[derive(Drop)]
pub enum Wanted {
    Request(Request),
    /// A report of a record.
    Record(Report),
    /// A list as vectors.
    Vectors,
    /// What these learn of a script, with how they could be told it.
    Witnesses { who: String },
}

/// What is asked, and how many bytes may be printed, if that is limited.
#[derive(Drop)]
pub struct Words {
    pub asked: Asked,
    pub most: Option<usize>,
}

/// What is asked, and of which files; `-` is standard input.
#[derive(Drop)]
pub enum Asked {
    Text {
        wanted: Wanted,
        file: String,
    },
    /// Whether these get the same replies in two scripts.
    Pair {
        who: String,
        one: String,
        two: String,
    },
    /// A random text of a sort.
    Sample {
        sort: TextSort,
        seed: u64,
        count: u64,
    },
}

/// Why nothing is asked.
#[derive(Clone, Copy, Debug)]
pub enum Unasked {
    /// Vectors are asked for, and not of a list.
    NoList,
    /// Ways that users could go are asked for, and of a list.
    NoScript,
    /// A seed is no number that one can be.
    Seed,
    /// A count is none.
    Count,
    /// A number of bytes is none.
    Bytes,
    /// Witnesses are asked for, and lessons that are cut short.
    CutWitnesses,
    Memory,
}

impl From<AllocError> for Unasked {
    fn from(_error: AllocError) -> Unasked {
        Unasked::Memory
    }
}

impl Unasked {
    /// What is said of it.
    fn line(self) -> &'static [u8] {
        match self {
            Unasked::NoList => {
                b"hurd: --json is for call lists: the file's name ends in .calls, or --calls is given\n"
            }
            Unasked::NoScript =>
                b"hurd: --how is for scripts: it tries no commands in a call list\n",
            Unasked::Seed => b"hurd: SEED must be a number from 0 to 18446744073709551615\n",
            Unasked::Count => b"hurd: COUNT must be a number from 0 to 18446744073709551615\n",
            Unasked::Bytes => { b"hurd: BYTES must be a number from 0 to 18446744073709551615\n" }
            Unasked::CutWitnesses => b"hurd: --how and --max-look cannot be combined\n",
            Unasked::Memory => b"hurd: out of memory\n",
        }
    }
}

/// The text of a word; nothing where it isn't there. Fails only if memory runs out.
fn text_of(alloc: Global, matches: &ArgMatches<'_>, id: &str) -> Result<String, AllocError> {
    match matches.get_str(id) {
        Some(text) => String::from_str(alloc, text),
        None => Ok(String::new(alloc)),
    }
}

/// Those whose sight is marked in a picture, if any are named. Fails only if memory runs out.
fn named_by(alloc: Global, matches: &ArgMatches<'_>) -> Result<Option<String>, AllocError> {
    match matches.get_str("can").or(matches.get_str("as")) {
        Some(who) => Ok(Some(String::from_str(alloc, who)?)),
        None => Ok(None),
    }
}

/// What is asked by a verb and its words.
fn asked_by(alloc: Global, verb: &str, matches: &ArgMatches<'_>) -> Result<Asked, Unasked> {
    match verb {
        "compare" => Ok(Asked::Pair {
            who: text_of(alloc, matches, "WHO")?,
            one: text_of(alloc, matches, "ONE")?,
            two: text_of(alloc, matches, "TWO")?,
        }),
        "sample" => sample_of(matches),
        "run" | "learn" | "see" | "draw" if matches.get_flag("record") => {
            record_of(alloc, verb, matches)
        }
        "run" if matches.get_flag("json") => vectors_of(alloc, matches),
        "learn" if matches.get_flag("how") => witnesses_of(alloc, matches),
        _ => request_of(alloc, verb, matches),
    }
}

/// How many commands or calls a sample has where it isn't said.
const FEW: &str = "20";

/// A random text that is asked for.
fn sample_of(matches: &ArgMatches<'_>) -> Result<Asked, Unasked> {
    let sort = if matches.get_flag("calls") {
        TextSort::Calls
    } else {
        TextSort::Script
    };
    let Some(seed) = number_of(matches.get_str("SEED")) else {
        return Err(Unasked::Seed);
    };
    let Some(count) = number_of(matches.get_str("COUNT").or(Some(FEW))) else {
        return Err(Unasked::Count);
    };
    Ok(Asked::Sample { sort, seed, count })
}

/// The number that a word of digits says, if it is one.
fn number_of(word: Option<&str>) -> Option<u64> {
    let word = word?;
    match word.as_bytes().first() {
        Some(b'+') => None,
        _ => word.parse().ok(),
    }
}

/// How many bytes an option allows, if it is given.
fn bytes_of(matches: &ArgMatches<'_>, id: &str) -> Result<Option<usize>, Unasked> {
    let Some(word) = matches.get_str(id) else {
        return Ok(None);
    };
    match number_of(Some(word)) {
        Some(number) => Ok(Some(number as usize)),
        None => Err(Unasked::Bytes),
    }
}

/// A list that is asked for as vectors.
fn vectors_of(alloc: Global, matches: &ArgMatches<'_>) -> Result<Asked, Unasked> {
    let file = text_of(alloc, matches, "FILE")?;
    match sort_of(matches, &file) {
        TextSort::Calls => Ok(Asked::Text {
            wanted: Wanted::Vectors,
            file,
        }),
        TextSort::Script => Err(Unasked::NoList),
    }
}

/// A script that is asked for with witnesses.
fn witnesses_of(alloc: Global, matches: &ArgMatches<'_>) -> Result<Asked, Unasked> {
    if matches.get_str("max-look").is_some() {
        return Err(Unasked::CutWitnesses);
    }
    let who = text_of(alloc, matches, "WHO")?;
    let file = text_of(alloc, matches, "FILE")?;
    match sort_of(matches, &file) {
        TextSort::Script => Ok(Asked::Text {
            wanted: Wanted::Witnesses { who },
            file,
        }),
        TextSort::Calls => Err(Unasked::NoScript),
    }
}

/// What sort of text a file has, by its name and the flags.
fn sort_of(matches: &ArgMatches<'_>, file: &String) -> TextSort {
    if matches.get_flag("calls") || file.as_str().ends_with(".calls") {
        TextSort::Calls
    } else {
        TextSort::Script
    }
}

/// A report of a record.
fn record_of(alloc: Global, verb: &str, matches: &ArgMatches<'_>) -> Result<Asked, Unasked> {
    let report = match verb {
        "learn" => Report::Lessons {
            who: text_of(alloc, matches, "WHO")?,
            most: bytes_of(matches, "max-look")?,
        },
        "see" => Report::Sight {
            who: text_of(alloc, matches, "WHO")?,
            most: bytes_of(matches, "max-look")?,
        },
        "draw" => Report::Picture {
            who: named_by(alloc, matches)?,
            can: matches.get_str("can").is_some(),
        },
        _ => Report::Transcript,
    };
    let file = text_of(alloc, matches, "FILE")?;
    Ok(Asked::Text {
        wanted: Wanted::Record(report),
        file,
    })
}

/// The same of a verb for one file.
fn request_of(alloc: Global, verb: &str, matches: &ArgMatches<'_>) -> Result<Asked, Unasked> {
    let file = text_of(alloc, matches, "FILE")?;
    let sort = sort_of(matches, &file);
    let how = verb == "can" && matches.get_flag("how");
    if how && matches!(sort, TextSort::Calls) {
        return Err(Unasked::NoScript);
    }
    let verb = match verb {
        "learn" => Verb::Learn {
            who: text_of(alloc, matches, "WHO")?,
            most: bytes_of(matches, "max-look")?,
        },
        "see" => Verb::See {
            who: text_of(alloc, matches, "WHO")?,
            most: bytes_of(matches, "max-look")?,
        },
        "can" => Verb::Can {
            who: text_of(alloc, matches, "WHO")?,
            every: matches.get_flag("all"),
            how,
        },
        "draw" => Verb::Draw {
            who: named_by(alloc, matches)?,
            can: matches.get_str("can").is_some(),
        },
        _ => Verb::Run,
    };
    let wanted = Wanted::Request(Request { sort, verb });
    Ok(Asked::Text { wanted, file })
}

/// Says a line on standard error; returns the exit status of trouble.
pub fn trouble(rt: &HostRuntime, line: &[u8]) -> u8 {
    let mut errors = Output::new(rt.stderr());
    let _ = errors.print(line);
    TROUBLE
}

/// Prints what clap says in place of an answer: help, the version, or what is wrong with words that are printed as they are. Answers the exit status.
fn tell(rt: &HostRuntime, error: &Error) -> u8 {
    if matches!(error.kind(), ErrorKind::OutOfMemory) {
        return trouble(rt, b"hurd: out of memory\n");
    }
    let _ = error.print(rt);
    error.exit_code() as u8
}

/// Whether words are refused: neither do they ask for help or the version, nor is there no memory.
fn is_refusal(error: &Error) -> bool {
    error.use_stderr() && !matches!(error.kind(), ErrorKind::OutOfMemory)
}

/// What clap says of words that it refuses; nothing of words that it takes. Fails only if memory runs out.
fn refusal(alloc: Global, words: &[String]) -> Result<Option<Error>, AllocError> {
    let command = hurd(alloc)?;
    Ok(command.try_get_matches_from(words).err())
}

/// Says what is wrong with words that clap refuses, by what it says of them with escapes, so that no word is a line or a control code of the program's own. It
/// refuses these for the same reason, since no name of a verb or an option has a byte that is escaped. Answers the exit status.
fn refuse(rt: &HostRuntime, words: &[String]) -> u8 {
    let Ok(words) = all_shown(rt.alloc(), words) else {
        return trouble(rt, b"hurd: out of memory\n");
    };
    match refusal(rt.alloc(), words.as_slice()) {
        Ok(Some(error)) => tell(rt, &error),
        Ok(None) => trouble(rt, b"hurd: a command-line argument is not printable text\n"),
        Err(_) => trouble(rt, b"hurd: out of memory\n"),
    }
}

/// What is asked by a verb and its words, and how much may be printed.
fn words_by(alloc: Global, verb: &str, matches: &ArgMatches<'_>) -> Result<Words, Unasked> {
    let most = bytes_of(matches, "max-output")?;
    let asked = asked_by(alloc, verb, matches)?;
    Ok(Words { asked, most })
}

/// What these words ask; else the exit status, where help or what is wrong with them was printed.
fn parsed(rt: &HostRuntime, words: &[String]) -> Result<Words, u8> {
    let alloc = rt.alloc();
    let Ok(command) = hurd(alloc) else {
        return Err(trouble(rt, b"hurd: out of memory\n"));
    };
    match command.try_get_matches_from(words) {
        Ok(matches) => match matches.subcommand() {
            Some((verb, found)) => match words_by(alloc, verb, found) {
                Ok(asked) => Ok(asked),
                Err(why) => Err(trouble(rt, why.line())),
            },
            None => Err(TROUBLE),
        },
        Err(error) if is_refusal(&error) => Err(refuse(rt, words)),
        Err(error) => Err(tell(rt, &error)),
    }
}

/// What is asked on the command line; else the exit status, where help or what is wrong was printed.
pub fn read_words(rt: &HostRuntime) -> Result<Words, u8> {
    let arguments = match env::args(rt) {
        Ok(arguments) => arguments,
        Err(error) if error.kind() == io::ErrorKind::OutOfMemory => {
            return Err(trouble(rt, b"hurd: out of memory\n"));
        }
        Err(_) => return Err(trouble(rt, b"hurd: a command-line argument is not valid UTF-8\n")),
    };
    match arguments.collect::<Vec<String>>(rt.alloc()) {
        Ok(words) => parsed(rt, words.as_slice()),
        Err(_) => Err(trouble(rt, b"hurd: out of memory\n")),
    }
}
