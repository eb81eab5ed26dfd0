//! How the program is called, for clap.
use crate::release::VERSION;
use clap::{Arg, ArgAction, Command};
use std::alloc::{AllocError, Global};

const ABOUT: &str =
    "Run scripts in which several users share a file tree, and report what each of them can learn.\nThe tree is in memory. Files may be served by translators of ten built-in kinds, as in the GNU Hurd.";

const AFTER: &str =
    "FILE  a script; or a call list, if its name ends in .calls or --calls is given; - is standard input\nWHO   comma-separated users of the script, or task numbers of the call list\nONE, TWO  scripts with the same users, in which WHO run the same commands\n\nExit status:\n  0  success (compare: WHO get the same replies in both scripts)\n  1  FILE is invalid, WHO names somebody who is not in it, or ONE and TWO cannot be compared\n  2  wrong usage, a read or write failed, or out of memory\n  3  compare: WHO get a different reply in TWO\n  4  there was more output than --max-output allows\n\nErrors go to standard error, as  hurd: FILE:LINE: bad script: REASON\n\nExamples:\n  hurd run examples/welcome.hurd\n  hurd learn alice examples/learned-secret.hurd\n  hurd learn --how alice examples/learned-secret.hurd\n  hurd see alice examples/learned-secret.hurd\n  hurd can alice examples/learned-secret.hurd\n  hurd draw --as alice examples/learned-secret.hurd | dot -Tsvg > tree.svg\n  hurd compare alice examples/unseen-one.hurd examples/unseen-two.hurd\n  hurd run --json examples/sent-port.calls\n  hurd sample 7 | hurd learn alice -";

const FILE: &str = "a script, a call list (NAME.calls), or - for standard input";

const WHO: &str = "comma-separated users of the script, or task numbers of the call list";

const SCRIPT: &str = "a script, or - for standard input";

/// A word that has to be there.
fn word<'a>(alloc: Global, name: &'a str, help: &'a str) -> Arg<'a> {
    Arg::new(alloc, name)
        .action(ArgAction::Set)
        .required(true)
        .help(help)
}

/// An option that takes a number of bytes.
fn bytes<'a>(alloc: Global, name: &'a str, help: &'a str) -> Arg<'a> {
    Arg::new(alloc, name)
        .long(name)
        .value_name("BYTES")
        .action(ArgAction::Set)
        .help(help)
}

/// The option that each verb has: how much it prints at most.
fn most_output<'a>(alloc: Global) -> Arg<'a> {
    bytes(
        alloc,
        "max-output",
        "Stop once BYTES bytes are printed, with status 4 if there were more",
    )
}

/// The option of verbs that print what is seen: how much of it they print at a time.
fn most_look<'a>(alloc: Global) -> Arg<'a> {
    bytes(
        alloc,
        "max-look",
        "Print at most BYTES bytes of each lesson and of each look, and say how many more there are",
    )
}

/// The option by which FILE is a record.
fn record<'a>(alloc: Global) -> Arg<'a> {
    Arg::new(alloc, "record")
        .long("record")
        .action(ArgAction::SetTrue)
        .help(
            "Treat FILE as a record: a call list of any length, whose calls are made as it is read",
        )
}

/// A verb for one text. Fails only if memory runs out.
fn verb<'a>(alloc: Global, name: &'a str, about: &'a str) -> Result<Command<'a>, AllocError> {
    let calls = Arg::new(alloc, "calls")
        .long("calls")
        .action(ArgAction::SetTrue)
        .help("Treat FILE as a call list");
    Command::new(alloc, name).about(about).arg(calls)
}

/// The verb for a transcript. Fails only if memory runs out.
fn run<'a>(alloc: Global) -> Result<Command<'a>, AllocError> {
    let json = Arg::new(alloc, "json")
        .long("json")
        .action(ArgAction::SetTrue)
        .help("Print each call and its reply as a line of JSON (call lists only)");
    verb(
        alloc,
        "run",
        "Print the transcript of a script or call list",
    )?
    .arg(json)?
    .arg(record(alloc).conflicts_with("json")?)?
    .arg(most_output(alloc))?
    .arg(word(alloc, "FILE", FILE))
}

/// The verb for what is learned. Fails only if memory runs out.
fn learn<'a>(alloc: Global) -> Result<Command<'a>, AllocError> {
    let how = Arg::new(alloc, "how")
        .long("how")
        .action(ArgAction::SetTrue)
        .help(
            "After each line, show a command of theirs that would reveal it (scripts only; slow)",
        );
    verb(
        alloc,
        "learn",
        "Print the transcript and, after each command by others, what WHO learn from it",
    )?
    .arg(how)?
    .arg(record(alloc).conflicts_with("how")?)?
    .arg(most_look(alloc))?
    .arg(most_output(alloc))?
    .arg(word(alloc, "WHO", WHO))?
    .arg(word(alloc, "FILE", FILE))
}

/// The verb for what could be shown. Fails only if memory runs out.
fn can<'a>(alloc: Global) -> Result<Command<'a>, AllocError> {
    let all = Arg::new(alloc, "all")
        .long("all")
        .action(ArgAction::SetTrue)
        .help("List every part, not only bytes, entries and nodes");
    let how = Arg::new(alloc, "how")
        .long("how")
        .action(ArgAction::SetTrue)
        .help(
            "After each line, print a script for each set of helpers that would show it (scripts only; slow)",
        );
    verb(
        alloc,
        "can",
        "Print what WHO could be shown at the end, and by whose help",
    )?
    .arg(all)?
    .arg(how)?
    .arg(most_output(alloc))?
    .arg(word(alloc, "WHO", WHO))?
    .arg(word(alloc, "FILE", FILE))
}

/// The verb for a random text. Fails only if memory runs out.
fn sample<'a>(alloc: Global) -> Result<Command<'a>, AllocError> {
    let calls = Arg::new(alloc, "calls")
        .long("calls")
        .action(ArgAction::SetTrue)
        .help("Print a call list");
    let count = Arg::new(alloc, "COUNT")
        .action(ArgAction::Set)
        .help("number of commands or calls [default: 20]");
    Command::new(alloc, "sample")
        .about("Generate a random script or call list")
        .arg(calls)?
        .arg(most_output(alloc))?
        .arg(word(
            alloc,
            "SEED",
            "0 to 18446744073709551615; the same seed gives the same output",
        ))?
        .arg(count)
}

/// The verb for two scripts. Fails only if memory runs out.
fn compare<'a>(alloc: Global) -> Result<Command<'a>, AllocError> {
    let about = "Run two scripts and report whether WHO can tell them apart";
    Command::new(alloc, "compare")
        .about(about)
        .arg(most_output(alloc))?
        .arg(word(alloc, "WHO", "comma-separated users of both scripts"))?
        .arg(word(alloc, "ONE", SCRIPT))?
        .arg(word(alloc, "TWO", SCRIPT))
}

/// The verb for what is seen. Fails only if memory runs out.
fn see<'a>(alloc: Global) -> Result<Command<'a>, AllocError> {
    verb(alloc, "see", "Print everything that WHO can see at the end")?
        .arg(record(alloc))?
        .arg(most_look(alloc))?
        .arg(most_output(alloc))?
        .arg(word(alloc, "WHO", WHO))?
        .arg(word(alloc, "FILE", FILE))
}

/// The verb for a picture. Fails only if memory runs out.
fn draw<'a>(alloc: Global) -> Result<Command<'a>, AllocError> {
    let marked = Arg::new(alloc, "as")
        .long("as")
        .value_name("WHO")
        .action(ArgAction::Set)
        .help("Mark what WHO can see");
    let helped = Arg::new(alloc, "can")
        .long("can")
        .value_name("WHO")
        .action(ArgAction::Set)
        .conflicts_with("as")?
        .help("Mark what WHO can see, and what users other than root could show them");
    verb(
        alloc,
        "draw",
        "Print the tree at the end as a Graphviz graph",
    )?
    .arg(marked)?
    .arg(helped)?
    .arg(record(alloc))?
    .arg(most_output(alloc))?
    .arg(word(alloc, "FILE", FILE))
}

/// The command line without its verbs. Fails only if memory runs out.
fn bare<'a>(alloc: Global) -> Result<Command<'a>, AllocError> {
    let command = Command::new(alloc, "hurd").bin_name("hurd")?;
    Ok(
        command
            .version(VERSION)
            .about(ABOUT)
            .after_help(AFTER)
            .subcommand_required(true)
            .arg_required_else_help(true),
    )
}

/// A command line with one verb more. Fails only if memory runs out.
fn with<'a>(
    command: Command<'a>,
    verb: Result<Command<'a>, AllocError>,
) -> Result<Command<'a>, AllocError> {
    command.subcommand(verb?)
}

/// The whole command line. Fails only if memory runs out.
pub fn hurd<'a>(alloc: Global) -> Result<Command<'a>, AllocError> {
    let command = with(bare(alloc)?, run(alloc))?;
    let command = with(command, learn(alloc))?;
    let command = with(command, see(alloc))?;
    let command = with(command, can(alloc))?;
    let command = with(command, draw(alloc))?;
    let command = with(command, compare(alloc))?;
    with(command, sample(alloc))
}
