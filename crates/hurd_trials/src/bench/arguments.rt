//! What the program is asked for.
ghost use Rattle.std.specs.Prelude.{◌<◌};

use crate::bench::fault::Fault;
use crate::bench::files::Files;
use crate::bench::work::Work;

/// The files of a run without an argument.
const SAMPLE: usize = 100;

/// The most files of a run.
const MOST_FILES: usize = 10_000_000;

/// What sort of server comes on files.
#[derive(Clone, Copy)]
pub enum Kind {
    /// A file that gives a short text.
    Hello,
    /// A firm link to the first directory.
    Firmlink,
}

/// How many files there are to be, which servers come, and whether times are printed.
#[derive(Clone, Copy)]
pub struct Asked {
    pub files: Files,
    pub kind: Kind,
    pub timed: bool,
}

impl Asked {
    /// The step from one file beside which a server comes to the next. Firm links come beside each file, where these are at
    /// most 100,000.
    pub fn stride(self) -> usize
        ensures { 0 < result }
    {
        match self.kind {
            Kind::Firmlink if self.files.count <= 100_000 => 1,
            _ => self.files.stride(Work::Serve),
        }
    }

    /// What the words ask for: at most a number of files, and a kind of server, hellos where none is named.
    pub fn read(words: &[String]) -> Result<Asked, Fault> {
        match words {
            [] => Ok(Asked {
                files: Files { count: SAMPLE },
                kind: Kind::Hello,
                timed: false,
            }),
            [files] => Asked::of(files, Kind::Hello),
            [files, kind] => Asked::of(files, kind_named(kind).ok_or(Fault::Usage)?),
            _ => Err(Fault::Usage),
        }
    }

    /// So many files as digits name, with times.
    fn of(files: &str, kind: Kind) -> Result<Asked, Fault> {
        Ok(Asked {
            files: Files {
                count: number(files).ok_or(Fault::Usage)?,
            },
            kind,
            timed: true,
        })
    }
}

/// The kind of server that a word names, if it names one.
fn kind_named(word: &str) -> Option<Kind> {
    match word {
        "hello" => Some(Kind::Hello),
        "firmlink" => Some(Kind::Firmlink),
        _ => None,
    }
}

/// The number of files that digits name, if there may be so many.
fn number(text: &str) -> Option<usize> {
    if !text.bytes().all(|byte| byte.is_ascii_digit()) {
        return None;
    }
    let count = text.parse::<usize>().ok()?;
    if count == 0 || count > MOST_FILES {
        return None;
    }
    Some(count)
}
