//! The bytes of a line.
ghost use Rattle.std.specs.Prelude.{◌≡◌};
ghost use Rattle.hurd_words.specs.Lines.{is_blank, is_comment, is_skipped, skip_spaces, skip_word, without_end};

/// Whether a line says nothing: a comment, or spaces alone.
pub fn is_skipped(line: &[u8]) -> bool
    ensures { result ≡ is_skipped line.now }
{
    is_comment(line) || is_blank(line)
}

fn is_comment(line: &[u8]) -> bool
    ensures { result ≡ is_comment line.now }
{
    !line.is_empty() && line[0] == b'#'
}

fn is_blank(line: &[u8]) -> bool
    ensures { result ≡ is_blank line.now }
{
    line.iter().all(|byte| *byte == b' ')
}

/// The line without the spaces that it begins with.
pub fn skip_spaces(line: &[u8]) -> &[u8]
    ensures { result.now ≡ skip_spaces line.now }
{
    for (index, byte) in line.iter().enumerate() {
        if *byte != b' ' {
            return &line[index..];
        }
    }
    &[]
}

/// The line from its first space on.
pub fn skip_word(line: &[u8]) -> &[u8]
    ensures { result.now ≡ skip_word line.now }
{
    for (index, byte) in line.iter().enumerate() {
        if *byte == b' ' {
            return &line[index..];
        }
    }
    &[]
}

/// The line without the spaces that it ends with.
pub fn without_end(line: &[u8]) -> &[u8]
    ensures { result.now ≡ without_end line.now }
{
    let mut end = line.len();
    while end > 0 && line[end - 1] == b' ' {
        end -= 1;
    }
    &line[..end]
}
