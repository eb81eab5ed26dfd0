//! Telling a call by the words of its line.
ghost use Rattle.std.specs.Prelude.{◌≡◌, ◌++◌, IfOk, OnOk};
ghost use Rattle.std.specs.Option.{option_map};
ghost use Rattle.hurd_lists.specs.Calls.{before_box, behind_box, box_place};
ghost use Rattle.hurd_vectors.specs.Fields.{call_fields, field_text, server_text, told_fields, value, word_at, words_behind};
ghost use Rattle.hurd_vectors.specs.Lines.{line_words};

use crate::field::{Field, Sort, field_name, fields_of, sort_of};
use crate::json::{behind, push_names, push_number, push_numbers, push_quoted, push_texts};
use hurd_creds::Bytes;
use hurd_lists::{verb_named, words_of};
use hurd_words::fault::ReadFault;
use std::alloc::{AllocError, Global};

/// The words of a line, with their escapes resolved; a bad one has none. Fails only if memory runs out.
pub(crate) fn line_words(alloc: Global, line: &[u8]) -> Result<Vec<Bytes>, AllocError>
    ensures { IfOk result (λ words. words.items ≡ line_words line.now) }
{
    match words_of(alloc, line) {
        Ok(words) => Ok(words),
        Err(ReadFault::Bad) => Ok(Vec::new(alloc)),
        Err(ReadFault::Memory) => Err(AllocError),
    }
}

/// A word by its place, counted from 0; nothing where there is none.
pub(crate) fn word_at(words: &[Bytes], place: usize) -> &[u8]
    ensures { result.now ≡ word_at words.now place }
{
    match words.get(place) {
        Some(word) => word.as_slice(),
        None => b"",
    }
}

/// Where the word `box` comes first.
fn box_place(words: &[Bytes]) -> Option<usize>
    ensures { result ≡ box_place words.now }
{
    words.iter().position(|word| word.is(b"box"))
}

/// The words before `box`, or all.
fn before_box(words: &[Bytes]) -> &[Bytes]
    ensures { result.now ≡ before_box words.now }
{
    match box_place(words) {
        Some(place) => &words[..place],
        None => words,
    }
}

/// The words after `box`, where it stands.
fn behind_box(words: &[Bytes]) -> Option<&[Bytes]>
    ensures { option_map (λ ws. ws.now) result ≡ behind_box words.now }
{
    let place = box_place(words)?;
    Some(&words[place + 1..])
}

/// Prints the value of a sort that words begin with.
fn push_value(
    alloc: Global,
    text: &mut Vec<u8>,
    sort: Sort,
    words: &[Bytes],
) -> Result<(), AllocError>
    ensures { OnOk result (text.new.items ≡ text.old.items ++ value sort words.now) }
{
    match sort {
        Sort::Number => push_number(text, word_at(words, 0)),
        Sort::Plain => push_quoted(text, word_at(words, 0)),
        Sort::Bytes => push_quoted(text, behind(word_at(words, 0), 1)),
        Sort::Names => push_names(text, word_at(words, 0)),
        Sort::Numbers => push_numbers(alloc, text, word_at(words, 0)),
        Sort::Texts => push_texts(text, 1, before_box(words)),
    }
}

/// The words after a value of a sort.
fn words_behind(sort: Sort, words: &[Bytes]) -> &[Bytes]
    ensures { result.now ≡ words_behind sort words.now }
{
    match sort {
        Sort::Texts => words,
        _ if words.is_empty() => words,
        _ => &words[1..],
    }
}

/// Prints a field that words begin with, before the next.
fn push_field(
    alloc: Global,
    text: &mut Vec<u8>,
    field: Field,
    words: &[Bytes],
) -> Result<(), AllocError>
    ensures { OnOk result (text.new.items ≡ text.old.items ++ field_text field words.now) }
{
    text.push(b'"')?;
    text.extend_from_slice(field_name(field).as_bytes())?;
    text.extend_from_slice(b"\": ")?;
    push_value(alloc, text, sort_of(field), words)?;
    text.extend_from_slice(b", ")?;
    Ok(())
}

/// Prints the words of a server that a call brings, as a field before the next.
fn push_server(text: &mut Vec<u8>, words: &[Bytes]) -> Result<(), AllocError>
    ensures { OnOk result (text.new.items ≡ text.old.items ++ server_text (behind_box words.now)) }
{
    let Some(words) = behind_box(words) else {
        return Ok(());
    };
    text.extend_from_slice(b"\"server\": ")?;
    push_texts(text, 1, words)?;
    text.extend_from_slice(b", ")?;
    Ok(())
}

/// Prints fields with the words that are their values, and after them the words of a server.
fn push_fields(
    alloc: Global,
    text: &mut Vec<u8>,
    fields: &[Field],
    words: &[Bytes],
) -> Result<(), AllocError>
    ensures { OnOk result (text.new.items ≡ text.old.items ++ told_fields fields.now words.now) }
{
    let mut left = words;
    for field in fields {
        push_field(alloc, text, *field, left)?;
        left = words_behind(sort_of(*field), left);
    }
    push_server(text, left)
}

/// Prints all fields of a call's line of these words, before its reply.
pub(crate) fn push_call(
    alloc: Global,
    text: &mut Vec<u8>,
    words: &[Bytes],
) -> Result<(), AllocError>
    ensures { OnOk result (text.new.items ≡ text.old.items ++ call_fields words.now) }
{
    let fields = fields_of(verb_named(word_at(words, 1)));
    push_field(alloc, text, Field::Task, words)?;
    let words = words_behind(Sort::Number, words);
    push_field(alloc, text, Field::Call, words)?;
    push_fields(alloc, text, fields, words_behind(Sort::Plain, words))
}
