//! The words of the command line, taken apart.
ghost use Rattle.std.specs.Prelude.{◌≡◌, ◌==◌, ◌++◌, map, true, false, option_map, MatchOption, IfOk};
ghost use Rattle.std.specs.List.{list_any, before_first, after_first};
ghost use Rattle.yds_trace_words.specs.Words as spec;
ghost use Rattle.yds_trace_words.specs.Words.{settings_of, files_of, inputs_of, value_of, other_than, given_twice};
ghost use Rattle.yds_trace_words.specs.Views.{words_of, setting_read, settings_read, names_read, Reads, IsWord};

use crate::fault::{NoRequest, Reason, WordFault};
use base::Memory;
use std::alloc::Global;

/// What is set, and to which value; a flag's is empty.
#[derive(Clone, Copy, Debug, PartialEq, Eq)]
pub struct Setting<'a> {
    pub name: &'a [u8],
    pub value: &'a [u8],
}

/// What a word says.
#[derive(Clone, Copy, Debug, PartialEq, Eq)]
pub enum Word<'a> {
    /// A setting.
    Whole(Setting<'a>),
    /// A name, whose value is the next word.
    Waits(&'a [u8]),
    /// A file.
    File(&'a [u8]),
    /// All words behind it are files.
    Files,
    /// Nothing that can be taken.
    Wrong(WordFault<'a>),
}

/// What the words set, in their order. Nothing is read behind `--help` and `--version`.
pub(crate) fn settings<'a>(
    alloc: Global,
    words: &'a [String],
) -> Result<Vec<Setting<'a>>, NoRequest<'a>>
    ensures { Reads settings_read result (settings_of (words_of words.now)) }
{
    let mut settings = Vec::new(alloc);
    let mut rest = words;
    while let Some((first, others)) = rest.split_first() {
        match word_of(first.as_bytes()) {
            Word::Whole(setting) => {
                settings.push(setting)?;
                if ends_words(setting.name) {
                    return Ok(settings);
                }
                rest = others;
            }
            Word::Waits(name) => {
                let Some((value, behind)) = others.split_first() else {
                    return Err(NoRequest::Fault(WordFault::of(name, Reason::NoValue)));
                };
                settings.push(Setting {
                    name,
                    value: value.as_bytes(),
                })?;
                rest = behind;
            }
            Word::File(_) => rest = others,
            Word::Files => return Ok(settings),
            Word::Wrong(fault) => return Err(NoRequest::Fault(fault)),
        }
    }
    Ok(settings)
}

/// What the trace is read from: the files that the words name, in their order, or a hyphen for standard input where there is none.
pub fn inputs<'a>(alloc: Global, words: &'a [String]) -> Result<Vec<&'a str>, Memory>
    ensures { IfOk result (λ inputs. names_read inputs ≡ inputs_of (words_of words.now)) }
{
    let files = files(alloc, words)?;
    if !files.is_empty() {
        return Ok(files);
    }
    let mut input = Vec::new(alloc);
    input.push("-")?;
    Ok(input)
}

/// The files that the words name, in their order: a word that doesn't begin with a hyphen or is just that, and each one behind `--`.
fn files<'a>(alloc: Global, words: &'a [String]) -> Result<Vec<&'a str>, Memory>
    ensures { IfOk result (λ files. names_read files ≡ files_of (words_of words.now)) }
{
    let mut files = Vec::new(alloc);
    let mut rest = words;
    while let Some((first, others)) = rest.split_first() {
        match word_of(first.as_bytes()) {
            Word::Whole(_) | Word::Wrong(_) => rest = others,
            Word::Waits(_) => match others.split_first() {
                Some((_value, behind)) => rest = behind,
                None => return Ok(files),
            },
            Word::File(_) => {
                files.push(first.as_str())?;
                rest = others;
            }
            Word::Files => return with_all(files, others),
        }
    }
    Ok(files)
}

/// These files, and all of these words behind them.
fn with_all<'a>(mut files: Vec<&'a str>, words: &'a [String]) -> Result<Vec<&'a str>, Memory>
    ensures { IfOk result (λ all. names_read all ≡ names_read files.entry ++ words_of words.now) }
{
    for word in words {
        files.push(word.as_str())?;
    }
    Ok(files)
}

/// What one word says.
fn word_of(word: &[u8]) -> Word<'_>
    ensures { IsWord result (spec.word_of word.now) }
{
    if is_file(word) {
        Word::File(word)
    } else if word == b"--".as_slice() {
        Word::Files
    } else {
        option_of(word)
    }
}

/// Whether it doesn't begin with a hyphen, or is just that.
fn is_file(word: &[u8]) -> bool
    ensures { result ≡ spec.is_file word.now }
{
    match word {
        [first, _, ..] => *first != b'-',
        [_] | [] => true,
    }
}

/// What a word says that is no file.
fn option_of(word: &[u8]) -> Word<'_>
    ensures { IsWord result (spec.option_of word.now) }
{
    let (name, value) = split_at_byte(word, b'=');
    match value {
        Some(value) => with_value(name, value),
        None => without_value(word),
    }
}

fn with_value<'a>(name: &'a [u8], value: &'a [u8]) -> Word<'a>
    ensures { IsWord result (spec.with_value name.now value.now) }
{
    if takes_value(name) {
        Word::Whole(Setting { name, value })
    } else if is_flag(name) {
        Word::Wrong(WordFault::of(name, Reason::Needless))
    } else {
        Word::Wrong(WordFault::of(name, Reason::Unknown))
    }
}

fn without_value(name: &[u8]) -> Word<'_>
    ensures { IsWord result (spec.without_value name.now) }
{
    if takes_value(name) {
        Word::Waits(name)
    } else if is_flag(name) {
        Word::Whole(Setting {
            name,
            value: &name[name.len()..],
        })
    } else {
        Word::Wrong(WordFault::of(name, Reason::Unknown))
    }
}

/// Whether this is set to a value.
fn takes_value(name: &[u8]) -> bool
    ensures { result ≡ spec.takes_value name.now }
{
    name == b"--cpu".as_slice()
        || name == b"--tasks".as_slice()
        || name == b"--us".as_slice()
        || name == b"--khz".as_slice()
        || name == b"--start".as_slice()
        || name == b"--fixed".as_slice()
        || name == b"--from".as_slice()
        || name == b"--to".as_slice()
        || name == b"--begin".as_slice()
        || name == b"--lost".as_slice()
        || name == b"--moved".as_slice()
        || name == b"--others".as_slice()
}

fn ends_words(name: &[u8]) -> bool
    ensures { result ≡ spec.ends_words name.now }
{
    name == b"--help".as_slice() || name == b"--version".as_slice()
}

fn is_flag(name: &[u8]) -> bool
    ensures { result ≡ spec.is_flag name.now }
{
    name == b"--parts".as_slice() || name == b"--strict".as_slice() || ends_words(name)
}

/// The value that this is set to.
pub(crate) fn value<'a>(settings: &[Setting<'a>], name: &[u8]) -> Option<&'a [u8]>
    ensures { option_map (λ value. value.now) result ≡ value_of name.now (map setting_read settings.now) }
{
    for setting in settings {
        if setting.name == name {
            return Some(setting.value);
        }
    }
    None
}

/// The first name that is set and isn't this one.
pub(crate) fn other_than<'a>(settings: &[Setting<'a>], name: &[u8]) -> Option<&'a [u8]>
    ensures { option_map (λ name. name.now) result ≡ other_than name.now (map setting_read settings.now) }
{
    for setting in settings {
        if setting.name != name {
            return Some(setting.name);
        }
    }
    None
}

/// The first name that is set again.
pub(crate) fn twice<'a>(settings: &[Setting<'a>]) -> Option<&'a [u8]>
    ensures { option_map (λ name. name.now) result ≡ given_twice (map setting_read settings.now) }
{
    let mut rest = settings;
    while let [first, others @ ..] = rest {
        if value(others, first.name).is_some() {
            return Some(first.name);
        }
        rest = others;
    }
    None
}

/// What stands before the first such byte, and what behind it, if there is one.
pub(crate) fn split_at_byte(text: &[u8], byte: u8) -> (&[u8], Option<&[u8]>)
    ensures before { result.0.now ≡ before_first (λ other. other == byte) text.now }
    ensures behind { MatchOption result.1 (list_any (λ other. other == byte) text.now ≡ false)
        (λ behind. (list_any (λ other. other == byte) text.now ≡ true) × (behind.now ≡ after_first (λ other. other == byte) text.now)) }
{
    for (index, &other) in text.iter().enumerate() {
        if other == byte {
            return (&text[..index], Some(&text[index + 1..]));
        }
    }
    (text, None)
}
