//! Reading a request from the words of a command.

ghost use Rattle.std.specs.Prelude.{◌≡◌, ◌↔◌, None, Some, IfOk, IsErrOf, map, length};
ghost use Rattle.std.specs.List.{list_all};
ghost use Rattle.std.specs.String.{string_bytes};
ghost use Rattle.mre_words.specs.Requests.{requested, explanation_for, names_if};
ghost use Rattle.mre_words.specs.Requests.{files_of, count_of, are_names as are_names_of};
ghost use Rattle.mre_words.specs.Requests.{is_name as is_filled};

use crate::Request;
use mre_base::{Kind, List, NoMemory, Text};
use std::alloc::Global;

/// Why words make no request.
#[derive(Clone, Copy, Debug, PartialEq, Eq)]
pub enum WordsStop {
    /// The words ask for nothing that the program does.
    NoRequest,
    /// Memory ran out while the names were copied.
    NoMemory,
}

impl From<NoMemory> for WordsStop {
    ghost use Rattle.std.specs.Prelude.{◌≡◌};
    ghost use Rattle.mre_words.specs.declared.reading.WordsStop.TheVariants.{NoMemory};

    ghost from_gives = { λ _ stop. stop ≡ NoMemory };

    fn from(_failure: NoMemory) -> WordsStop {
        WordsStop::NoMemory
    }
}

/// The request that the words after the program's own name make: `explain mce`, `patch` or
/// `plan-patch` and five names, or `diff` and four names. A name is any word that isn't empty.
pub fn read_words(alloc: Global, words: &[String]) -> Result<Request, WordsStop>
    ensures ok { IfOk result (λ request. requested (map string_bytes words.now) ≡ Some request) }
    ensures counted { IfOk result (λ request. length (files_of request) ≡ count_of request) }
    ensures no_request { IsErrOf result WordsStop.NoRequest
        ↔ (requested (map string_bytes words.now) ≡ None) }
{
    let [command, rest @ ..] = words else {
        return Err(WordsStop::NoRequest);
    };
    if command.as_str() == "explain" {
        return read_explanation(alloc, rest);
    }
    if command.as_str() == "diff" {
        let files = read_names(alloc, rest, 4)?;
        return Ok(Request::Diff { files });
    }
    if command.as_str() == "patch" {
        let files = read_names(alloc, rest, 5)?;
        return Ok(Request::Patch { files });
    }
    if command.as_str() == "plan-patch" {
        let files = read_names(alloc, rest, 5)?;
        return Ok(Request::PlanPatch { files });
    }
    Err(WordsStop::NoRequest)
}

// The request that the words after `explain` make.
fn read_explanation(alloc: Global, words: &[String]) -> Result<Request, WordsStop>
    ensures ok { IfOk result (λ request.
        explanation_for (map string_bytes words.now) ≡ Some request) }
    ensures no_request { IsErrOf result WordsStop.NoRequest
        ↔ (explanation_for (map string_bytes words.now) ≡ None) }
{
    let [kind, rest @ ..] = words else {
        return Err(WordsStop::NoRequest);
    };
    if kind.as_str() != "mce" {
        return Err(WordsStop::NoRequest);
    }
    let files = read_names(alloc, rest, 5)?;
    let kind = Kind::Mce;
    Ok(Request::Explain { kind, files })
}

// The words as names, if they are this number of names.
fn read_names(alloc: Global, words: &[String], count: usize) -> Result<List<Text>, WordsStop>
    ensures ok { IfOk result (λ files. names_if count (map string_bytes words.now) ≡ Some files) }
    ensures no_request { IsErrOf result WordsStop.NoRequest
        ↔ (names_if count (map string_bytes words.now) ≡ None) }
{
    if !are_names(words, count) {
        return Err(WordsStop::NoRequest);
    }
    Ok(texts(alloc, words)?)
}

fn are_names(words: &[String], count: usize) -> bool
    ensures { result ≡ are_names_of count (map string_bytes words.now) }
{
    words.len() == count && are_all_names(words)
}

fn are_all_names(words: &[String]) -> bool
    ensures { result ≡ list_all (λ word. is_filled (string_bytes word)) words.now }
{
    words.iter().all(|word| is_name(word.as_str()))
}

fn is_name(word: &str) -> bool
    ensures { result ≡ is_filled word.now }
{
    !word.is_empty()
}

fn texts(alloc: Global, words: &[String]) -> Result<List<Text>, NoMemory>
    ensures ok { IfOk result (λ texts. texts ≡ map string_bytes words.now) }
{
    let mut texts = List::empty(alloc);
    for word in words {
        texts.push(Text::of(alloc, word.as_str())?)?;
    }
    Ok(texts)
}
