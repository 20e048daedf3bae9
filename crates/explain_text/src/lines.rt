//! The lines of explanations and of lists of differences.

ghost use Rattle.std.specs.Prelude.{◌≡◌, ◌≤◌, ◌++◌, length, decimal, codes, All, IfOk};
ghost use Rattle.mre_base.specs.Before.{numbers};
ghost use Rattle.model_kit.specs.Sentences.{line};
ghost use Rattle.feature_diff.specs.Differing.{FitsWords};
ghost use Rattle.explain_text.specs.Lines.{kind_name, sentence_of, list_lines, lines_of, AreAmong};

use crate::sentences::sentence_text;
use feature_diff::Difference;
use model_kit::Vocabulary;
use mre_base::{Kind, List, NoMemory, Places, Text};
use std::alloc::Global;

/// The lines of an explanation, each with its line feed: its kind and size, a numbered sentence for
/// each told difference in ascending order, and what the plan costs after them. The vocabulary is
/// that of the differences.
pub fn text_of(
    alloc: Global,
    differences: &List<Difference>,
    words: &Vocabulary,
    kind: Kind,
    told: &Places,
    cost: u64,
) -> Result<List<Text>, NoMemory>
    requires fit { All (FitsWords words.now) differences.now }
    requires few { length differences.now ≤ 256 }
    requires told { AreAmong (length differences.now) told.now }
    ensures ok { IfOk result (λ lines. lines
        ≡ lines_of kind words.now differences.now (numbers (length differences.now) told.now)
        cost) }
{
    let size = told.count();
    let all = differences.len();
    let head = format!(in alloc; "{} {size} of {all}", name_of_kind(kind))?;
    let mut lines = list_of(alloc, head.as_str(), differences, words, told)?;
    lines.push(cost_line(alloc, cost)?)?;
    Ok(lines)
}

/// The line `head`, and after it a line for each chosen difference, in ascending order: its number
/// and its sentence. Each line has its line feed.
pub fn list_of(
    alloc: Global,
    head: &str,
    differences: &List<Difference>,
    words: &Vocabulary,
    chosen: &Places,
) -> Result<List<Text>, NoMemory>
    requires fit { All (FitsWords words.now) differences.now }
    requires few { length differences.now ≤ 256 }
    ensures ok { IfOk result (λ lines. lines
        ≡ list_lines head.now words.now differences.now
        (numbers (length differences.now) chosen.now)) }
{
    let mut lines = List::empty(alloc);
    lines.push(full_line(alloc, head)?)?;
    for place in 0..differences.len() {
        let number = place as u32 + 1;
        if chosen.has(number) {
            let difference = differences.item(place);
            lines.push(sentence_line(alloc, words, difference, number)?)?;
        }
    }
    Ok(lines)
}

// The number of a difference and its sentence, with the line feed.
fn sentence_line(
    alloc: Global,
    words: &Vocabulary,
    difference: &Difference,
    number: u32,
) -> Result<Text, NoMemory>
    requires { FitsWords words.now difference.now }
    ensures ok { IfOk result (λ text. text
        ≡ line (decimal number ++ codes " " ++ sentence_of words.now difference.now)) }
{
    let sentence = sentence_text(alloc, words, difference)?;
    let text = format!(in alloc; "{number} {}", sentence.as_str())?;
    full_line(alloc, text.as_str())
}

// `cost C`, with the line feed.
fn cost_line(alloc: Global, cost: u64) -> Result<Text, NoMemory>
    ensures ok { IfOk result (λ text. text ≡ line (codes "cost " ++ decimal cost)) }
{
    let text = format!(in alloc; "cost {cost}")?;
    full_line(alloc, text.as_str())
}

// The text with a line feed at its end.
fn full_line(alloc: Global, text: &str) -> Result<Text, NoMemory>
    ensures ok { IfOk result (λ made. made ≡ line text.now) }
{
    let full = format!(in alloc; "{text}\n")?;
    Text::of(alloc, full.as_str())
}

fn name_of_kind(kind: Kind) -> &'static str
    ensures { result.now ≡ kind_name kind }
{
    match kind {
        Kind::Mce => "mce",
        Kind::Mme => "mme",
    }
}
