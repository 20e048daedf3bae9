//! The law of printed explanations.

ghost use Rattle.std.specs.Prelude.{length};
ghost use Rattle.mre_base.specs.Before.{numbers};
ghost use Rattle.explain_text.specs.Laws.{ListLaw, LinesLaw, TextLaw};

use feature_diff::Difference;
use mre_base::{Kind, List, Places};

/// For any two models with these differences, the lines of a list and of an explanation are the
/// text that the definitions give.
pub fn law_text(differences: &List<Difference>, kind: Kind, told: &Places, cost: u64)
    ensures list { ListLaw differences.now }
    ensures lines { LinesLaw kind differences.now (numbers (length differences.now) told.now) cost }
    ensures text { TextLaw kind differences.now told.now cost }
{}
