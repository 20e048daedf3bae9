//! The printed list of chosen differences.

ghost use Rattle.std.specs.Prelude.{◌≡◌, ◌≤◌, length, All, IfOk};
ghost use Rattle.request_answers.specs.Lines.{IsLine};
ghost use Rattle.std.specs.List.{concat};
ghost use Rattle.std.specs.String.{string_bytes};
ghost use Rattle.feature_diff.specs.Differing.{AreDifferencesOf};
ghost use Rattle.request_answers.specs.Outputs.{listing, list_head};
ghost use Rattle.request_answers.specs.Tasks.{even_task};

use crate::Made;
use crate::question::Question;
use explain_text::list_of;
use feature_diff::Difference;
use mre_base::{List, NoMemory, Places};
use mre_words::Request;
use std::alloc::Global;

/// The list of the chosen differences, as the request prints it.
pub fn list(
    alloc: Global,
    request: &Request,
    question: &Question,
    differences: &List<Difference>,
    chosen: Places,
) -> Result<Made, NoMemory>
    requires all { AreDifferencesOf question.now.pair.planner question.now.pair.user
        differences.now }
    requires few { length differences.now ≤ 256 }
    ensures told { IfOk result (λ made. made.told ≡ chosen) }
    ensures lines { IfOk result (λ made. concat made.lines ≡ listing request.now
        (even_task question.now.pair.planner question.now.pair.user differences.now
        question.now.plan.steps) chosen) }
    ensures whole { IfOk result (λ made. All IsLine made.lines) }
{
    let head = head_of(alloc, request, chosen.count(), differences.len())?;
    let lines = list_of(
        alloc,
        head.as_str(),
        differences,
        question.pair.words(),
        &chosen,
    )?;
    Ok(Made {
        told: chosen,
        lines,
    })
}

// The first line of a list, with the number of chosen differences and of all.
fn head_of(alloc: Global, request: &Request, chosen: u32, all: usize) -> Result<String, NoMemory>
    ensures { IfOk result (λ text. string_bytes text ≡ list_head request.now chosen all) }
{
    match request {
        Request::Diff { .. } => Ok(format!(in alloc; "differences {all}")?),
        Request::Patch { .. } => Ok(format!(in alloc; "patch {chosen} of {all}")?),
        Request::PlanPatch { .. } => Ok(format!(in alloc; "plan-patch {chosen} of {all}")?),
        Request::Explain { .. } => Ok(String::new(alloc)),
    }
}
