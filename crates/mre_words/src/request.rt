//! Requests, and the names of the files that they are about.

ghost use Rattle.std.specs.Prelude.{◌≡◌};
ghost use Rattle.mre_words.specs.Requests.{files_of};

use mre_base::{Kind, List, Text};

/// What the words of a command ask for. The files' names are in the order of the words.
#[derive(Debug, Drop)]
pub enum Request {
    /// An explanation of a kind: planner's domain and problem, user's domain and problem, plan.
    Explain { kind: Kind, files: List<Text> },
    /// All differences of two models: planner's domain and problem, user's domain and problem.
    Diff { files: List<Text> },
    /// All differences, for a plan that is valid in the planner's model: as for an explanation.
    Patch { files: List<Text> },
    /// The differences on the actions that the plan uses: as for an explanation.
    PlanPatch { files: List<Text> },
}

impl Request {
    /// The names of the files, in the order of the words.
    pub fn files(&self) -> &List<Text>
        ensures { result.now ≡ files_of self.now }
    {
        match self {
            Request::Explain { kind: _, files } => files,
            Request::Diff { files } => files,
            Request::Patch { files } => files,
            Request::PlanPatch { files } => files,
        }
    }
}
