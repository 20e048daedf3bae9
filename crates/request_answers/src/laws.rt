//! The laws of ends: each list of contents ends with exactly one status.

ghost use Rattle.std.specs.Prelude.{ℕ, ◌≡◌, ◌≢◌, ◌⊎◌, List};
ghost use Rattle.std.specs.Ordering.{nat_cmp};
ghost use Rattle.std.specs.FinSet as set;
ghost use Rattle.mre_words.specs.declared.request.Request.{Request};
ghost use Rattle.request_answers.specs.declared.stop.AnswerStop.{AnswerStop};
ghost use Rattle.request_answers.specs.declared.stop.AnswerStop.TheVariants.{NoMemory};
ghost use Rattle.request_answers.specs.Causes.{IsDue};
ghost use Rattle.request_answers.specs.Ends.{EndsAt};
ghost use Rattle.request_answers.specs.Lines.{status_of};
ghost use Rattle.request_answers.specs.Outputs.{IsAnswer};

/// The contents of a request's files end with one status at most: that of a stop of which they are
/// the cause, or 0 if they have an answer. So they never have both, and are never the cause of two
/// stops with different statuses.
pub fn law_ends()
    ensures once { (request : Request) (contents : List (List ℕ)) (one two : ℕ) →
        EndsAt request contents one → EndsAt request contents two → one ≡ two }
    ensures stopped { (request : Request) (contents : List (List ℕ)) (stop : AnswerStop)
        → stop ≢ NoMemory →
        IsDue request contents stop → EndsAt request contents (status_of stop) }
    ensures answered { (request : Request) (contents : List (List ℕ)) (told : set.FinSet nat_cmp)
        (text : List ℕ) →
        IsAnswer request contents told text → EndsAt request contents 0 }
{}

/// The contents of a request's files end with some status: they have an answer, or they are the
/// cause of a stop other than running out of memory.
pub fn law_each_ends()
    ensures caused { (request : Request) (contents : List (List ℕ)) →
        ((told : set.FinSet nat_cmp) × (text : List ℕ) × IsAnswer request contents told text)
        ⊎ ((stop : AnswerStop) × (stop ≢ NoMemory) × IsDue request contents stop) }
    ensures some { (request : Request) (contents : List (List ℕ)) →
        (status : ℕ) × EndsAt request contents status }
{}
