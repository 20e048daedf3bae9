//! Reads the bytes of domains and problems.
ghost use Rattle.std.specs.Prelude.{◌<◌, ◌^◌, length, IfOk};
ghost use Rattle.pddl_text.specs.Answers.{IfFault, AnswersOk, AnswersFault};
ghost use Rattle.pddl_text.specs.declared.fault.TextFault as faults;
ghost use Rattle.pddl_form.specs.declared.parts.Part as due;
ghost use Rattle.pddl_form.specs.declared.parts.Part.TheVariants as part;
ghost use Rattle.model_kit.specs.declared.model.Model as models;
ghost use Rattle.model_kit.specs.declared.vocabulary.Vocabulary as vocabularies;
ghost use Rattle.pddl_names.specs.Listings.{Declared, nothing};
ghost use Rattle.pddl_names.specs.Naming.{IsNamed};
ghost use Rattle.pddl_names.specs.Texts.{IsSaid, declared_by};
ghost use Rattle.pddl_vocabulary.specs.Formed.{AreFormed};
ghost use Rattle.pddl_models.specs.Says.{SaysDomain, SaysModel};
ghost use Rattle.pddl_models.specs.Saying.{AreNoTotals, AreOfProblem};
ghost use Rattle.pddl_models.specs.declared.domain.Domain as domains;
ghost use Rattle.pddl_read.specs.Texts.{IsDomainText, IsProblemText, IsDomainFault, IsProblemFault};
ghost use Rattle.pddl_read.specs.Texts.{AreFew};

use model_kit::{Model, Vocabulary};
use mre_base::{List, NoMemory};
use pddl_form::{read_domain_form, read_problem_form};
use pddl_models::{Domain, domain_of, model_of};
use pddl_names::{Word, check_domain_names, check_problem_names, words_of};
use pddl_text::{ReadStop, read_forest};
use pddl_vocabulary::{vocabulary_of, vocabulary_with};
use std::alloc::Global;

// More words than any text has.
const MANY: usize = 1 << 28;

// The words of a domain's text, or its first fault.
fn domain_words(alloc: Global, bytes: &[u8]) -> Result<List<Word>, ReadStop>
    requires short { length bytes.now < 2 ^ 28 }
    ensures said { IfOk result (IsSaid part.Domain nothing bytes.now) }
    ensures unsaid { IfFault result (IsDomainFault bytes.now) }
    ensures few { IfOk result (λ said. length said < 2 ^ 28) }
    ensures named { IfOk result (IsNamed nothing) }
    ensures formed { IfOk result AreFormed }
    ensures calls { IfOk result AreNoTotals }
{
    let forest = match read_forest(alloc, bytes) {
        Ok(forest) => forest,
        Err(stop) => return Err(stop),
    };
    let formed = read_domain_form(alloc, &forest);
    let met = match formed {
        Ok(met) => met,
        Err(stop) => return Err(stop),
    };
    let said = words_of(alloc, &met)?;
    if said.len() >= MANY {
        return Err(ReadStop::NoMemory);
    }
    match check_domain_names(alloc, &said) {
        Ok(()) => Ok(said),
        Err(stop) => Err(stop),
    }
}

// The words of the text of a problem of the domain, or its first fault.
fn problem_words(alloc: Global, bytes: &[u8], domain: &Domain) -> Result<List<Word>, ReadStop>
    requires short { length bytes.now < 2 ^ 28 }
    ensures said { IfOk result (IsSaid part.Problem (declared_by domain.now.words) bytes.now) }
    ensures unsaid { IfFault result (IsProblemFault domain.now bytes.now) }
    ensures few { IfOk result (λ said. length said < 2 ^ 28) }
    ensures named { IfOk result (IsNamed (declared_by domain.now.words)) }
    ensures formed { IfOk result AreFormed }
    ensures calls { IfOk result AreNoTotals }
    ensures problem { IfOk result AreOfProblem }
{
    let forest = match read_forest(alloc, bytes) {
        Ok(forest) => forest,
        Err(stop) => return Err(stop),
    };
    let met = match read_problem_form(alloc, &forest) {
        Ok(met) => met,
        Err(stop) => return Err(stop),
    };
    let said = words_of(alloc, &met)?;
    if said.len() >= MANY {
        return Err(ReadStop::NoMemory);
    }
    match check_problem_names(alloc, &domain.words, &said) {
        Ok(()) => Ok(said),
        Err(stop) => Err(stop),
    }
}

// The domain of well-named words.
fn domain_said(alloc: Global, said: &List<Word>) -> Result<Domain, NoMemory>
    requires few { length said.now < 2 ^ 28 }
    requires named { IsNamed nothing said.now }
    requires formed { AreFormed said.now }
    requires calls { AreNoTotals said.now }
    ensures ok { IfOk result (SaysDomain said.now) }
{
    let words = vocabulary_of(alloc, said)?;
    domain_of(alloc, words, said)
}

// The model of a well-named problem of the domain, from its words.
fn model_said(alloc: Global, domain: &Domain, said: &List<Word>) -> Result<Model, NoMemory>
    requires domain { AreFew domain.now.words (2 ^ 29) }
    requires few { length said.now < 2 ^ 28 }
    requires named { IsNamed (declared_by domain.now.words) said.now }
    requires formed { AreFormed said.now }
    requires calls { AreNoTotals said.now }
    requires problem { AreOfProblem said.now }
    ensures ok { IfOk result (SaysModel domain.now said.now) }
{
    let words = vocabulary_with(alloc, &domain.words, said)?;
    model_of(alloc, domain, words, said)
}

/// The domain of a text of PDDL (STRIPS with typing, constants and action costs), or the text's
/// first fault: the first place where it breaks a rule of words and lists, else the first token
/// that no domain has after the tokens before it, else the first word that breaks a rule of names,
/// with the word there and the first rule that it breaks. Entries are numbered in the order in
/// which the text first names them; `object` is the first type, and `total-cost` isn't a function.
pub fn read_domain(alloc: Global, bytes: &[u8]) -> Result<Domain, ReadStop>
    requires short { length bytes.now < 2 ^ 28 }

    // The answer is the domain of the text, or its first fault.
    ensures ok { IfOk result (IsDomainText bytes.now) }
    ensures fault { IfFault result (IsDomainFault bytes.now) }

    // Each domain of the text is the answer, and so is each first fault.
    ensures succeeds { (domain : domains.Domain) → IsDomainText bytes.now domain →
        AnswersOk result domain }
    ensures refuses { (fault : faults.TextFault) → IsDomainFault bytes.now fault →
        AnswersFault result fault }

    // The lists are short enough for the problems and plans of the domain.
    ensures few { IfOk result (λ domain. AreFew domain.words (2 ^ 29)) }
{
    match domain_words(alloc, bytes) {
        Ok(said) => Ok(domain_said(alloc, &said)?),
        Err(stop) => Err(stop),
    }
}

/// The model of a domain and a text of one of its problems, or the text's first fault, as in
/// `read_domain`. The domain's names count as declared before the text; the problem's objects
/// follow the domain's constants. Without the metric each action costs 1; with it an action costs
/// what its increase says, or 0 if it has none.
pub fn read_problem(alloc: Global, bytes: &[u8], domain: &Domain) -> Result<Model, ReadStop>
    requires short { length bytes.now < 2 ^ 28 }
    requires domain { AreFew domain.now.words (2 ^ 29) }

    // The answer is the model of the text, or its first fault.
    ensures ok { IfOk result (IsProblemText domain.now bytes.now) }
    ensures fault { IfFault result (IsProblemFault domain.now bytes.now) }

    // Each model of the text is the answer, and so is each first fault.
    ensures succeeds { (model : models.Model) → IsProblemText domain.now bytes.now model →
        AnswersOk result model }
    ensures refuses { (fault : faults.TextFault) → IsProblemFault domain.now bytes.now fault →
        AnswersFault result fault }

    // The lists are short enough for plans.
    ensures few { IfOk result (λ model. AreFew model.words (2 ^ 30)) }
{
    match problem_words(alloc, bytes, domain) {
        Ok(said) => Ok(model_said(alloc, domain, &said)?),
        Err(stop) => Err(stop),
    }
}
