//! The law of requests: words make a request exactly where they ask for it.

ghost use Rattle.std.specs.Prelude.{ℕ, ◌≡◌, ◌↔◌, Some, length};
ghost use Rattle.std.specs.Prelude.{List as ListOf};
ghost use Rattle.mre_words.specs.declared.request.Request.{Request};
ghost use Rattle.mre_words.specs.Asking.{Ask};
ghost use Rattle.mre_words.specs.Requests.{requested, files_of, count_of, names_of};

/// Words make a request exactly where they ask for it. Their names are then the names of its files,
/// as many as the request is about.
pub fn law_requested()
    ensures asked { (words : ListOf (ListOf ℕ)) (request : Request)
        → (requested words ≡ Some request) ↔ Ask words request }
    ensures named { (words : ListOf (ListOf ℕ)) (request : Request)
        → requested words ≡ Some request → names_of words ≡ files_of request }
    ensures counted { (words : ListOf (ListOf ℕ)) (request : Request)
        → requested words ≡ Some request → length (files_of request) ≡ count_of request }
{}
