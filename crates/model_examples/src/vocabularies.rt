//! Names, vocabularies and models: lists that make one, and lists that don't.

ghost use Rattle.std.specs.Prelude.{◌≡◌, ◌==◌, true, false, [], ◌∷◌, codes};
ghost use Rattle.std.specs.Cmp.Lexicographic.{pointwise};
ghost use Rattle.model_kit.specs.declared.atom.Term.TheVariants.{Param, Object};
ghost use Rattle.model_kit.specs.declared.model.CostExpr.TheVariants.{Number, Call};
ghost use Rattle.model_kit.specs.Names.{is_name, are_entries};
ghost use Rattle.model_kit.specs.Words.{are_types, are_typed, are_signatures, is_no_total};
ghost use Rattle.model_kit.specs.Vocabulary.{is_ground_atom, is_schema_atom, is_ground_action};
ghost use Rattle.model_kit.specs.Features.{are_ground_atoms, are_schema_atoms, is_cost, is_schema};
ghost use Rattle.model_kit.specs.Features.{is_value, same_key, is_action};
ghost use Rattle.model_examples.specs.Build.{word, one_type, fact, atom};
ghost use Rattle.model_examples.specs.Depot as depot;
ghost use Rattle.model_examples.specs.Roads as roads;

/// Names are in lower case and begin with a letter, a digit or `_`.
pub fn names()
    ensures letters { is_name (codes "road-2") ≡ true }
    ensures digit { is_name (codes "2nd") ≡ true }
    ensures empty { is_name (codes "") ≡ false }
    ensures capital { is_name (codes "Road") ≡ false }
    ensures hyphen { is_name (codes "-road") ≡ false }
    ensures blank { is_name (codes "a road") ≡ false }
    ensures semicolon { is_name (codes "road;") ≡ false }
{}

/// The lists of a vocabulary.
pub fn vocabulary_lists()
    ensures below { are_types ((codes "object", 0) ∷ (codes "x", 2) ∷ (codes "y", 0) ∷ []) ≡ true }
    ensures circle { are_types ((codes "object", 0) ∷ (codes "x", 2) ∷ (codes "y", 1) ∷ [])
        ≡ false }
    ensures not_first { are_types ((codes "x", 1) ∷ (codes "object", 1) ∷ []) ≡ false }
    ensures no_types { are_types [] ≡ false }
    ensures type_twice { are_types ((codes "object", 0) ∷ (codes "object", 0) ∷ []) ≡ false }
    ensures objects { are_typed one_type ((codes "a", 0) ∷ (codes "b", 0) ∷ []) ≡ true }
    ensures object_twice { are_typed one_type ((codes "a", 0) ∷ (codes "a", 0) ∷ []) ≡ false }
    ensures no_such_type { are_typed one_type ((codes "a", 1) ∷ []) ≡ false }
    ensures predicate { are_signatures one_type (word (codes "p") (0 ∷ []) ∷ []) ≡ true }
    ensures param { are_signatures one_type (word (codes "p") (1 ∷ []) ∷ []) ≡ false }
    ensures total { is_no_total (word (codes "total-cost") []) ≡ false }
{}

/// Arguments are of the types of the parameters or of types below them.
pub fn arguments()
    ensures type_below { is_ground_action depot.words (depot.go (2 ∷ 0 ∷ [])) ≡ true }
    ensures same_type { is_ground_action depot.words (depot.go (2 ∷ 1 ∷ [])) ≡ true }
    ensures no_truck { is_ground_action depot.words (depot.go (0 ∷ 1 ∷ [])) ≡ false }
    ensures too_few { is_ground_action depot.words (depot.go (2 ∷ [])) ≡ false }
    ensures too_many { is_ground_action depot.words (depot.go (2 ∷ 0 ∷ 0 ∷ [])) ≡ false }
    ensures no_object { is_ground_action depot.words (depot.go (2 ∷ 3 ∷ [])) ≡ false }
    ensures at_depot { is_ground_atom depot.words (fact 0 (0 ∷ [])) ≡ true }
    ensures at_truck { is_ground_atom depot.words (fact 0 (2 ∷ [])) ≡ false }
    ensures no_predicate { is_ground_atom depot.words (fact 1 []) ≡ false }
    ensures depot_param { is_schema_atom depot.words (3 ∷ 2 ∷ []) (atom 0 (Param 1 ∷ [])) ≡ true }
    ensures truck_param { is_schema_atom depot.words (3 ∷ 2 ∷ []) (atom 0 (Param 0 ∷ [])) ≡ false }
    ensures no_param { is_schema_atom depot.words (3 ∷ 2 ∷ []) (atom 0 (Param 2 ∷ [])) ≡ false }
    ensures place { is_schema_atom depot.words [] (atom 0 (Object 1 ∷ [])) ≡ true }
{}

/// The lists of a model.
pub fn model_lists()
    ensures facts { are_ground_atoms roads.words (roads.at 0 ∷ roads.at 1 ∷ []) ≡ true }
    ensures fact_twice { are_ground_atoms roads.words (roads.at 0 ∷ roads.at 0 ∷ []) ≡ false }
    ensures no_fact { are_ground_atoms roads.words (fact 0 [] ∷ []) ≡ false }
    ensures schemas { pointwise (is_schema roads.words) roads.ways roads.words.actions ≡ true }
    ensures no_schema { pointwise (is_schema roads.words) [] roads.words.actions ≡ false }
    ensures param { are_schema_atoms roads.words (0 ∷ []) (atom 0 (Param 0 ∷ []) ∷ []) ≡ true }
    ensures no_param { are_schema_atoms roads.words [] (atom 0 (Param 0 ∷ []) ∷ []) ≡ false }
    ensures number { is_cost roads.words [] (Number 3) ≡ true }
    ensures term { is_cost roads.words (0 ∷ []) (Call 0 (Param 0 ∷ Object 2 ∷ [])) ≡ true }
    ensures short_term { is_cost roads.words (0 ∷ []) (Call 0 (Param 0 ∷ [])) ≡ false }
    ensures values { are_entries (is_value roads.words) same_key roads.planner.values ≡ true }
    ensures value_twice { are_entries (is_value roads.words) same_key
        ((0, 0 ∷ 1 ∷ [], 2) ∷ (0, 0 ∷ 1 ∷ [], 3) ∷ []) ≡ false }
    ensures unknown { are_entries (is_action roads.words) ◌==◌ (0 ∷ []) ≡ true }
    ensures unknown_twice { are_entries (is_action roads.words) ◌==◌ (0 ∷ 0 ∷ []) ≡ false }
    ensures no_action { are_entries (is_action roads.words) ◌==◌ (1 ∷ []) ≡ false }
{}
