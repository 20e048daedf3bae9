//! Printed forms and sentences on small models.

ghost use Rattle.std.specs.Prelude.{◌≡◌, ◌++◌, [], ◌∷◌, codes};
ghost use Rattle.model_kit.specs.Printed.{atom_form, schema_atom_form, action_form};
ghost use Rattle.model_kit.specs.Sentences.{line, difference_line, explanation};
ghost use Rattle.model_examples.specs.Build.{fact};
ghost use Rattle.model_examples.specs.Told.{of};
ghost use Rattle.model_examples.specs.Jump as jump;
ghost use Rattle.model_examples.specs.Hidden as hidden;
ghost use Rattle.model_examples.specs.Kinds as kinds;
ghost use Rattle.model_examples.specs.Roads as roads;

/// Parameters are printed by their positions from 1.
pub fn printed_forms()
    ensures plain { atom_form jump.words (fact 0 []) ≡ codes "(p)" }
    ensures object { atom_form roads.words (roads.at 2) ≡ codes "(at c)" }
    ensures param { schema_atom_form kinds.words (kinds.its 1) ≡ codes "(q ?1)" }
    ensures action { action_form roads.words (roads.go 0 1) ≡ codes "(go a b)" }
{}

/// The sentence of each kind of difference, as the planner has it and as the user alone has it.
pub fn sentences()
    ensures fact { difference_line kinds.task 1 ≡ line (codes "1 initially (p a) is true") }
    ensures no_fact { difference_line kinds.task 2 ≡ line (codes "2 initially (p b) is not true") }
    ensures goal { difference_line kinds.task 3 ≡ line (codes "3 the goal has (g)") }
    ensures no_goal { difference_line kinds.task 4 ≡ line (codes "4 the goal does not have (h)") }
    ensures pre { difference_line kinds.task 5 ≡ line (codes "5 action use needs (p ?1)") }
    ensures no_pre { difference_line kinds.task 6
        ≡ line (codes "6 action use does not need (q ?1)") }
    ensures add { difference_line kinds.task 7 ≡ line (codes "7 action use makes (g) true") }
    ensures no_add { difference_line kinds.task 8
        ≡ line (codes "8 action use does not make (h) true") }
    ensures del { difference_line kinds.task 9 ≡ line (codes "9 action use makes (p ?1) false") }
    ensures no_del { difference_line kinds.task 10
        ≡ line (codes "10 action use does not make (q ?1) false") }
    ensures cost { difference_line kinds.task 11
        ≡ line (codes "11 action use costs 3, not (toll ?1)") }
    ensures exists { difference_line kinds.task 12 ≡ line (codes "12 action rest exists") }
    ensures no_action { difference_line kinds.task 13
        ≡ line (codes "13 action wait does not exist") }
    ensures value { difference_line kinds.task 14
        ≡ line (codes "14 the value of (toll a) is 4, not none") }
    ensures no_value { difference_line kinds.task 15
        ≡ line (codes "15 the value of (toll b) is none, not 5") }
{}

/// The texts of explanations.
pub fn explanations_printed()
    ensures mce { explanation (codes "mce") (jump.task jump.ones) (of (2 ∷ []))
        ≡ line (codes "mce 1 of 3") ++ line (codes "2 action jump needs (r)")
        ++ line (codes "cost 2") }
    ensures mme { explanation (codes "mme") (jump.task jump.ones) (of (3 ∷ []))
        ≡ line (codes "mme 1 of 3") ++ line (codes "3 action jump costs 3, not 1")
        ++ line (codes "cost 2") }
    ensures unknown { explanation (codes "mce") hidden.task (of (1 ∷ []))
        ≡ line (codes "mce 1 of 1") ++ line (codes "1 action jump does not exist")
        ++ line (codes "cost 2") }
    ensures two { explanation (codes "mce") roads.task (of (1 ∷ 2 ∷ []))
        ≡ line (codes "mce 2 of 3") ++ line (codes "1 the goal has (at c)")
        ++ line (codes "2 the value of (road a c) is 9, not 4") ++ line (codes "cost 5") }
{}
