//! Joint numbers of two small models.

ghost use Rattle.model_kit.specs.Pairs.{Agree, IsModelIn, ArePaired};
ghost use Rattle.model_examples.specs.Joint as joint;

/// Names decide what is the same; what the user alone has comes after what the planner has.
pub fn joint_numbers()
    ensures paired { ArePaired joint.planner joint.user joint.words joint.joint_planner
        joint.joint_user }
    ensures other_numbers { ¬ IsModelIn joint.words joint.user joint.planner joint.user }
    ensures known { ¬ IsModelIn joint.words joint.planner joint.user joint.joint_user }
    ensures other_params { ¬ Agree joint.planner_words joint.other_words }
    ensures object_missing { ¬ Agree joint.planner_words joint.fewer_words }
{}
