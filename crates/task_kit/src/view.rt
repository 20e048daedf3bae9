//! What search and judging need to know of a task, however it is kept.

ghost use Rattle.std.specs.Prelude.{◌≡◌, ◌+◌, ◌<◌, length};
ghost use Rattle.task_kit.specs.Tasks.{TaskMeaning, IsTask, as_bits, action_at, cost_at, applies};
ghost use Rattle.task_kit.specs.Tasks.{after, adds_outside, IsFirstLack};

use mre_base::Bits;

/// A task on numbers, however it is kept. Its actions are numbered from 0 on, and each set of atoms
/// has room for one number more than there are atoms. No call takes memory.
pub trait TaskView {
    /// The meaning of the task.
    ghost seen: { Self → TaskMeaning };

    /// The number of atoms. The atoms are the numbers below it; the number itself means whatever
    /// can never be true.
    fn atoms(&self) -> u32
        ensures atoms { result ≡ (seen self.now).atoms }
        ensures task { IsTask (seen self.now) };

    /// The first state.
    fn start(&self) -> &Bits
        ensures { result.now ≡ as_bits (seen self.now) (seen self.now).start };

    /// The goal atoms.
    fn goal(&self) -> &Bits
        ensures { result.now ≡ as_bits (seen self.now) (seen self.now).goal };

    /// The number of actions.
    fn actions(&self) -> u32
        ensures { result ≡ length (seen self.now).actions };

    /// The cost of an action, if it has one.
    fn cost(&self, action: u32) -> Option<u32>
        requires { action < length (seen self.now).actions }
        ensures { result ≡ cost_at (seen self.now) action };

    /// Whether an action has a cost and its preconditions are in the state.
    fn applies(&self, action: u32, state: &Bits) -> bool
        requires listed { action < length (seen self.now).actions }
        requires width { state.now.width ≡ (seen self.now).atoms + 1 }
        ensures { result ≡ applies (seen self.now) action state.now.members };

    /// The least precondition of an action that the state lacks.
    fn missing(&self, action: u32, state: &Bits) -> Option<u32>
        requires listed { action < length (seen self.now).actions }
        requires width { state.now.width ≡ (seen self.now).atoms + 1 }
        ensures { IsFirstLack (action_at (seen self.now) action).pre state.now.members result };

    /// Writes the successor of a state by an action: the deletes are taken out, and then the adds
    /// are put in.
    fn next_into(&self, action: u32, state: &Bits, into: &mut Bits)
        requires listed { action < length (seen self.now).actions }
        requires width { state.now.width ≡ (seen self.now).atoms + 1 }
        requires into_width { into.old.width ≡ (seen self.now).atoms + 1 }
        ensures { into.new ≡ as_bits (seen self.now)
            (after (seen self.now) action state.now.members) };

    /// Whether an action adds an atom that isn't in the set.
    fn adds_outside(&self, action: u32, among: &Bits) -> bool
        requires listed { action < length (seen self.now).actions }
        requires width { among.now.width ≡ (seen self.now).atoms + 1 }
        ensures { result ≡ adds_outside (seen self.now) action among.now.members };

    /// The least atom that an action adds and the set lacks.
    fn outside(&self, action: u32, among: &Bits) -> Option<u32>
        requires listed { action < length (seen self.now).actions }
        requires width { among.now.width ≡ (seen self.now).atoms + 1 }
        ensures { IsFirstLack (action_at (seen self.now) action).add among.now.members result };
}
