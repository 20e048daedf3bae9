//! Prices of actions.

ghost use Rattle.std.specs.Prelude.{◌≡◌, ◌<◌, ◌^◌, length};
ghost use Rattle.task_kit.specs.Tasks.{price};

use crate::view::TaskView;

pub fn price_of<T: TaskView>(task: &T, action: u32) -> u64
    requires { action < length (T.seen task.now).actions }
    ensures price { result ≡ price (T.seen task.now) action }
    ensures small { result < 2 ^ 32 }
{
    match task.cost(action) {
        None => 0,
        Some(cost) => cost as u64,
    }
}
