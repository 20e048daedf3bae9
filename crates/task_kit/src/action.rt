//! A ground action of a task.

use mre_base::List;

/// A ground action: the numbers of its preconditions, adds and deletes, and its cost if it has one.
#[derive(Debug)]
pub struct TaskAction {
    pub pre: List<u32>,
    pub add: List<u32>,
    pub del: List<u32>,
    pub cost: Option<u32>,
}

impl Drop for TaskAction {
    fn drop(self) {
        let TaskAction {
            pre: _,
            add: _,
            del: _,
            cost: _,
        } = self;
    }
}
