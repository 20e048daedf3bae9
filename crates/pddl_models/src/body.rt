//! The body of an action of a domain.

use model_kit::{CostExpr, SchemaAtom};
use mre_base::List;

/// The preconditions, adds and deletes of an action of a domain, and by how much it raises the total
/// cost, if it does.
#[derive(Debug)]
pub struct Body {
    pub pre: List<SchemaAtom>,
    pub add: List<SchemaAtom>,
    pub del: List<SchemaAtom>,
    pub increase: Option<CostExpr>,
}

impl Drop for Body {
    fn drop(self) {
        let Body {
            pre: _,
            add: _,
            del: _,
            increase: _,
        } = self;
    }
}
