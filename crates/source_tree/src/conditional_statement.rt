//! IF and EVALUATE.

use crate::condition::Condition;
use crate::evaluate_statement::Evaluate;
use sqlite_items::Items;

#[derive(Drop)]
pub enum ConditionalStatement<S> {
    If {
        condition: Condition,
        /// One or more.
        statements: Items<S>,
        /// Those of ELSE, one or more; `None` where it is absent.
        otherwise: Option<Items<S>>,
    },
    Evaluate(Evaluate<S>),
}
