//! References, literals, operands and arithmetic expressions: their rules, and readers that answer the one tree whose rule
//! spells the tokens.
#![tactic(auto)]

mod arithmetic;
mod factors;
mod item_parts;
mod laws;
mod literals;
mod marks;
mod operands;
mod passing;
mod references;
mod subscripts;

pub use arithmetic::expression;
pub use laws::{expression_law, literal_law, looking_law, operand_law, reference_law};
pub use literals::{begins_literal, literal};
pub use marks::{PlusOrMinus, begins_left, left, right};
pub use operands::{
    NumberOperands, Operands, begins_number_operand, begins_operand, number_operand, operand,
};
pub use passing::{
    after_reference_before, begins_expression, begins_operator, past_parentheses, past_reference,
};
pub use references::{References, reference};
pub use subscripts::{begins_integer, integer};
