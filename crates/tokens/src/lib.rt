//! From the characters of a source text to its one list of tokens: what `scan` answers is what the definition of tokens says.
#![tactic(auto)]

mod character;
mod context;
mod fault;
mod law;
mod lexeme;
mod literal;
mod picture;
pub mod reserved;
mod scanner;
mod spelling;
pub mod token;
mod word;

pub use fault::{FaultKind, TokenError, TokenFault};
pub use law::{laws, span_laws};
pub use lexical::{NumericLiteral, Place, Sign};
pub use reserved::Reserved;
pub use scanner::scan;
pub use token::{Kind, Operator, Span, Token};
