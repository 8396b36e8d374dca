//! What tests the rules of statements.

use declarations::Declarations;

/// Tests statements by what is declared.
#[derive(Clone, Copy)]
pub struct Checker<'a> {
    pub declarations: &'a Declarations<'a>,
}
