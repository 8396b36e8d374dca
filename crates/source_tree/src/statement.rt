//! Statements.

use crate::arithmetic::Arithmetic;
use crate::conditional_statement::ConditionalStatement;
use crate::control_statement::ControlStatement;
use crate::data_statement::DataStatement;
use crate::file_statement::FileStatement;
use crate::perform_statement::PerformStatement;
use crate::string_statement::StringStatement;
use crate::text_statement::TextStatement;
use lexical::Place;

/// What a statement does, by families. `S` is the statements inside it: in a tree, `Statement`.
#[derive(Drop)]
pub enum Verb<S> {
    DataStatement(DataStatement),
    Arithmetic(Arithmetic<S>),
    ConditionalStatement(ConditionalStatement<S>),
    PerformStatement(PerformStatement<S>),
    TextStatement(TextStatement),
    StringStatement(StringStatement<S>),
    FileStatement(FileStatement<S>),
    ControlStatement(ControlStatement),
}

/// A statement (COBOL-85, Nucleus, "Procedure division").
#[derive(Drop)]
pub struct Statement {
    /// Where its verb stands.
    pub place: Place,
    pub verb: Verb<Statement>,
}
