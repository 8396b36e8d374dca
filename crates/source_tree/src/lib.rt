//! The trees of source texts, and what a run of one shows and how it ends: the meaning that every compiled program keeps.
#![tactic(auto)]

mod arithmetic;
mod condition;
mod conditional_statement;
mod control_statement;
mod data_statement;
mod entry;
mod evaluate_statement;
mod expression;
mod file_statement;
mod inspect_statement;
mod laws;
mod literal;
mod name;
mod perform_statement;
mod phrases;
mod program;
mod reference;
mod select;
mod statement;
mod string_statement;
mod table;
mod text_statement;
mod until;

pub use arithmetic::{Arithmetic, DivisionOrder, Operation, Receiver};
pub use condition::{Class, Condition, Relation, RelationalOperator, Side, SignTest};
pub use conditional_statement::ConditionalStatement;
pub use control_statement::ControlStatement;
pub use data_statement::DataStatement;
pub use entry::{
    Around, ConditionEntry, Entry, ItemEntry, PictureText, SignClause, SignPosition, UsageClause,
    ValueRange,
};
pub use evaluate_statement::{Choice, Evaluate, Object, Selected, Subject, When};
pub use expression::{Expression, Operand, Operator};
pub use file_statement::{FileStatement, Opening, StartKey};
pub use inspect_statement::{
    Converting, InspectStatement, Limits, Occurrences, ReplacedText, Replacing, Tallied,
    TalliedText, Tallying,
};
pub use laws::{
    budget_law, depth_law, file_verb_law, output_law, part_law, record_areas_law, sound_files_law,
    subject_law, turns_law,
};
pub use lexical::{NumericLiteral, Place, Sign};
pub use literal::{Figurative, Integer, Literal, LiteralValue};
pub use name::Name;
pub use perform_statement::{PerformStatement, Performed, Repetition};
pub use phrases::{FilePhrases, Phrases};
pub use program::{Paragraph, Program, Section, Sentence};
pub use records::{Access, OpenMode};
pub use reference::{Adjustment, BoxedPart, Part, QualifiedName, Reference, Subscript};
pub use select::{AlternateKeyClause, AssignedName, FileDescription, OrganizationClause, Select};
pub use statement::{Statement, Verb};
pub use string_statement::{Sending, StringStatement};
pub use table::Dimension;
pub use text_statement::TextStatement;
pub use until::{TestTime, Until, Varying};
