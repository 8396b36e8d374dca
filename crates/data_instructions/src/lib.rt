//! The machine's instructions on data: what each does, the tables that they name, and what is known of the stacks along
//! code, so that an instruction whose operands are known is never stuck.
#![tactic(auto)]

mod calculation;
mod effects;
mod fault;
mod gather;
mod index;
mod inspections;
mod instruction;
mod laws;
mod naming;
mod order;
mod part;
mod place;
mod shape;
mod tables;
mod test;
mod text_laws;

pub use calculation::Calculation;
pub use effects::{DATE, accepting, dating, effect, showing};
pub use fault::ProgramFault;
pub use gather::Gather;
pub use index::{InspectionIndex, ItemIndex, NumberIndex, SenderIndex, TextIndex};
pub use instruction::DataInstruction;
pub use laws::{condition_law, expression_law, joining_law, safety_law, shape_law, statement_law};
pub use part::Part;
pub use place::Place;
pub use shape::{PlaceShape, PlaceShapes, Shape, Stacks};
pub use tables::{DataItem, DataTables, Inspection, LiteralSender};
pub use test::Test;
pub use text_laws::text_law;
