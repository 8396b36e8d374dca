//! What holds of the code of INITIALIZE, SET, STRING and INSPECT.

ghost use Rattle.std.specs.Prelude.{List};
ghost use Rattle.source_tree.specs.Places.{LocatedItem};
ghost use Rattle.data_instructions.specs.declared.tables.DataTables.{DataTables};
ghost use Rattle.data_instructions.specs.Laws.{DoesTexts, KnowsTexts};
ghost use Rattle.data_instructions.specs.Tables.{IsTables};

/// The code of INITIALIZE, SET, STRING, up to its phrases, and INSPECT does what they mean, from whatever stacks are there, faults too;
/// and it leaves the stacks as they were, where each occurrence of what is named lies in its area.
pub fn text_law()
    ensures does { (items : List LocatedItem) (tables : DataTables) → IsTables tables
        → DoesTexts items tables }
    ensures knows { (items : List LocatedItem) (tables : DataTables) → KnowsTexts items tables }
{}
