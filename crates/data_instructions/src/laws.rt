//! What holds of each instruction.

ghost use Rattle.std.specs.Prelude.{◌≡◌, ◌++◌, ℕ, List, Option};
ghost use Rattle.data_instructions.specs.PartForms.{part_entry};
ghost use Rattle.data_instructions.specs.Tables.{IsTables, IsDataItem};
ghost use Rattle.data_instructions.specs.Scratch.{Scratch, initial_scratch};
ghost use Rattle.data_instructions.specs.Table as table;
ghost use Rattle.data_instructions.specs.Shapes as spec;
ghost use Rattle.data_instructions.specs.Shapes.{Covers};
ghost use Rattle.data_instructions.specs.Fits.{FitsShape, IsSafeStep};
ghost use Rattle.data_instructions.specs.Codes.{go_on, works, data_item};
ghost use Rattle.data_instructions.specs.Chains.{effects, LiesWhole};
ghost use Rattle.data_instructions.specs.ArithmeticCodes.{Computes, PushesNumber, IsValueCode, LiesOperand};
ghost use Rattle.data_instructions.specs.Laws.{ComputesParts, DecidesConditions, DoesStatements, KnowsConditions, KnowsStatements, PushesParts};
ghost use Rattle.source_tree.specs.Places.{LocatedItem};
ghost use Rattle.source_tree.specs.Computed.{operand_value};
ghost use Rattle.source_tree.specs.declared.reference.Part.{Part};
ghost use Rattle.source_tree.specs.declared.expression.Operand.{Operand};
ghost use Rattle.data_instructions.specs.declared.tables.DataTables.{DataTables};
ghost use Rattle.data_instructions.specs.declared.shape.Shape.{Shape};
ghost use Rattle.data_instructions.specs.declared.instruction.DataInstruction.{DataInstruction};

/// Where what is known fits and `effect` gives what is known after, an instruction is never stuck, and that fits what came.
pub fn safety_law()
    ensures work { (tables : DataTables) (one : DataInstruction) (s : Scratch) → IsTables tables
        → IsSafeStep tables s (spec.effect tables one) (table.work tables one s) }
    ensures accept { (tables : DataTables) (line : List ℕ) (s : Scratch)
        → IsSafeStep tables s spec.shape_after_accept (table.accept_step tables line s) }
    ensures date { (tables : DataTables) (day : List ℕ) (s : Scratch)
        → IsSafeStep tables s (spec.shape_after_date tables) (table.date_step tables day s) }
    ensures show { (tables : DataTables) (s : Scratch) (shape : Shape) → FitsShape tables s shape
        → FitsShape tables (table.after_showing s) (spec.shape_after_show shape) }
{}

/// Nothing is known at the start of a run but that nothing is there; and where several ways meet, what is known along all of
/// them fits whatever came along one.
pub fn joining_law()
    ensures start { (tables : DataTables) → FitsShape tables (initial_scratch tables) spec.empty }
    ensures join { (tables : DataTables) (s : Scratch) (one all : Shape) → FitsShape tables s one
        → Covers one all → FitsShape tables s all }
{}

/// The code of a reference, of MOVE, DISPLAY, ACCEPT and arithmetic statements does what they mean, from whatever stacks and line
/// are there, faults too. It may stand before and after other code.
pub fn statement_law()
    ensures chain { (tables : DataTables) (a b : List DataInstruction) (s : Scratch)
        → works tables (a ++ b) s ≡ go_on (works tables a s) (works tables b) }
    ensures does { (items : List LocatedItem) (tables : DataTables) → IsTables tables
        → DoesStatements items tables }
{}

/// The code of expressions, by its parts: the number of an operand, a number with the other sign, and operators of one
/// precedence, from the left. It does what they mean, and one number more is known then.
pub fn expression_law()
    ensures operand { (items : List LocatedItem) (tables : DataTables) (one : Operand)
        (code : List DataInstruction) → IsTables tables → IsValueCode items tables one code
        → Computes tables (operand_value items one) code }
    ensures computes { (tables : DataTables) → ComputesParts tables }
    ensures adds { (items : List LocatedItem) (tables : DataTables)
        (one : Operand) (code : List DataInstruction) → IsValueCode items tables one code
        → LiesOperand items tables one → PushesNumber tables code }
    ensures pushes { (tables : DataTables) → PushesParts tables }
{}

/// The same code finds what it needs and leaves the stacks as they were, where each occurrence of an item lies in its area and a
/// move is permitted: so straight code meets what `effect` demands, statement by statement. The entry of a part of such an item is in order.
pub fn shape_law()
    ensures chain { (tables : DataTables) (a b : List DataInstruction) (s : Shape)
        → effects tables (a ++ b) s ≡ spec.and_then (effects tables a s) (effects tables b) }
    ensures knows { (items : List LocatedItem) (tables : DataTables)
        → KnowsStatements items tables }
    ensures parts { (tables : DataTables) (found : LocatedItem) (part : Option Part)
        → IsDataItem tables.areas (data_item found) → LiesWhole tables found
        → IsDataItem tables.areas (part_entry found part) }
{}

/// The code of conditions without AND and OR does what they mean, and leaves the stacks as they were.
pub fn condition_law()
    ensures decides { (items : List LocatedItem) (tables : DataTables)
        → DecidesConditions items tables }
    ensures knows { (items : List LocatedItem) (tables : DataTables)
        → KnowsConditions items tables }
{}
