//! How data stay with what is known of them.

ghost use Rattle.std.specs.Prelude.{◌≡◌, ℕ, List, take, Some};
ghost use Rattle.data_instructions.specs.Scratch.{Scratch, Step, Continues, initial_scratch};
ghost use Rattle.data_instructions.specs.Table.{accept_step};
ghost use Rattle.data_instructions.specs.Shapes.{empty, shape_after_accept, shape_after_date};
ghost use Rattle.data_instructions.specs.Fits.{Safe};
ghost use Rattle.data_instructions.specs.Tables.{IsTables};
ghost use Rattle.data_instructions.specs.declared.tables.DataTables.{DataTables};
ghost use Rattle.data_instructions.specs.declared.shape.Shape.{Shape};
ghost use Rattle.data_machine.specs.declared.data.Data.{Data};
ghost use Rattle.data_machine.specs.Data.{scratch_of};
ghost use Rattle.data_machine.specs.Comes.{KeepsRoom};
ghost use Rattle.data_machine.specs.Finds.{FindsItem, HasItemRoom, HasSenderRoom};
ghost use Rattle.data_machine.specs.Inspecting.{HasInspectRoom};
ghost use Rattle.data_machine.specs.Ready.{HasRoom, IsAt};

/// At the start nothing is known (`start`). Where data go on from an instruction that is safe with a shape, they stand at that
/// shape (`stays`): with `safety_law` of `data_instructions` the next instruction finds what it needs.
pub fn staying_law()
    ensures start { (tables : DataTables) (d : Data) → IsTables tables
        → scratch_of d ≡ initial_scratch tables → HasSenderRoom tables d.sender.bytes.room
        → HasInspectRoom tables d.inspecting → IsAt tables d empty }
    ensures stays { (tables : DataTables) (old new : Data) (shape after : Shape) (step : Step)
        → IsAt tables old shape → HasRoom old after → KeepsRoom old new → Safe tables step after
        → step ≡ Continues (scratch_of new) → IsAt tables new after }
{}

/// Where what is known lets `accept` or `date` take a place, an item stands there.
pub fn finding_law()
    ensures accept { (tables : DataTables) (d : Data) (shape after : Shape) → IsAt tables d shape
        → shape_after_accept shape ≡ Some after → FindsItem tables d.areas d.places.newest_first }
    ensures date { (tables : DataTables) (d : Data) (shape after : Shape) → IsAt tables d shape
        → shape_after_date tables shape ≡ Some after
        → FindsItem tables d.areas d.places.newest_first }
{}

/// Of a console line no more counts than the longest item has, where an item stands at the newest place.
pub fn cutting_law()
    ensures { (tables : DataTables) (line : List ℕ) (room : ℕ) (s : Scratch)
        → HasItemRoom tables room → FindsItem tables s.storage s.places
        → accept_step tables (take room line) s ≡ accept_step tables line s }
{}
