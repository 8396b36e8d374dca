//! What holds of the rules and their readers: each reader answers what its rule spells, and nothing else.

ghost use Rattle.expressions.specs.Laws.{IsSoundReader, Only};
ghost use Rattle.file_control.specs.Selects.{select, select_reader, input_output, input_output_reader};

/// SELECTs, with their clauses in any order.
pub fn select_law()
    ensures spelled { IsSoundReader select select_reader }
    ensures only { Only select select_reader }
{}

/// The input-output section.
pub fn input_output_law()
    ensures spelled { IsSoundReader input_output input_output_reader }
    ensures only { Only input_output input_output_reader }
{}
