//! What holds of all tables of data, and of all instructions on data.

ghost use Rattle.std.specs.Prelude.{◌≡◌, ◌++◌, ℕ, List, Ok};
ghost use Rattle.data_instructions.specs.declared.tables.DataTables.{DataTables};
ghost use Rattle.data_instructions.specs.declared.instruction.DataInstruction.{DataInstruction};
ghost use Rattle.data_image.specs.Spelling.{IsBytes};
ghost use Rattle.data_image.specs.Tables.{tables_bytes, tables_at, HasTables};
ghost use Rattle.data_image.specs.Instructions.{data_instruction_bytes, data_instruction_at, HasShorts};

/// Tables are read again from their bytes, whatever follows these. What is read from bytes has these as its bytes.
pub fn tables_law()
    ensures again { (tables : DataTables) (rest : List ℕ) → HasTables tables
        → tables_at (tables_bytes tables ++ rest) ≡ Ok (tables, rest) }
    ensures found { (bytes : List ℕ) (tables : DataTables) (rest : List ℕ) → IsBytes bytes
        → tables_at bytes ≡ Ok (tables, rest) → bytes ≡ tables_bytes tables ++ rest }
    ensures fits { (bytes : List ℕ) (tables : DataTables) (rest : List ℕ) → IsBytes bytes
        → tables_at bytes ≡ Ok (tables, rest) → HasTables tables }
{}

/// The same of one instruction.
pub fn instruction_law()
    ensures again { (one : DataInstruction) (rest : List ℕ) → HasShorts one
        → data_instruction_at (data_instruction_bytes one ++ rest) ≡ Ok (one, rest) }
    ensures found { (bytes : List ℕ) (one : DataInstruction) (rest : List ℕ) → IsBytes bytes
        → data_instruction_at bytes ≡ Ok (one, rest) → bytes ≡ data_instruction_bytes one ++ rest }
    ensures fits { (bytes : List ℕ) (one : DataInstruction) (rest : List ℕ) → IsBytes bytes
        → data_instruction_at bytes ≡ Ok (one, rest) → HasShorts one }
{}
