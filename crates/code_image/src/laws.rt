//! What holds of every code's run.

ghost use Rattle.std.specs.Prelude.{◌≡◌, [], Ok};
ghost use Rattle.source_tree.specs.Given.{RunInput};
ghost use Rattle.source_tree.specs.Meaning.{Run};
ghost use Rattle.source_tree.specs.Told.{note_count};
ghost use Rattle.code_image.specs.declared.code.Code.{Code};
ghost use Rattle.code_image.specs.Demands.{IsVerified};
ghost use Rattle.code_image.specs.Table.{Runs};
ghost use Rattle.code_image.specs.Spelling.{code_bytes, HasSpelling};
ghost use Rattle.code_image.specs.Reading.{code_at};

/// Code has at most one run with what it is given. Verified code has one, whatever that is: it is never stuck. Code without files tells
/// no status.
pub fn run_law()
    ensures one { (code : Code) (given : RunInput) (run other : Run) → Runs code given run
        → Runs code given other → run ≡ other }
    ensures ends { (code : Code) (given : RunInput) → IsVerified code
        → (run : Run) × Runs code given run }
    ensures quiet { (code : Code) (given : RunInput) (run : Run) → code.files ≡ []
        → Runs code given run → note_count run.events ≡ 0 }
{}

/// Code is read again from its spelling.
pub fn spelling_law()
    ensures { (code : Code) → HasSpelling code → code_at (code_bytes code) ≡ Ok code }
{}
