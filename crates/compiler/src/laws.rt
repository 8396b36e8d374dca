//! What holds of every source text and image.

ghost use Rattle.std.specs.Prelude.{◌≡◌, ℕ, List};
ghost use Rattle.source_tree.specs.declared.program.Program.{Program};
ghost use Rattle.source_tree.specs.Given.{RunInput};
ghost use Rattle.source_tree.specs.Meaning.{Run};
ghost use Rattle.compiler.specs.Trees.{IsTreeOf};
ghost use Rattle.compiler.specs.Images.{HasRun};

use code_image::{run_law, spelling_law};
use divisions::one_tree;
use source_lines::reference_format;
use tokens::laws;

/// A source text has at most one tree, and an image at most one run with what it is given.
pub fn one_meaning()
    ensures tree { (source : List ℕ) (tree other : Program) →
        IsTreeOf source tree → IsTreeOf source other → tree ≡ other }
    ensures run { (image : List ℕ) (given : RunInput) (run other : Run) →
        HasRun image given run → HasRun image given other → run ≡ other }
{
    reference_format();
    laws();
    one_tree();
    run_law();
    spelling_law();
}
