//! What holds of every image that was compiled from a source text.

ghost use Rattle.std.specs.Prelude.{ℕ, List};
ghost use Rattle.source_tree.specs.declared.program.Program.{Program};
ghost use Rattle.compiler.specs.Trees.{IsTreeOf};
ghost use Rattle.compiler.specs.Images.{MeansAs, IsCompiled};
ghost use Rattle.run_unit.specs.Ends.{ForImage, IsEndOfImage};
ghost use Rattle.run_unit.specs.Runs.{Call, ImageRuns, TextRuns};
ghost use Rattle.run_unit.specs.declared.ended.Ended.{Ended};

use code_image::spelling_law;
use compiler::one_meaning;

/// The law of two commands. A call compiles a source text to bytes, and a later call runs these bytes, wherever they were kept between
/// the two: what the later call promises of the image is what the text means.
pub fn compiled_bytes()
    // The bytes mean the same as the text's tree, of which there is one, and have a file for each of its SELECTs.
    ensures tree { (source image : List ℕ) (tree : Program) →
        IsCompiled source image → IsTreeOf source tree → MeansAs tree image }
    // A run of the bytes isn't refused by 70 to 74.
    ensures end { (source image : List ℕ) (ended : Ended) →
        IsCompiled source image → ForImage ended image → IsEndOfImage ended }
    // A call that runs the bytes runs the text.
    ensures runs { (source image : List ℕ) (call : Call) →
        IsCompiled source image → ImageRuns image call → TextRuns source call }
{
    one_meaning();
    spelling_law();
}
