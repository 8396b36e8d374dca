//! From a source text to its image.

ghost use Rattle.std.specs.Prelude.{[], ◌≡◌, ℕ, IfOk, IfErr, OnOk};
ghost use Rattle.answers.specs.Answer.{Fails};
ghost use Rattle.source_tree.specs.declared.program.Program.{Program};
ghost use Rattle.source_tree.specs.Recursion.{HasOrder};
ghost use Rattle.source_tree.specs.Meaning.{meaning};
ghost use Rattle.entry_rules.specs.Checks as rules;
ghost use Rattle.check_rules.specs.Refusals.{IsFirstFault};
ghost use Rattle.compiler.specs.Faults.{fault_of};
ghost use Rattle.compiler.specs.Trees.{IsReadFrom, IsTreeOf, broken_rules};
ghost use Rattle.compiler.specs.Stages.{IsTreeAnswer, IsReported, IsFaultOf, tree_with_rules, tree_of};
ghost use Rattle.compiler.specs.Images.{MeansAs, IsCompiled, IsImageAnswer};

use crate::fault::CompileError;
use check_rules::{CheckError, Checked, check};
use code_image::to_bytes;
use codegen::generate;
use divisions::parse;
use perform_graph::one_answer;
use source_lines::{logical, reference_format};
use source_tree::Program;
use std::alloc::{AllocError, Global};
use tokens::{laws, scan};

/// The image of a source text.
///
/// `Refused` with the first fault that a stage meets: 10 to 14 for its lines, 15 to 18 for its tokens, 30, 31 and 20 for its tree, and
/// 17, 18 and 40 to 69 for its rules, in the order of `check_rules::check`.
pub fn compile(alloc: Global, source: &[u8]) -> Result<Vec<u8>, CompileError>
    // What is answered is an image of the source text's tree: whatever it is given, its run is what the tree means.
    ensures image { IfOk result (λ image. IsCompiled source.now image.items) }
    // So a source text is compiled only if it has a tree.
    ensures accepted { OnOk result ((tree : Program) × IsTreeOf source.now tree) }
    // A source text with a tree is answered with such an image, unless memory runs out.
    ensures only { (tree : Program) → IsTreeOf source.now tree → IsImageAnswer tree result }
    // Else the answer is the first fault of its stages, or a PERFORM that leads back where there is none.
    ensures fault { IfErr result (λ e. IsFaultOf source.now (fault_of e)) }
{
    let tree = read_tree(alloc, source)?;
    let image = image_of_tree(alloc, &tree);
    drop(tree);
    image
}

/// The tree that a source text spells, by the stages in order. Its rules come later.
fn read_tree(alloc: Global, source: &[u8]) -> Result<Program, CompileError>
    ensures tree { IfOk result (λ tree. IsReadFrom source.now tree) }
    ensures rules { IfOk result (λ tree. tree_of source.now ≡ tree_with_rules tree) }
    ensures only { (tree : Program) → IsReadFrom source.now tree → IsTreeAnswer tree result }
    ensures fault { IfErr result (λ e. Fails (fault_of e) (tree_of source.now)) }
{
    reference_format();
    laws();
    let lines = logical(alloc, source)?;
    let scanned = scan(alloc, &lines);
    drop(lines);
    let tokens = scanned?;
    let tree = parse(alloc, tokens.as_slice());
    drop(tokens);
    Ok(tree?)
}

/// The tree keeps the rules.
#[tactic(auto, unfolding(crate::specs::Trees::broken_rules))]
fn check_tree(alloc: Global, tree: &Program) -> Result<Checked<'_>, CheckError>
    ensures tree { IfOk result (λ checked. checked ≡ tree.now) }
    ensures kept { OnOk result (broken_rules tree.now ≡ []) }
    ensures order { OnOk result (HasOrder tree.now) }
    ensures exact { IfErr result (λ e. IsFirstFault tree.now (rules.fault_of e)) }
{
    check(alloc, tree)
}

/// The image of a tree that keeps the rules. It is refused for want of memory alone.
fn make_image(alloc: Global, checked: &Checked<'_>) -> Result<Vec<u8>, AllocError>
    ensures { IfOk result (λ image. MeansAs checked.now image.items) }
{
    let code = generate(alloc, checked)?;
    to_bytes(alloc, &code)
}

/// The image of a tree, if it keeps the rules and none of its PERFORMs leads back; else the first rule that it breaks, or such a PERFORM.
fn image_of_tree(alloc: Global, tree: &Program) -> Result<Vec<u8>, CompileError>
    ensures kept { OnOk result (broken_rules tree.now ≡ []) }
    ensures order { OnOk result (HasOrder tree.now) }
    ensures image { IfOk result (λ image. MeansAs tree.now image.items) }
    ensures only { broken_rules tree.now ≡ [] → HasOrder tree.now → IsImageAnswer tree.now result }
    ensures fault { IfErr result (λ e. IsReported tree.now (fault_of e)) }
{
    one_answer();
    let checked = check_tree(alloc, tree)?;
    let image = make_image(alloc, &checked);
    drop(checked);
    Ok(image?)
}
