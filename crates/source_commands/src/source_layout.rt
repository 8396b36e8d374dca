//! The command `layout`.

ghost use Rattle.std.specs.Prelude.{◌≡◌, [], IfOk, IfErr, OnOk};
ghost use Rattle.source_tree.specs.declared.program.Program.{Program};
ghost use Rattle.source_tree.specs.Recursion.{HasOrder};
ghost use Rattle.source_tree.specs.Rules.{program_rules};
ghost use Rattle.compiler.specs.Faults.{fault_of};
ghost use Rattle.compiler.specs.Stages.{IsFaultOf};
ghost use Rattle.compiler.specs.Trees.{IsReadFrom, IsTreeOf};
ghost use Rattle.source_commands.specs.Layout.{IsLayoutAnswer, layout_text as text_of};

use crate::layout_text::layout_text;
use check_rules::{CheckError, check};
use compiler::{CompileError, compile, one_meaning};
use divisions::parse;
use source_lines::{logical, reference_format};
use source_tree::Program;
use std::alloc::{AllocError, Global};
use tokens::{laws, scan};

/// The table of the items and files of a source text.
pub fn layout_of_source(alloc: Global, source: &[u8]) -> Result<Vec<u8>, CompileError>
    // A source text is shown only if it has a tree.
    ensures accepted { OnOk result ((tree : Program) × IsTreeOf source.now tree) }
    // A source text with a tree is answered with the table of that tree, unless memory runs out.
    ensures layout { (tree : Program) → IsTreeOf source.now tree → IsLayoutAnswer tree result }
    // Else the fault is the one for which `compile` refuses it.
    ensures fault { IfErr result (λ e. IsFaultOf source.now (fault_of e)) }
{
    one_meaning();
    let _ = compile(alloc, source)?;
    match read_layout(alloc, source) {
        Ok(text) => Ok(text),
        Err(_) => Err(CompileError::Memory),
    }
}

/// The table of a source text that is accepted.
fn read_layout(alloc: Global, source: &[u8]) -> Result<Vec<u8>, CompileError>
    ensures { IfOk result (λ text. (tree : Program) × IsTreeOf source.now tree
        × (text.items ≡ text_of tree)) }
{
    let tree = read_tree(alloc, source)?;
    let text = layout_of_tree(alloc, &tree);
    drop(tree);
    text
}

/// The table of a tree that keeps the rules.
fn layout_of_tree(alloc: Global, tree: &Program) -> Result<Vec<u8>, CompileError>
    ensures { IfOk result (λ text. (program_rules tree.now ≡ []) × HasOrder tree.now
        × (text.items ≡ text_of tree.now)) }
{
    let checked = check(alloc, tree)?;
    let text = layout_text(alloc, checked.declarations());
    drop(checked);
    Ok(text?)
}

/// The tree that a source text spells.
fn read_tree(alloc: Global, source: &[u8]) -> Result<Program, CompileError>
    ensures { IfOk result (λ tree. IsReadFrom source.now tree) }
{
    reference_format();
    laws();
    let lines = logical(alloc, source)?;
    let tokens = scan(alloc, &lines)?;
    Ok(parse(alloc, tokens.as_slice())?)
}
