//! Programs.

ghost use Rattle.std.specs.Prelude.{[], ◌≡◌, ℕ, List, IfOk};
ghost use Rattle.answers.specs.Answer.{Gives};
ghost use Rattle.grammar.specs.Reading.{Reads};
ghost use Rattle.statements.specs.Spelling.{max_nesting};
ghost use Rattle.tokens.specs.declared.token.Token.{Token};
ghost use Rattle.source_tree.specs.declared.program.Program.{Program};
ghost use Rattle.divisions.specs.Spelling.{SpellsProgram};
ghost use Rattle.divisions.specs.Reading as spec;
ghost use Rattle.data_division.specs.Forms.{HasForms, program_entries};
ghost use Rattle.divisions.specs.Faults as faults;
ghost use Rattle.divisions.specs.Faults.{fault_of, parse_of, IsAnswer, FormlessInTree};

use crate::environment::environment;
use crate::fault::{FaultKind, ParseError, ParseFault, refusal};
use crate::identification::{ending, identification};
use crate::sections::procedure;
use data_division::{data_division, first_formless};
use grammar::{ReadFault, Tokens, beside};
use source_tree::Program;
use std::alloc::Global;
use tokens::Token;

/// The tree of a source text, by its tokens (COBOL-85, Nucleus, "Structure of a program").
///
/// `Refused` with number 30 where no tree spells the tokens, at the token where reading stopped; with 31 where
/// statements stand in one another more than 64 deep, at the statement that is one too deep; with 20 where a tree spells
/// them, at its first picture that has no form.
pub fn parse(alloc: Global, tokens: &[Token]) -> Result<Program, ParseError>
    // What is answered spells the tokens.
    ensures spelled { IfOk result (λ tree. SpellsProgram max_nesting tree tokens.now) }
    // Its pictures have forms.
    ensures forms { IfOk result (λ tree. HasForms (program_entries tree)) }
    // What spells the tokens is answered, unless it nests too deep, has a picture without a form, or memory runs out.
    ensures only { (depth : ℕ) (tree : Program) → SpellsProgram depth tree tokens.now
        → IsAnswer depth tree result }
    // A picture without a form is one of a tree that spells the tokens.
    ensures formless { FormlessInTree tokens.now result }
    // The tree or the fault, with its place, is what reading gives.
    ensures reads { Gives (λ (tree : Program). tree) fault_of result (parse_of tokens.now) }
{
    match program(alloc, tokens) {
        Ok(tree) => formed(alloc, tree),
        Err(ReadFault::Memory) => Err(ParseError::Memory),
        Err(ReadFault::Halted(halt)) => Err(ParseError::Refused(refusal(tokens, halt))),
    }
}

/// No tokens are spelled by two trees, however deep they nest.
pub fn one_tree()
    ensures { (depth depth' : ℕ) (tree tree' : Program) (tokens : List Token)
        → SpellsProgram depth tree tokens → SpellsProgram depth' tree' tokens → tree ≡ tree' }
{}

/// A program that is all of the tokens.
#[tactic(auto, unfolding(crate::specs::Reading::program))]
fn program(alloc: Global, tokens: &[Token]) -> Result<Program, ReadFault>
    ensures { Reads (spec.program max_nesting tokens.now) result [] }
{
    let mut tokens = Tokens::new(tokens);
    let name = identification(alloc, &mut tokens)?;
    let head = beside(name, environment(alloc, &mut tokens))?;
    let head = beside(head, data_division(alloc, &mut tokens))?;
    let all = beside(head, procedure(alloc, &mut tokens))?;
    let (all, ()) = beside(all, ending(alloc, &mut tokens))?;
    let ((((name, selects), described), sections), ()) = beside(all, tokens.expect_end())?;
    Ok(Program {
        name,
        selects,
        files: described.files,
        storage: described.storage,
        sections,
    })
}

/// The tree, if each of its pictures has a form.
fn formed(alloc: Global, tree: Program) -> Result<Program, ParseError>
    ensures { Gives (λ (tree : Program). tree) fault_of result (faults.result_of_tree tree) }
{
    let forms = has_forms(alloc, &tree);
    let (tree, ()) = beside(tree, forms)?;
    Ok(tree)
}

/// Each picture of the tree has a form.
fn has_forms(alloc: Global, tree: &Program) -> Result<(), ParseError>
    ensures { Gives (λ (u : Unit {0}). tree.now) fault_of result (faults.result_of_tree tree.now) }
{
    match first_formless(alloc, tree.files.as_slice(), tree.storage.as_slice())? {
        None => Ok(()),
        Some(place) => Err(ParseError::Refused(ParseFault {
            kind: FaultKind::PictureWithoutForm,
            place,
        })),
    }
}
