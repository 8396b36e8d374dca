//! Whether a program keeps the rules.

ghost use Rattle.std.specs.Prelude.{◌≡◌, [], IfOk, IfErr, OnOk};
ghost use Rattle.source_tree.specs.Recursion.{HasOrder};
ghost use Rattle.source_tree.specs.Rules.{program_rules};
ghost use Rattle.entry_rules.specs.Checks.{fault_of};
ghost use Rattle.declarations.specs.Declaring.{declaration_rules};
ghost use Rattle.declarations.specs.Named.{Declares};
ghost use Rattle.check_rules.specs.Refusals.{IsFirstFault};

use crate::checker::Checker;
use crate::procedure::procedure_rules;
use answers::beside;
use declarations::{Checked, Declarations};
use entry_rules::CheckError;
use source_tree::Program;
use std::alloc::Global;

/// Whether a program keeps the rules: 17, 18 and 40 to 69. Otherwise the answer is the first that it breaks, in the order of the
/// definition: those of its entries, those of its files, those of the names of its procedures, those of its statements in the order of
/// the text, and then 56, and 69 of the number of its statements; and 54 only where it breaks no other.
pub fn check(alloc: Global, program: &Program) -> Result<Checked<'_>, CheckError>
    ensures program { IfOk result (λ checked. checked ≡ program.now) }
    // A program that is accepted breaks no rule, and none of its PERFORMs leads back.
    ensures kept { OnOk result (program_rules program.now ≡ []) }
    ensures order { OnOk result (HasOrder program.now) }
    // A refusal tells the first rule that is broken, or a PERFORM that leads back where none is, unless memory runs out.
    ensures exact { IfErr result (λ e. IsFirstFault program.now (fault_of e)) }
{
    let declarations = Declarations::of(alloc, program)?;
    let checker = Checker {
        declarations: &declarations,
    };
    let ruled = checker.procedure_division_rules(alloc, program);
    let (declarations, ()) = beside(declarations, ruled)?;
    Ok(Checked::new(program, declarations))
}

impl<'a> Checker<'a> {
    /// The rules of the statements, 56, 69 of their number, and 54, of the program that declares this and breaks none before them.
    fn procedure_division_rules(&self, alloc: Global, program: &Program) -> Result<(), CheckError>
        requires program { Declares program.now self.now.declarations.now }
        requires kept { declaration_rules program.now ≡ [] }
        ensures kept { OnOk result (program_rules program.now ≡ []) }
        ensures order { OnOk result (HasOrder program.now) }
        ensures exact { IfErr result (λ e. IsFirstFault program.now (fault_of e)) }
    {
        self.sections_rules(program.sections.as_slice())?;
        procedure_rules(program)?;
        self.recursion_rules(alloc, program)?;
        Ok(())
    }
}
