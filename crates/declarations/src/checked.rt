//! Programs that keep the rules.

ghost use Rattle.std.specs.Prelude.{◌≡◌, []};
ghost use Rattle.source_tree.specs.Recursion.{HasOrder};
ghost use Rattle.source_tree.specs.Rules.{program_rules};
ghost use Rattle.declarations.specs.Named.{Declares};

use crate::declarations::Declarations;
use source_tree::Program;
use std::marker::Model;

/// A program that keeps the rules, with what it declares.
#[derive(Drop)]
pub struct Checked<'a> {
    program: &'a Program,
    declarations: Declarations<'a>,
}

impl<'a> Model for Checked<'a> {
    ghost use Rattle.std.specs.Coded.{codes};
    ghost use Rattle.source_tree.specs.contracts.statement.Statement as statement;
    ghost use Rattle.source_tree.specs.declared.program.Program.{Program};

    ghost Value = { Program };

    ghost coded = { Prim.hlevel (codes, statement.the_row.coded) };

    ghost use Rattle.declarations.specs.Kept.{KeepsRules};

    ghost view = { λ checked. checked.program.now };

    ghost invariant = { λ checked. KeepsRules checked.program.now checked.declarations };
}

impl<'a> Checked<'a> {
    /// A program that keeps the rules, with what it declares.
    pub fn new(program: &'a Program, declarations: Declarations<'a>) -> Checked<'a>
        requires kept { program_rules program.now ≡ [] }
        requires order { HasOrder program.now }
        requires program { Declares program.now declarations }
        ensures { result ≡ program.now }
    {
        Checked {
            program,
            declarations,
        }
    }

    /// The program.
    pub fn program(&self) -> &'a Program
        ensures same { result.now ≡ self.now }
        ensures kept { program_rules self.now ≡ [] }
        ensures order { HasOrder self.now }
    {
        self.program
    }

    /// What it declares.
    pub fn declarations(&self) -> &Declarations<'a>
        ensures program { Declares self.now result.now }
    {
        &self.declarations
    }
}
