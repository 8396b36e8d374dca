//! What is sent: literals, with their table, and operands (COBOL-85, Nucleus, "The MOVE statement").

ghost use Rattle.std.specs.Prelude.{◌≡◌, ◌++◌, [], ◌∷◌, length, true, IfOk, OnOk};
ghost use Rattle.source_tree.specs.Literals.{literal_sender};
ghost use Rattle.source_tree.specs.NameRules.{operand_rules};
ghost use Rattle.source_tree.specs.ValueRules.{has_form};
ghost use Rattle.declarations.specs.Named.{items_in};
ghost use Rattle.condition_codegen.specs.Fragments.{append};
ghost use Rattle.condition_codegen.specs.DataCode as spec;

use crate::emitter::{Emitter, entry_number};
use crate::references::emit_work;
use code_image::Code;
use data_entries::Sender;
use data_instructions::{DataInstruction, LiteralSender, SenderIndex};
use source_tree::{LiteralValue, Operand};
use std::alloc::{AllocError, Global};

/// A literal, in the table of senders. Answers its number there.
pub(crate) fn put_sender(
    alloc: Global,
    code: &mut Code,
    value: &LiteralValue,
) -> Result<SenderIndex, AllocError>
    requires { has_form value.now ≡ true }
    ensures code { OnOk result (code.new ≡ record code.old {
      tables = record code.old.tables {
        senders = code.old.tables.senders ++ spec.literal_entry (literal_sender value.now) ∷ [];
      };
    }) }
    ensures index { IfOk result
        (λ index. index ≡ record { number = length code.old.tables.senders }) }
{
    let number = entry_number(code.tables.senders.len())?;
    let Sender { taken, bytes } = Sender::of(alloc, value)?;
    code.tables.senders.push(LiteralSender { taken, bytes })?;
    Ok(SenderIndex { number })
}

/// A literal, taken as the sender.
pub(crate) fn emit_literal(
    alloc: Global,
    code: &mut Code,
    value: &LiteralValue,
) -> Result<(), AllocError>
    requires { has_form value.now ≡ true }
    ensures { OnOk result (code.new ≡ append code.old (spec.literal_fragment value.now code.old)) }
{
    let literal = put_sender(alloc, code, value)?;
    emit_work(code, DataInstruction::TakeLiteral { literal })
}

impl<'a> Emitter<'a> {
    /// What is sent.
    pub fn emit_sender(&self, code: &mut Code, one: &Operand) -> Result<(), AllocError>
        requires rules { operand_rules (items_in self.now.declarations.now) one.now ≡ [] }
        ensures { OnOk result (code.new ≡ append code.old
            (spec.sender_fragment (items_in self.now.declarations.now) one.now code.old)) }
    {
        match one {
            Operand::Item(reference) => self.emit_taking(code, DataInstruction::Take, reference),
            Operand::Literal(literal) => emit_literal(self.alloc, code, &literal.value),
        }
    }
}
