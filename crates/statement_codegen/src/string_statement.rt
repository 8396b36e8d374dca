//! The code of STRING without its phrases (COBOL-85, Nucleus, "The STRING statement").

ghost use Rattle.std.specs.Prelude.{◌≡◌, [], Some, None, IfOk, OnOk};
ghost use Rattle.source_tree.specs.Broken.{each};
ghost use Rattle.source_tree.specs.NameRules.{number_rules_of};
ghost use Rattle.source_tree.specs.StringRules.{sent_rules, delimiter_rules, sending_rules};
ghost use Rattle.declarations.specs.Named.{items_in};
ghost use Rattle.condition_codegen.specs.Fragments.{append, in_order};
ghost use Rattle.source_tree.specs.Display.{shown_literal};
ghost use Rattle.source_tree.specs.Stringing.{sent_of};
ghost use Rattle.statement_codegen.specs.StringCode as spec;

use crate::display_statement::{emit_text, put_text};
use code_image::Code;
use condition_codegen::{Emitter, emit_work, literal_text};
use data_instructions::{DataInstruction, Gather};
use source_tree::{LiteralValue, Operand, Reference, Sending};
use sqlite_items::Items;
use std::alloc::{AllocError, Global};
use text_ops::delimited;

/// STRING, up to its phrases.
pub fn emit_string(
    emitter: &Emitter<'_>,
    code: &mut Code,
    sendings: &[Sending],
    receiver: &Reference,
    pointer: &Option<Reference>,
) -> Result<(), AllocError>
    requires sendings { each (sending_rules (items_in emitter.now.declarations.now)) sendings.now
        ≡ [] }
    requires receiver { number_rules_of (items_in emitter.now.declarations.now) receiver.now ≡ [] }
    requires pointer { spec.pointer_numbers (items_in emitter.now.declarations.now) pointer.now
        ≡ [] }
    ensures { OnOk result (code.new ≡ append code.old (spec.string_fragment
        (items_in emitter.now.declarations.now) sendings.now receiver.now pointer.now code.old)) }
{
    emit_sendings(emitter, code, sendings)?;
    emitter.emit_reference(code, receiver)?;
    emit_put(emitter, code, pointer)
}

/// A sender DELIMITED BY SIZE.
fn emit_sized(emitter: &Emitter<'_>, code: &mut Code, one: &Operand) -> Result<(), AllocError>
    requires rules { sent_rules (items_in emitter.now.declarations.now) one.now ≡ [] }
    ensures { OnOk result (code.new ≡ append code.old
        (spec.sent_fragment (items_in emitter.now.declarations.now) None one.now code.old)) }
{
    match one {
        Operand::Item(reference) => {
            emitter.emit_taking(code, DataInstruction::Gather(Gather::Bytes), reference)
        }
        Operand::Literal(literal) => {
            emit_text(code, literal_text(emitter.alloc, &literal.value)?)
        }
    }
}

/// Senders DELIMITED BY SIZE, in order.
fn emit_all_sized(emitter: &Emitter<'_>, code: &mut Code, all: &[Operand]) -> Result<(), AllocError>
    requires rules { each (sent_rules (items_in emitter.now.declarations.now)) all.now ≡ [] }
    ensures { OnOk result (code.new ≡ append code.old (in_order
        (spec.sent_fragment (items_in emitter.now.declarations.now) None) all.now code.old)) }
{
    for one in all {
        emit_sized(emitter, code, one)?;
    }
    Ok(())
}

/// A sender DELIMITED BY a text: a literal is cut here.
fn emit_cut(
    emitter: &Emitter<'_>,
    code: &mut Code,
    delimiter: &[u8],
    one: &Operand,
) -> Result<(), AllocError>
    requires rules { sent_rules (items_in emitter.now.declarations.now) one.now ≡ [] }
    ensures { OnOk result (code.new ≡ append code.old (spec.sent_fragment
        (items_in emitter.now.declarations.now) (Some delimiter.now) one.now code.old)) }
{
    match one {
        Operand::Item(reference) => {
            emitter.emit_reference(code, reference)?;
            emit_up_to_text(code, Items::from_slice(emitter.alloc, delimiter)?)
        }
        Operand::Literal(literal) => {
            emit_text(code, cut_text(emitter.alloc, delimiter, &literal.value)?)
        }
    }
}

/// A literal up to a delimiter.
fn cut_text(alloc: Global, delimiter: &[u8], value: &LiteralValue) -> Result<Items<u8>, AllocError>
    ensures { IfOk result (λ bytes. bytes
        ≡ sent_of (Some delimiter.now) (shown_literal value.now)) }
{
    let text = literal_text(alloc, value)?;
    Items::from_slice(alloc, delimited(delimiter, text.as_slice()))
}

/// Senders DELIMITED BY a text, in order.
fn emit_all_cut(
    emitter: &Emitter<'_>,
    code: &mut Code,
    delimiter: &[u8],
    all: &[Operand],
) -> Result<(), AllocError>
    requires rules { each (sent_rules (items_in emitter.now.declarations.now)) all.now ≡ [] }
    ensures { OnOk result (code.new ≡ append code.old (in_order (spec.sent_fragment
        (items_in emitter.now.declarations.now) (Some delimiter.now)) all.now code.old)) }
{
    for one in all {
        emit_cut(emitter, code, delimiter, one)?;
    }
    Ok(())
}

/// The place of a sender, which is discarded: it is only looked up.
fn emit_found(emitter: &Emitter<'_>, code: &mut Code, one: &Operand) -> Result<(), AllocError>
    requires rules { sent_rules (items_in emitter.now.declarations.now) one.now ≡ [] }
    ensures { OnOk result (code.new ≡ append code.old
        (spec.found_fragment (items_in emitter.now.declarations.now) one.now code.old)) }
{
    match one {
        Operand::Item(reference) => {
            emitter.emit_taking(code, DataInstruction::DropPlace, reference)
        }
        Operand::Literal(_) => Ok(()),
    }
}

/// Those of senders, in order.
fn emit_all_found(emitter: &Emitter<'_>, code: &mut Code, all: &[Operand]) -> Result<(), AllocError>
    requires rules { each (sent_rules (items_in emitter.now.declarations.now)) all.now ≡ [] }
    ensures { OnOk result (code.new ≡ append code.old (in_order
        (spec.found_fragment (items_in emitter.now.declarations.now)) all.now code.old)) }
{
    for one in all {
        emit_found(emitter, code, one)?;
    }
    Ok(())
}

/// A sender up to the bytes of the newest place.
fn emit_up_to_place(emitter: &Emitter<'_>, code: &mut Code, one: &Operand) -> Result<(), AllocError>
    requires rules { sent_rules (items_in emitter.now.declarations.now) one.now ≡ [] }
    ensures { OnOk result (code.new ≡ append code.old
        (spec.up_to_place_fragment (items_in emitter.now.declarations.now) one.now code.old)) }
{
    match one {
        Operand::Item(reference) => {
            emitter.emit_taking(code, DataInstruction::Gather(Gather::UpToPlace), reference)
        }
        Operand::Literal(literal) => {
            emit_text_up_to_place(code, literal_text(emitter.alloc, &literal.value)?)
        }
    }
}

/// Senders up to the bytes of the newest place, in order.
fn emit_all_up_to_place(
    emitter: &Emitter<'_>,
    code: &mut Code,
    all: &[Operand],
) -> Result<(), AllocError>
    requires rules { each (sent_rules (items_in emitter.now.declarations.now)) all.now ≡ [] }
    ensures { OnOk result (code.new ≡ append code.old (in_order
        (spec.up_to_place_fragment (items_in emitter.now.declarations.now)) all.now code.old)) }
{
    for one in all {
        emit_up_to_place(emitter, code, one)?;
    }
    Ok(())
}

/// Senders DELIMITED BY an item.
fn emit_all_delimited(
    emitter: &Emitter<'_>,
    code: &mut Code,
    all: &[Operand],
    delimiter: &Reference,
) -> Result<(), AllocError>
    requires senders { each (sent_rules (items_in emitter.now.declarations.now)) all.now ≡ [] }
    requires delimiter { number_rules_of (items_in emitter.now.declarations.now) delimiter.now
        ≡ [] }
    ensures { OnOk result (code.new ≡ append code.old (spec.delimited_fragment
        (items_in emitter.now.declarations.now) all.now delimiter.now code.old)) }
{
    emit_all_found(emitter, code, all)?;
    emitter.emit_reference(code, delimiter)?;
    emit_all_up_to_place(emitter, code, all)?;
    emit_work(code, DataInstruction::DropPlace)
}

/// Senders DELIMITED BY an operand.
fn emit_all_by(
    emitter: &Emitter<'_>,
    code: &mut Code,
    senders: &[Operand],
    delimiter: &Operand,
) -> Result<(), AllocError>
    requires senders { each (sent_rules (items_in emitter.now.declarations.now)) senders.now ≡ [] }
    requires delimiter { sent_rules (items_in emitter.now.declarations.now) delimiter.now ≡ [] }
    ensures { OnOk result (code.new ≡ append code.old (spec.sender_by_fragment
        (items_in emitter.now.declarations.now) senders.now (Some delimiter.now) code.old)) }
{
    match delimiter {
        Operand::Literal(literal) => {
            let text = literal_text(emitter.alloc, &literal.value)?;
            emit_all_cut(emitter, code, text.as_slice(), senders)
        }
        Operand::Item(reference) => emit_all_delimited(emitter, code, senders, reference),
    }
}

/// Senders with their delimiter.
fn emit_sending(emitter: &Emitter<'_>, code: &mut Code, one: &Sending) -> Result<(), AllocError>
    requires senders { each (sent_rules (items_in emitter.now.declarations.now)) one.now.senders
        ≡ [] }
    requires delimiter { delimiter_rules (items_in emitter.now.declarations.now) one.now.delimiter
        ≡ [] }
    ensures { OnOk result (code.new ≡ append code.old
        (spec.sender_fragment (items_in emitter.now.declarations.now) one.now code.old)) }
{
    let senders = one.senders.as_slice();
    match &one.delimiter {
        None => emit_all_sized(emitter, code, senders),
        Some(delimiter) => emit_all_by(emitter, code, senders, delimiter),
    }
}

/// What is sent, in order.
fn emit_sendings(emitter: &Emitter<'_>, code: &mut Code, all: &[Sending]) -> Result<(), AllocError>
    requires rules { each (sending_rules (items_in emitter.now.declarations.now)) all.now ≡ [] }
    ensures { OnOk result (code.new ≡ append code.old
        (spec.sendings_fragment (items_in emitter.now.declarations.now) all.now code.old)) }
{
    for one in all {
        emit_sending(emitter, code, one)?;
    }
    Ok(())
}

/// The pointer's place, if there is one, and what puts the text.
fn emit_put(
    emitter: &Emitter<'_>,
    code: &mut Code,
    pointer: &Option<Reference>,
) -> Result<(), AllocError>
    requires rules { spec.pointer_numbers (items_in emitter.now.declarations.now) pointer.now
        ≡ [] }
    ensures { OnOk result (code.new ≡ append code.old
        (spec.put_fragment (items_in emitter.now.declarations.now) pointer.now code.old)) }
{
    match pointer {
        None => emit_work(code, DataInstruction::String { pointer: false }),
        Some(reference) => {
            emitter.emit_taking(code, DataInstruction::String { pointer: true }, reference)
        }
    }
}

/// The bytes of the newest place up to a text.
fn emit_up_to_text(code: &mut Code, bytes: Items<u8>) -> Result<(), AllocError>
    ensures { OnOk result (code.new ≡ append code.old (spec.up_to_text_fragment bytes code.old)) }
{
    let delimiter = put_text(code, bytes)?;
    emit_work(
        code,
        DataInstruction::Gather(Gather::UpToText { delimiter }),
    )
}

/// A text up to the bytes of the newest place.
fn emit_text_up_to_place(code: &mut Code, bytes: Items<u8>) -> Result<(), AllocError>
    ensures { OnOk result
        (code.new ≡ append code.old (spec.text_up_to_place_fragment bytes code.old)) }
{
    let text = put_text(code, bytes)?;
    emit_work(
        code,
        DataInstruction::Gather(Gather::TextUpToPlace { text }),
    )
}
