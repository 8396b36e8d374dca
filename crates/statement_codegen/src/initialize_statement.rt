//! The code of INITIALIZE and of SET (COBOL-85, Nucleus, "The INITIALIZE statement", "The SET statement").

ghost use Rattle.std.specs.Prelude.{◌≡◌, [], OnOk};
ghost use Rattle.source_tree.specs.EntryRules.{entry_rules};
ghost use Rattle.source_tree.specs.NameRules.{reference_rules, any_item};
ghost use Rattle.source_tree.specs.SettingRules.{initialize_rules, set_one, set_rules};
ghost use Rattle.declarations.specs.Named.{items_in};
ghost use Rattle.condition_codegen.specs.Fragments.{append};
ghost use Rattle.condition_codegen.specs.PatternCode as spec;

use crate::display_statement::put_text;
use code_image::Code;
use condition_codegen::{Emitter, Overlay, emit_work};
use data_instructions::DataInstruction;
use source_tree::Reference;
use std::alloc::AllocError;

/// INITIALIZE, after its `tick`.
pub fn emit_initializes(
    emitter: &Emitter<'_>,
    code: &mut Code,
    all: &[Reference],
) -> Result<(), AllocError>
    requires entries { entry_rules emitter.now.declarations.now.storage.now ≡ [] }
    requires rules { initialize_rules (items_in emitter.now.declarations.now) all.now ≡ [] }
    ensures { OnOk result (code.new ≡ append code.old
        (spec.initializes_fragment (items_in emitter.now.declarations.now) all.now code.old)) }
{
    for one in all {
        emit_initialize(emitter, code, one)?;
    }
    Ok(())
}

/// SET, after its `tick`.
pub fn emit_sets(
    emitter: &Emitter<'_>,
    code: &mut Code,
    all: &[Reference],
) -> Result<(), AllocError>
    requires entries { entry_rules emitter.now.declarations.now.storage.now ≡ [] }
    requires rules { set_rules (items_in emitter.now.declarations.now) all.now ≡ [] }
    ensures { OnOk result (code.new ≡ append code.old
        (spec.sets_fragment (items_in emitter.now.declarations.now) all.now code.old)) }
{
    for one in all {
        emit_set(emitter, code, one)?;
    }
    Ok(())
}

/// The code that initializes the item of a reference.
fn emit_initialize(
    emitter: &Emitter<'_>,
    code: &mut Code,
    one: &Reference,
) -> Result<(), AllocError>
    requires entries { entry_rules emitter.now.declarations.now.storage.now ≡ [] }
    requires rules { reference_rules (items_in emitter.now.declarations.now) any_item one.now
        ≡ [] }
    ensures { OnOk result (code.new ≡ append code.old
        (spec.initialize_fragment (items_in emitter.now.declarations.now) one.now code.old)) }
{
    emitter.emit_reference(code, one)?;
    emit_overlay(code, emitter.initial_overlay(one)?)
}

/// The item of a condition name, in the occurrence referred to.
fn emit_set(emitter: &Emitter<'_>, code: &mut Code, one: &Reference) -> Result<(), AllocError>
    requires entries { entry_rules emitter.now.declarations.now.storage.now ≡ [] }
    requires rules { set_one (items_in emitter.now.declarations.now) one.now ≡ [] }
    ensures { OnOk result (code.new ≡ append code.old
        (spec.set_fragment (items_in emitter.now.declarations.now) one.now code.old)) }
{
    let item = emitter.condition_item(&one.item)?;
    emit_work(code, DataInstruction::Place { item })?;
    let dimensions = emitter.dimensions_at(item.number as usize);
    emitter.emit_subscripts(code, dimensions, one.subscripts.as_slice())?;
    let made = emitter.set_overlay(one)?;
    emit_overlay(code, made)
}

/// New bytes for the newest place: those that are marked.
fn emit_overlay(code: &mut Code, one: Overlay) -> Result<(), AllocError>
    ensures { OnOk result
        (code.new ≡ append code.old (spec.overlay_fragment one.bytes one.marks code.old)) }
{
    let Overlay { bytes, marks } = one;
    let text = put_text(code, bytes)?;
    code.tables.texts.push(marks)?;
    emit_work(code, DataInstruction::Overlay { text })
}
