//! The code of STRING with the statements in its phrases (COBOL-85, Nucleus, "The STRING statement").

ghost use Rattle.std.specs.Prelude.{◌≡◌, [], OnOk};
ghost use Rattle.source_tree.specs.EntryRules.{entry_rules};
ghost use Rattle.source_tree.specs.Rules as rules;
ghost use Rattle.source_tree.specs.Rules.{all_permitted};
ghost use Rattle.source_tree.specs.StringRules.{string_rules};
ghost use Rattle.declarations.specs.Named.{items_in, scope_in};
ghost use Rattle.condition_codegen.specs.Fragments.{append};
ghost use Rattle.codegen.specs.Layout.{string_statement_fragment, statement_fragment};

use crate::emit::{emit_phrases, emit_tick};
use code_image::Code;
use condition_codegen::Emitter;
use source_tree::{Statement, StringStatement};
use statement_codegen::emit_string;
use std::alloc::AllocError;

/// STRING, with the statements in its phrases.
#[cycle(statement)]
pub(crate) fn emit_stringing(
    emitter: &Emitter<'_>,
    code: &mut Code,
    line: u32,
    one: &StringStatement<Statement>,
) -> Result<(), AllocError>
    requires entries { entry_rules emitter.now.declarations.now.storage.now ≡ [] }
    requires string { string_rules (items_in emitter.now.declarations.now) one.now ≡ [] }
    requires arose { rules.phrase_rules (rules.statement_rules
        (scope_in emitter.now.declarations.now) all_permitted) one.now.phrases.arose ≡ [] }
    requires did_not { rules.phrase_rules (rules.statement_rules
        (scope_in emitter.now.declarations.now) all_permitted) one.now.phrases.did_not ≡ [] }
    ensures { OnOk result (code.new
        ≡ append code.old (string_statement_fragment (scope_in emitter.now.declarations.now)
        (statement_fragment (scope_in emitter.now.declarations.now)) line one.now code.old)) }
{
    emit_tick(code, line)?;
    emit_string(
        emitter,
        code,
        one.sendings.as_slice(),
        &one.receiver,
        &one.pointer,
    )?;
    emit_phrases(emitter, code, &one.phrases)
}
