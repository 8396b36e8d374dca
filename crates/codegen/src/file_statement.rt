//! The code of file statements with the statements in their phrases (COBOL-85, Sequential, Relative and Indexed I-O).

ghost use Rattle.std.specs.Prelude.{◌≡◌, [], OnOk};
ghost use Rattle.records.specs.declared.verb.Verb.TheVariants as file_verb;
ghost use Rattle.source_tree.specs.EntryRules.{entry_rules};
ghost use Rattle.source_tree.specs.Filing as meaning;
ghost use Rattle.source_tree.specs.Filing.{phrases_of};
ghost use Rattle.source_tree.specs.FilingRules.{delete_rules, file_named_rules, filing_rules, into_rules, read_rules, record_rules, start_rules};
ghost use Rattle.source_tree.specs.Rules as rules;
ghost use Rattle.source_tree.specs.Rules.{all_permitted};
ghost use Rattle.file_descriptions.specs.Files.{file_in};
ghost use Rattle.declarations.specs.Named.{items_in, files_in, scope_in};
ghost use Rattle.condition_codegen.specs.Fragments.{append, sequence};
ghost use Rattle.codegen.specs.UntilCode.{tick_fragment};
ghost use Rattle.statement_codegen.specs.FileCode.{file_fragment, into_fragment, on_name_fragment};
ghost use Rattle.codegen.specs.Layout.{alone_fragment, class_fragment, failure_fragment, file_statement_fragment, record_fragment, statement_on_fragment, statement_fragment, status_fragment, success_fragment, taken_fragment};

use crate::emit::{emit_phrase, emit_statements, emit_tick};
use crate::open_statement::{emit_closes, emit_opens};
use code_image::Code;
use condition_codegen::{Emitter, emit_branch, emit_jump, emit_meeting};
use file_descriptions::ProgramFile;
use file_image::StatusClass;
use records::Verb;
use source_tree::{FilePhrases, FileStatement, Name, Reference, StartKey, Statement};
use sqlite_items::Items;
use statement_codegen::{
    emit_file, emit_from, emit_into, emit_test, emit_unheard, file_named, file_of_record,
    read_verb, start_verb,
};
use std::alloc::AllocError;

/// A file statement, with its `tick` and the statements in its phrases.
#[cycle(statement)]
pub(crate) fn emit_filing(
    emitter: &Emitter<'_>,
    code: &mut Code,
    line: u32,
    one: &FileStatement<Statement>,
) -> Result<(), AllocError>
    requires entries { entry_rules emitter.now.declarations.now.storage.now ≡ [] }
    requires rules { filing_rules (items_in emitter.now.declarations.now)
        (files_in emitter.now.declarations.now) one.now ≡ [] }
    requires phrases { rules.file_phrases_rules (rules.statement_rules
        (scope_in emitter.now.declarations.now) all_permitted) (phrases_of one.now) ≡ [] }
    ensures { OnOk result (code.new ≡ append code.old (sequence
        (tick_fragment line) (file_statement_fragment (scope_in emitter.now.declarations.now)
        (statement_fragment (scope_in emitter.now.declarations.now)) one.now) code.old)) }
{
    emit_tick(code, line)?;
    match one {
        FileStatement::Open { files } => emit_opens(emitter, code, files.as_slice()),
        FileStatement::Close { files } => emit_closes(emitter, code, files.as_slice()),
        FileStatement::Read {
            file,
            next,
            into,
            key,
            phrases,
        } => emit_read(emitter, code, file, *next, into, key, phrases),
        FileStatement::Write {
            record,
            from,
            phrases,
        } => emit_record(emitter, code, Verb::Write, record, from, phrases),
        FileStatement::Rewrite {
            record,
            from,
            phrases,
        } => emit_record(emitter, code, Verb::Rewrite, record, from, phrases),
        FileStatement::Delete { file, phrases } => emit_delete(emitter, code, file, phrases),
        FileStatement::Start { file, key, phrases } => emit_starting(
            emitter, code, file, key, phrases,
        ),
    }
}

/// READ, if there is such a file.
#[cycle(statement)]
fn emit_read(
    emitter: &Emitter<'_>,
    code: &mut Code,
    name: &Name,
    next: bool,
    into: &Option<Reference>,
    key: &Option<Reference>,
    phrases: &FilePhrases<Statement>,
) -> Result<(), AllocError>
    requires entries { entry_rules emitter.now.declarations.now.storage.now ≡ [] }
    requires rules { file_named_rules (items_in emitter.now.declarations.now)
        (files_in emitter.now.declarations.now) name.now
        (read_rules (items_in emitter.now.declarations.now) (files_in emitter.now.declarations.now)
        name.now.place next into.now key.now phrases.now) ≡ [] }
    requires phrases { rules.file_phrases_rules (rules.statement_rules
        (scope_in emitter.now.declarations.now) all_permitted) phrases.now ≡ [] }
    ensures { OnOk result
        (code.new ≡ append code.old (on_name_fragment (items_in emitter.now.declarations.now)
        (files_in emitter.now.declarations.now) name.now (statement_on_fragment (scope_in
        emitter.now.declarations.now) (statement_fragment (scope_in emitter.now.declarations.now))
        phrases.now (into_fragment (items_in emitter.now.declarations.now) into.now) (λ file.
        meaning.read_verb (items_in emitter.now.declarations.now) file next key.now)) code.old)) }
{
    let Some(file) = file_named(emitter, name) else {
        return Ok(());
    };
    let verb = read_verb(emitter, file, next, key)?;
    emit_on_file(emitter, code, file, verb, into, phrases)
}

/// WRITE or REWRITE.
#[cycle(statement)]
fn emit_record(
    emitter: &Emitter<'_>,
    code: &mut Code,
    verb: Verb,
    one: &Reference,
    from: &Option<Reference>,
    phrases: &FilePhrases<Statement>,
) -> Result<(), AllocError>
    requires entries { entry_rules emitter.now.declarations.now.storage.now ≡ [] }
    requires rules { record_rules (items_in emitter.now.declarations.now)
        (files_in emitter.now.declarations.now) one.now from.now phrases.now ≡ [] }
    requires phrases { rules.file_phrases_rules (rules.statement_rules
        (scope_in emitter.now.declarations.now) all_permitted) phrases.now ≡ [] }
    ensures { OnOk result (code.new ≡ append
        code.old (record_fragment (scope_in emitter.now.declarations.now) (statement_fragment
        (scope_in emitter.now.declarations.now)) verb one.now from.now phrases.now code.old)) }
{
    emit_from(emitter, code, one, from)?;
    let Some(file) = file_of_record(emitter, one) else {
        return Ok(());
    };
    emit_on_file(emitter, code, file, verb, &None, phrases)
}

/// DELETE, if there is such a file.
#[cycle(statement)]
fn emit_delete(
    emitter: &Emitter<'_>,
    code: &mut Code,
    name: &Name,
    phrases: &FilePhrases<Statement>,
) -> Result<(), AllocError>
    requires entries { entry_rules emitter.now.declarations.now.storage.now ≡ [] }
    requires phrases { rules.file_phrases_rules (rules.statement_rules
        (scope_in emitter.now.declarations.now) all_permitted) phrases.now ≡ [] }
    ensures { OnOk result (code.new ≡ append code.old (on_name_fragment
        (items_in emitter.now.declarations.now) (files_in emitter.now.declarations.now) name.now
        (alone_fragment (scope_in emitter.now.declarations.now) (statement_fragment (scope_in
        emitter.now.declarations.now)) phrases.now (λ file. file_verb.Delete)) code.old)) }
{
    let Some(file) = file_named(emitter, name) else {
        return Ok(());
    };
    emit_on_file(emitter, code, file, Verb::Delete, &None, phrases)
}

/// START, if there is such a file.
#[cycle(statement)]
fn emit_starting(
    emitter: &Emitter<'_>,
    code: &mut Code,
    name: &Name,
    key: &Option<StartKey>,
    phrases: &FilePhrases<Statement>,
) -> Result<(), AllocError>
    requires entries { entry_rules emitter.now.declarations.now.storage.now ≡ [] }
    requires rules { file_named_rules (items_in emitter.now.declarations.now) (files_in
        emitter.now.declarations.now) name.now (start_rules (items_in emitter.now.declarations.now)
        (files_in emitter.now.declarations.now) name.now.place key.now phrases.now) ≡ [] }
    requires phrases { rules.file_phrases_rules (rules.statement_rules
        (scope_in emitter.now.declarations.now) all_permitted) phrases.now ≡ [] }
    ensures { OnOk result (code.new
        ≡ append code.old (on_name_fragment (items_in emitter.now.declarations.now) (files_in
        emitter.now.declarations.now) name.now
        (alone_fragment (scope_in emitter.now.declarations.now)
        (statement_fragment (scope_in emitter.now.declarations.now)) phrases.now (λ file.
        meaning.start_verb (items_in emitter.now.declarations.now) file key.now)) code.old)) }
{
    let Some(file) = file_named(emitter, name) else {
        return Ok(());
    };
    let verb = start_verb(emitter, file, key)?;
    emit_on_file(emitter, code, file, verb, &None, phrases)
}

/// A file statement on a file, and the code for its status. INTO comes first after a success.
#[cycle(statement)]
fn emit_on_file(
    emitter: &Emitter<'_>,
    code: &mut Code,
    file: &ProgramFile<'_>,
    verb: Verb,
    into: &Option<Reference>,
    phrases: &FilePhrases<Statement>,
) -> Result<(), AllocError>
    requires entries { entry_rules emitter.now.declarations.now.storage.now ≡ [] }
    requires into { into_rules
        (items_in emitter.now.declarations.now) (files_in emitter.now.declarations.now)
        (file_in (items_in emitter.now.declarations.now) file.now) into.now ≡ [] }
    requires phrases { rules.file_phrases_rules (rules.statement_rules
        (scope_in emitter.now.declarations.now) all_permitted) phrases.now ≡ [] }
    ensures { OnOk result (code.new ≡ append code.old
        (sequence (file_fragment verb (file_in (items_in emitter.now.declarations.now) file.now))
        (status_fragment (scope_in emitter.now.declarations.now) (statement_fragment
        (scope_in emitter.now.declarations.now)) (file_in (items_in emitter.now.declarations.now)
        file.now).places.status phrases.now (into_fragment (items_in emitter.now.declarations.now)
        into.now (file_in (items_in emitter.now.declarations.now) file.now))) code.old)) }
{
    emit_file(code, verb, file)?;
    emit_test(code, StatusClass::Successful)?;
    let branch = emit_branch(code)?;
    emit_into(emitter, code, file, into)?;
    emit_success(emitter, code, phrases)?;
    let other = emit_jump(code)?;
    emit_failure(emitter, code, file, phrases)?;
    emit_meeting(code, branch, other)
}

/// The statements after a success.
#[cycle(statement)]
fn emit_success(
    emitter: &Emitter<'_>,
    code: &mut Code,
    phrases: &FilePhrases<Statement>,
) -> Result<(), AllocError>
    requires entries { entry_rules emitter.now.declarations.now.storage.now ≡ [] }
    requires phrases { rules.file_phrases_rules (rules.statement_rules
        (scope_in emitter.now.declarations.now) all_permitted) phrases.now ≡ [] }
    ensures { OnOk result
        (code.new ≡ append code.old (success_fragment (scope_in emitter.now.declarations.now)
        (statement_fragment (scope_in emitter.now.declarations.now)) phrases.now code.old)) }
{
    match phrases {
        FilePhrases::Absent => Ok(()),
        FilePhrases::AtEnd(pair) => emit_phrase(emitter, code, &pair.did_not),
        FilePhrases::InvalidKey(pair) => emit_phrase(emitter, code, &pair.did_not),
    }
}

/// The code for a status that is no success.
#[cycle(statement)]
fn emit_failure(
    emitter: &Emitter<'_>,
    code: &mut Code,
    file: &ProgramFile<'_>,
    phrases: &FilePhrases<Statement>,
) -> Result<(), AllocError>
    requires entries { entry_rules emitter.now.declarations.now.storage.now ≡ [] }
    requires phrases { rules.file_phrases_rules (rules.statement_rules
        (scope_in emitter.now.declarations.now) all_permitted) phrases.now ≡ [] }
    ensures { OnOk result
        (code.new ≡ append code.old (failure_fragment (scope_in emitter.now.declarations.now)
        (statement_fragment (scope_in emitter.now.declarations.now)) (file_in
        (items_in emitter.now.declarations.now) file.now).places.status phrases.now code.old)) }
{
    match phrases {
        FilePhrases::Absent => emit_unheard(emitter, code, file),
        FilePhrases::AtEnd(pair) => {
            emit_class_phrase(emitter, code, file, StatusClass::AtEnd, &pair.arose)
        }
        FilePhrases::InvalidKey(pair) => {
            emit_class_phrase(emitter, code, file, StatusClass::InvalidKey, &pair.arose)
        }
    }
}

/// The phrase for statuses of a class.
#[cycle(statement)]
fn emit_class_phrase(
    emitter: &Emitter<'_>,
    code: &mut Code,
    file: &ProgramFile<'_>,
    class: StatusClass,
    arose: &Option<Items<Statement>>,
) -> Result<(), AllocError>
    requires entries { entry_rules emitter.now.declarations.now.storage.now ≡ [] }
    requires rules { rules.phrase_rules (rules.statement_rules
        (scope_in emitter.now.declarations.now) all_permitted) arose.now ≡ [] }
    ensures { OnOk
        result (code.new ≡ append code.old (class_fragment (scope_in emitter.now.declarations.now)
        (statement_fragment (scope_in emitter.now.declarations.now)) (file_in (items_in
        emitter.now.declarations.now) file.now).places.status class arose.now code.old)) }
{
    emit_test(code, class)?;
    let branch = emit_branch(code)?;
    emit_phrase_taken(emitter, code, file, arose)?;
    let other = emit_jump(code)?;
    emit_unheard(emitter, code, file)?;
    emit_meeting(code, branch, other)
}

/// The statements of a phrase for a status, or else the code for a status that nothing takes.
#[cycle(statement)]
fn emit_phrase_taken(
    emitter: &Emitter<'_>,
    code: &mut Code,
    file: &ProgramFile<'_>,
    phrase: &Option<Items<Statement>>,
) -> Result<(), AllocError>
    requires entries { entry_rules emitter.now.declarations.now.storage.now ≡ [] }
    requires rules { rules.phrase_rules (rules.statement_rules
        (scope_in emitter.now.declarations.now) all_permitted) phrase.now ≡ [] }
    ensures { OnOk result
        (code.new ≡ append code.old (taken_fragment (scope_in emitter.now.declarations.now)
        (statement_fragment (scope_in emitter.now.declarations.now)) (file_in
        (items_in emitter.now.declarations.now) file.now).places.status phrase.now code.old)) }
{
    match phrase {
        None => emit_unheard(emitter, code, file),
        Some(inside) => emit_statements(emitter, code, inside.as_slice()),
    }
}
