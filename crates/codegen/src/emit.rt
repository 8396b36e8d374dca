//! The code of each part of a program, added to the code that stands before it.

ghost use Rattle.std.specs.Prelude.{◌≡◌, [], length, OnOk};
ghost use Rattle.source_tree.specs.Broken.{each};
ghost use Rattle.source_tree.specs.EntryRules.{entry_rules};
ghost use Rattle.source_tree.specs.Procedures.{range_of};
ghost use Rattle.source_tree.specs.Rules as rules;
ghost use Rattle.source_tree.specs.Rules.{all_permitted};
ghost use Rattle.declarations.specs.Named.{items_in, scope_in};
ghost use Rattle.condition_codegen.specs.Fragments.{append, sequence, in_order};
ghost use Rattle.codegen.specs.UntilCode.{tick_fragment};
ghost use Rattle.codegen.specs.Layout.{data_fragment, texts_fragment, stop_run_fragment, conditional_fragment, control_fragment, range_fragment, turn_fragment, perform_fragment, phrase_fragment, phrases_fragment, statement_fragment, sentence_fragment, start_fragment, back_fragment, paragraph_fragment, section_fragment, end_fragment};
ghost use Rattle.codegen.specs.Turns.{KeepsPerformed};

use crate::evaluate_statement::emit_evaluate;
use crate::file_statement::emit_filing;
use crate::phrases::has_phrase;
use crate::string_statement::emit_stringing;
use crate::times::{count_of, emit_counted, emit_times};
use crate::until::emit_until;
use code_image::{Code, Instruction, ParagraphIndex};
use condition_codegen::{Emitter, emit_branch, emit_jump, emit_meeting};
use source_tree::{
    ConditionalStatement, ControlStatement, DataStatement, Name, Paragraph, PerformStatement,
    Performed, Phrases, Repetition, Section, Sentence, Statement, TextStatement, Verb,
};
use sqlite_items::Items;
use statement_codegen::{
    emit_accept, emit_arithmetic, emit_convert, emit_date, emit_display, emit_initializes,
    emit_inspect, emit_move, emit_sets,
};
use std::alloc::AllocError;

pub(crate) fn emit_tick(code: &mut Code, line: u32) -> Result<(), AllocError>
    ensures { OnOk result (code.new ≡ append code.old (tick_fragment line code.old)) }
{
    code.instructions.push(Instruction::Tick { line })
}

// The end of the last paragraph.
pub(crate) fn emit_end(code: &mut Code) -> Result<(), AllocError>
    ensures { OnOk result (code.new ≡ append code.old end_fragment) }
{
    code.instructions.push(Instruction::Stop)
}

/// The phrases, where one stands.
#[cycle(statement)]
pub(crate) fn emit_phrases(
    emitter: &Emitter<'_>,
    code: &mut Code,
    one: &Phrases<Statement>,
) -> Result<(), AllocError>
    requires entries { entry_rules emitter.now.declarations.now.storage.now ≡ [] }
    requires arose { rules.phrase_rules (rules.statement_rules
        (scope_in emitter.now.declarations.now) all_permitted) one.now.arose ≡ [] }
    requires did_not { rules.phrase_rules (rules.statement_rules
        (scope_in emitter.now.declarations.now) all_permitted) one.now.did_not ≡ [] }
    ensures { OnOk result
        (code.new ≡ append code.old (phrases_fragment (scope_in emitter.now.declarations.now)
        (statement_fragment (scope_in emitter.now.declarations.now)) one.now code.old)) }
{
    if !has_phrase(one) {
        return Ok(());
    }
    let branch = emit_branch(code)?;
    emit_phrase(emitter, code, &one.arose)?;
    let other = emit_jump(code)?;
    emit_phrase(emitter, code, &one.did_not)?;
    emit_meeting(code, branch, other)
}

/// The statements of a phrase, where it stands.
#[cycle(statement)]
pub(crate) fn emit_phrase(
    emitter: &Emitter<'_>,
    code: &mut Code,
    one: &Option<Items<Statement>>,
) -> Result<(), AllocError>
    requires entries { entry_rules emitter.now.declarations.now.storage.now ≡ [] }
    requires rules { rules.phrase_rules (rules.statement_rules
        (scope_in emitter.now.declarations.now) all_permitted) one.now ≡ [] }
    ensures { OnOk
        result (code.new ≡ append code.old (phrase_fragment (scope_in emitter.now.declarations.now)
        (statement_fragment (scope_in emitter.now.declarations.now)) one.now code.old)) }
{
    match one {
        None => Ok(()),
        Some(inside) => emit_statements(emitter, code, inside.as_slice()),
    }
}

/// One turn, which uses one of the budget.
#[cycle(statement)]
pub(crate) fn emit_turn(
    emitter: &Emitter<'_>,
    code: &mut Code,
    line: u32,
    one: &Performed<Statement>,
) -> Result<(), AllocError>
    requires entries { entry_rules emitter.now.declarations.now.storage.now ≡ [] }
    requires rules { KeepsPerformed emitter.now.declarations.now one.now }
    ensures { OnOk
        result (code.new ≡ append code.old (turn_fragment (scope_in emitter.now.declarations.now)
        (statement_fragment (scope_in emitter.now.declarations.now)) line one.now code.old)) }
{
    match one {
        Performed::Procedures { first, last } => emit_range(emitter, code, line, first, last),
        Performed::Statements(inside) => {
            emit_tick(code, line)?;
            emit_statements(emitter, code, inside.as_slice())
        }
    }
}

/// Statements, in order.
#[cycle(statement)]
pub(crate) fn emit_statements(
    emitter: &Emitter<'_>,
    code: &mut Code,
    all: &[Statement],
) -> Result<(), AllocError>
    requires entries { entry_rules emitter.now.declarations.now.storage.now ≡ [] }
    requires rules { each (rules.statement_rules (scope_in emitter.now.declarations.now)
        all_permitted) all.now ≡ [] }
    ensures { OnOk result (code.new ≡ append code.old
        (in_order (statement_fragment (scope_in emitter.now.declarations.now)) all.now code.old)) }
{
    for one in all {
        emit_statement(emitter, code, one)?;
    }
    Ok(())
}

/// Sections, in order, and the end of the last paragraph.
pub(crate) fn emit_sections(
    emitter: &Emitter<'_>,
    code: &mut Code,
    all: &[Section],
) -> Result<(), AllocError>
    requires entries { entry_rules emitter.now.declarations.now.storage.now ≡ [] }
    requires rules { rules.sections_rules (scope_in emitter.now.declarations.now) all_permitted
        all.now ≡ [] }
    ensures { OnOk result (code.new ≡ append (append code.old (in_order
        (section_fragment (scope_in emitter.now.declarations.now)) all.now code.old))
        end_fragment) }
{
    for one in all {
        emit_section(emitter, code, one)?;
    }
    emit_end(code)
}

fn emit_stop_run(code: &mut Code, line: u32) -> Result<(), AllocError>
    ensures { OnOk result (code.new ≡ append code.old (stop_run_fragment line code.old)) }
{
    emit_tick(code, line)?;
    emit_end(code)
}

fn emit_ending(code: &mut Code, line: u32, one: ControlStatement) -> Result<(), AllocError>
    ensures { OnOk result (code.new ≡ append code.old (control_fragment line one code.old)) }
{
    match one {
        ControlStatement::StopRun => emit_stop_run(code, line),
        ControlStatement::Continue | ControlStatement::Exit => emit_tick(code, line),
    }
}

fn emit_start(code: &mut Code) -> Result<(), AllocError>
    ensures { OnOk result (code.new ≡ append code.old (start_fragment code.old)) }
{
    let start = code.instructions.len();
    code.starts.push(start)
}

/// The end of the code paragraph of this number.
fn emit_back(code: &mut Code, number: usize) -> Result<(), AllocError>
    ensures { OnOk result (code.new ≡ append code.old (back_fragment number code.old)) }
{
    let paragraph = ParagraphIndex { number };
    code.instructions.push(Instruction::Back { paragraph })
}

/// The code paragraph of a section without paragraphs.
fn emit_nothing(code: &mut Code) -> Result<(), AllocError>
    ensures { OnOk result (code.new ≡ append code.old
        (append (start_fragment code.old) (back_fragment (length code.old.starts) code.old))) }
{
    let number = code.starts.len();
    emit_start(code)?;
    emit_back(code, number)
}

/// A statement that moves, with its `tick`.
fn emit_moving(
    emitter: &Emitter<'_>,
    code: &mut Code,
    line: u32,
    one: &DataStatement,
) -> Result<(), AllocError>
    requires entries { entry_rules emitter.now.declarations.now.storage.now ≡ [] }
    requires rules { rules.moving_rules (items_in emitter.now.declarations.now) one.now ≡ [] }
    ensures { OnOk result (code.new ≡ append code.old (sequence (tick_fragment line)
        (data_fragment (items_in emitter.now.declarations.now) one.now) code.old)) }
{
    emit_tick(code, line)?;
    match one {
        DataStatement::Move { sender, receivers } => {
            emit_move(emitter, code, sender, receivers.as_slice())
        }
        DataStatement::Initialize { receivers } => emit_initializes(
            emitter,
            code,
            receivers.as_slice(),
        ),
        DataStatement::Set { conditions } => emit_sets(emitter, code, conditions.as_slice()),
    }
}

/// A statement on texts, with its `tick`.
fn emit_texts(
    emitter: &Emitter<'_>,
    code: &mut Code,
    line: u32,
    one: &TextStatement,
) -> Result<(), AllocError>
    requires rules { rules.text_rules (items_in emitter.now.declarations.now) one.now ≡ [] }
    ensures { OnOk result (code.new ≡ append code.old (sequence (tick_fragment line)
        (texts_fragment (items_in emitter.now.declarations.now) one.now) code.old)) }
{
    emit_tick(code, line)?;
    match one {
        TextStatement::Display {
            operands,
            advancing,
        } => emit_display(emitter, code, operands.as_slice(), *advancing),
        TextStatement::Accept { receiver } => emit_accept(emitter, code, receiver),
        TextStatement::AcceptDate { receiver } => emit_date(emitter, code, receiver),
        TextStatement::Inspect(inspecting) => emit_inspect(emitter, code, inspecting),
        TextStatement::Convert(converting) => emit_convert(emitter, code, converting),
    }
}

/// A statement, with those in it.
#[cycle(statement)]
fn emit_statement(emitter: &Emitter<'_>, code: &mut Code, one: &Statement) -> Result<(), AllocError>
    requires entries { entry_rules emitter.now.declarations.now.storage.now ≡ [] }
    requires rules { rules.statement_rules (scope_in emitter.now.declarations.now) all_permitted
        one.now ≡ [] }
    ensures { OnOk result (code.new ≡ append code.old
        (statement_fragment (scope_in emitter.now.declarations.now) one.now code.old)) }
{
    let line = one.place.line;
    match &one.verb {
        Verb::DataStatement(moving) => emit_moving(emitter, code, line, moving),
        Verb::Arithmetic(arithmetic) => {
            emit_tick(code, line)?;
            let keep = arithmetic.phrases.arose.is_some();
            emit_arithmetic(emitter, code, keep, &arithmetic.operation)?;
            emit_phrases(emitter, code, &arithmetic.phrases)
        }
        Verb::ConditionalStatement(branching) => emit_branching(emitter, code, line, branching),
        Verb::PerformStatement(performing) => emit_performing(emitter, code, line, performing),
        Verb::TextStatement(text) => emit_texts(emitter, code, line, text),
        Verb::StringStatement(stringing) => emit_stringing(emitter, code, line, stringing),
        Verb::FileStatement(filing) => emit_filing(emitter, code, line, filing),
        Verb::ControlStatement(ending) => emit_ending(code, line, *ending),
    }
}

/// IF or EVALUATE, with its `tick` and the statements in it.
#[cycle(statement)]
fn emit_branching(
    emitter: &Emitter<'_>,
    code: &mut Code,
    line: u32,
    one: &ConditionalStatement<Statement>,
) -> Result<(), AllocError>
    requires entries { entry_rules emitter.now.declarations.now.storage.now ≡ [] }
    requires rules { rules.branching_rules (items_in emitter.now.declarations.now)
        (rules.statement_rules (scope_in emitter.now.declarations.now) all_permitted) one.now
        ≡ [] }
    ensures { OnOk result
        (code.new ≡ append code.old (conditional_fragment (scope_in emitter.now.declarations.now)
        (statement_fragment (scope_in emitter.now.declarations.now)) line one.now code.old)) }
{
    emit_tick(code, line)?;
    match one {
        ConditionalStatement::If {
            condition,
            statements,
            otherwise,
        } => {
            emitter.emit_condition(code, condition)?;
            let branch = emit_branch(code)?;
            emit_statements(emitter, code, statements.as_slice())?;
            let other = emit_jump(code)?;
            emit_phrase(emitter, code, otherwise)?;
            emit_meeting(code, branch, other)
        }
        ConditionalStatement::Evaluate(evaluate) => emit_evaluate(emitter, code, evaluate),
    }
}

/// PERFORM, as often as it says.
#[cycle(statement)]
fn emit_performing(
    emitter: &Emitter<'_>,
    code: &mut Code,
    line: u32,
    one: &PerformStatement<Statement>,
) -> Result<(), AllocError>
    requires entries { entry_rules emitter.now.declarations.now.storage.now ≡ [] }
    requires rules { rules.performing_rules (scope_in emitter.now.declarations.now) all_permitted
        (rules.statement_rules (scope_in emitter.now.declarations.now) all_permitted) one.now
        ≡ [] }
    ensures { OnOk result
        (code.new ≡ append code.old (perform_fragment (scope_in emitter.now.declarations.now)
        (statement_fragment (scope_in emitter.now.declarations.now)) line one.now code.old)) }
{
    match &one.turns {
        Repetition::Once => emit_turn(emitter, code, line, &one.performed),
        Repetition::Times(count) => {
            emit_tick(code, line)?;
            emit_times(emitter, code, line, count_of(count), &one.performed)
        }
        Repetition::CountedBy(item) => {
            emit_tick(code, line)?;
            emit_counted(emitter, code, line, item, &one.performed)
        }
        Repetition::Until(until) => {
            emit_tick(code, line)?;
            emit_until(emitter, code, line, until, &one.performed)
        }
    }
}

/// Procedures are performed, from one to the end of another.
fn emit_range(
    emitter: &Emitter<'_>,
    code: &mut Code,
    line: u32,
    first: &Name,
    last: &Option<Name>,
) -> Result<(), AllocError>
    ensures { OnOk result (code.new ≡ append code.old (range_fragment line (range_of
        (scope_in emitter.now.declarations.now).procedures first.now last.now) code.old)) }
{
    let Some(range) = emitter.declarations.procedures.range_of(first, last) else {
        return emit_tick(code, line);
    };
    code.instructions.push(Instruction::Perform {
        line,
        first: ParagraphIndex {
            number: range.first,
        },
        last: ParagraphIndex { number: range.last },
    })
}

fn emit_sentences(
    emitter: &Emitter<'_>,
    code: &mut Code,
    all: &[Sentence],
) -> Result<(), AllocError>
    requires entries { entry_rules emitter.now.declarations.now.storage.now ≡ [] }
    requires rules { each
        (rules.sentence_rules (scope_in emitter.now.declarations.now) all_permitted) all.now ≡ [] }
    ensures { OnOk result (code.new ≡ append code.old
        (in_order (sentence_fragment (scope_in emitter.now.declarations.now)) all.now code.old)) }
{
    for one in all {
        emit_statements(emitter, code, one.statements.as_slice())?;
    }
    Ok(())
}

fn emit_paragraphs(
    emitter: &Emitter<'_>,
    code: &mut Code,
    all: &[Paragraph],
) -> Result<(), AllocError>
    requires entries { entry_rules emitter.now.declarations.now.storage.now ≡ [] }
    requires rules { each (rules.paragraph_rules (scope_in emitter.now.declarations.now)
        all_permitted) all.now ≡ [] }
    ensures { OnOk result (code.new ≡ append code.old
        (in_order (paragraph_fragment (scope_in emitter.now.declarations.now)) all.now code.old)) }
{
    for one in all {
        let number = code.starts.len();
        emit_start(code)?;
        emit_sentences(emitter, code, one.sentences.as_slice())?;
        emit_back(code, number)?;
    }
    Ok(())
}

fn emit_section(emitter: &Emitter<'_>, code: &mut Code, one: &Section) -> Result<(), AllocError>
    requires entries { entry_rules emitter.now.declarations.now.storage.now ≡ [] }
    requires rules { rules.section_rules (scope_in emitter.now.declarations.now) all_permitted
        one.now ≡ [] }
    ensures { OnOk result (code.new ≡ append code.old
        (section_fragment (scope_in emitter.now.declarations.now) one.now code.old)) }
{
    match one.paragraphs.as_slice() {
        [] => emit_nothing(code),
        paragraphs => emit_paragraphs(emitter, code, paragraphs),
    }
}
