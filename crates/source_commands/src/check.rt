//! The command `check`.

ghost use Rattle.std.specs.Prelude.{◌≡◌, None, Some, IfOk, IfSome};
ghost use Rattle.source_tree.specs.declared.program.Program.{Program};
ghost use Rattle.compiler.specs.Faults.{stage_fault};
ghost use Rattle.compiler.specs.Trees.{IsTreeOf};
ghost use Rattle.compiler.specs.Stages.{IsFaultOf};
ghost use Rattle.source_commands.specs.Check as spec;
ghost use Rattle.source_commands.specs.Check.{IsReportOf, IsReportText};

use crate::report::{Source, push_report};
use compiler::{CompileError, CompileFault, compile};
use source_advice::{Warning, advise, warnings};
use std::alloc::{AllocError, Global};

/// What `check` says of a source text.
#[derive(Drop)]
pub struct CheckReport {
    /// The fault for which it is refused.
    pub fault: Option<CompileFault>,
    /// What is shown: the report of the fault, or of each warning.
    pub text: Vec<u8>,
}

/// Checks a source text, which is reported under this name. What is wrong in words, and what to do, is left open.
pub fn check_source(alloc: Global, name: &[u8], source: &[u8]) -> Result<CheckReport, AllocError>
    // A source text is accepted only if it has a tree.
    ensures accepted { IfOk result (λ report. report.fault ≡ None
        → (tree : Program) × IsTreeOf source.now tree) }
    // A source text with a tree is accepted, unless memory runs out.
    ensures only { (tree : Program) → IsTreeOf source.now tree
        → IfOk result (λ report. report.fault ≡ None) }
    // Else the fault is the one for which `compile` refuses it.
    ensures fault { IfOk result (λ report. IfSome report.fault
        (λ fault. IsFaultOf source.now (Some (stage_fault fault)))) }
    // The report has the fault's place and number, and its line with a caret below the column.
    ensures text { IfOk result (IsReportOf name.now source.now) }
{
    match compile(alloc, source) {
        Ok(_) => accepted(alloc, Source { name, text: source }),
        Err(CompileError::Refused(fault)) => refused(alloc, Source { name, text: source }, fault),
        Err(CompileError::Memory) => Err(AllocError),
    }
}

/// The report of a source text that is accepted.
fn accepted(alloc: Global, source: Source<'_>) -> Result<CheckReport, AllocError>
    ensures fault { IfOk result (λ report. report.fault ≡ None) }
    ensures text { IfOk result (λ report. IsReportText source.entry.name.now
        source.entry.text.now None report.text.items) }
{
    let found = warnings(alloc, source.text)?;
    Ok(CheckReport {
        fault: None,
        text: warning_text(alloc, source, &found)?,
    })
}

/// The reports of warnings, one after the other.
fn warning_text(alloc: Global, source: Source<'_>, found: &[Warning]) -> Result<Vec<u8>, AllocError>
    ensures { IfOk result (λ text. text.items
        ≡ spec.warning_texts source.entry.name.now source.entry.text.now found.now) }
{
    let mut text = Vec::new(alloc);
    for one in found {
        push_report(alloc, &mut text, source, one.place, &one.advice, None)?;
    }
    Ok(text)
}

/// The report of a source text that is refused for this fault.
fn refused(
    alloc: Global,
    source: Source<'_>,
    fault: CompileFault,
) -> Result<CheckReport, AllocError>
    ensures fault { IfOk result (λ report. report.fault ≡ Some fault) }
    ensures text { IfOk result (λ report. IsReportText source.entry.name.now
        source.entry.text.now (Some fault) report.text.items) }
{
    let advice = advise(alloc, source.text, fault.number(), fault.place())?;
    let mut text = Vec::new(alloc);
    push_report(
        alloc,
        &mut text,
        source,
        fault.place(),
        &advice,
        Some(fault.number()),
    )?;
    Ok(CheckReport {
        fault: Some(fault),
        text,
    })
}
