//! Code that a machine can run.

ghost use Rattle.std.specs.Prelude.{◌≡◌, ◌-◌, ◌<◌, ◌↔◌, IsTrue, All, length, slice_get, Some, IfOk, IfErr, OnOk};
ghost use Rattle.code_image.specs.declared.instruction.Instruction.TheVariants.{Stop};
ghost use Rattle.code_image.specs.Demands.{IsVerified, IsWithinTables, HasFiles, HasShape, Blames, NamesData, NamesCounter, NamesParagraph, NamesFile, SuitsFile, IsAddress, UsesBudget, IsJoin, LeadsOn, JumpsBack, HasValidTargets, AllLead};
ghost use Rattle.code_image.specs.Paragraphs.{ListsParagraphs};
ghost use Rattle.file_image.specs.Files.{entries_of, NamesPlaces, IsCodeFile};
ghost use Rattle.data_image.specs.Faults.{fault_of};

use crate::code::Code;
use crate::instruction::Instruction;
use crate::known::find_operands;
use crate::paragraph::{all_start, has_order, paragraphs_of};
use answers::beside;
use data_image::{ImageError, ImageFault};
use data_instructions::DataTables;
use file_image::{CodeFile, is_code_file, names_places, suits};
use std::alloc::{AllocError, Global};
use std::marker::Model;

/// Code that meets the demands of a machine.
#[derive(Drop)]
pub struct Verified {
    code: Code,
}

impl Model for Verified {
    ghost use Rattle.code_image.specs.declared.code.Code.{Code};
    ghost use Rattle.code_image.specs.Demands.{IsVerified};

    ghost Value = { Code };

    ghost view = { λ verified. verified.code };

    ghost invariant = { λ verified. IsVerified verified.code };
}

impl Verified {
    pub fn code(&self) -> &Code
        ensures same { result.now ≡ self.now }
        ensures verified { IsVerified self.now }
    {
        &self.code
    }
}

fn name_data(instructions: &[Instruction], tables: &DataTables) -> bool
    ensures { IsTrue result ↔ All (NamesData tables.now) instructions.now }
{
    for instruction in instructions {
        if !instruction.names_data(tables) {
            return false;
        }
    }
    true
}

fn name_counters(instructions: &[Instruction], count: usize) -> bool
    ensures { IsTrue result ↔ All (NamesCounter count) instructions.now }
{
    for instruction in instructions {
        if !instruction.names_counter(count) {
            return false;
        }
    }
    true
}

fn name_paragraphs(instructions: &[Instruction], count: usize) -> bool
    ensures { IsTrue result ↔ All (NamesParagraph count) instructions.now }
{
    for instruction in instructions {
        if !instruction.names_paragraph(count) {
            return false;
        }
    }
    true
}

fn are_addresses(starts: &[usize], count: usize) -> bool
    ensures { IsTrue result ↔ All (IsAddress count) starts.now }
{
    for start in starts {
        if *start >= count {
            return false;
        }
    }
    true
}

fn name_files(instructions: &[Instruction], count: usize) -> bool
    ensures { IsTrue result ↔ All (NamesFile count) instructions.now }
{
    for instruction in instructions {
        if !instruction.names_file(count) {
            return false;
        }
    }
    true
}

fn name_places(files: &[CodeFile], tables: &DataTables) -> bool
    ensures { IsTrue result ↔ All (NamesPlaces tables.now) files.now }
{
    for file in files {
        if !names_places(tables, file) {
            return false;
        }
    }
    true
}

#[tactic(auto, using(crate::proofs::InstructionKinds::other_budget))]
fn uses_budget(instructions: &[Instruction], address: usize) -> bool
    ensures { IsTrue result ↔ UsesBudget (slice_get instructions.now address) }
{
    matches!(
        instructions.get(address),
        Some(Instruction::Tick { .. } | Instruction::Perform { .. })
    )
}

fn is_join(instructions: &[Instruction], address: usize) -> bool
    ensures { IsTrue result ↔ IsJoin (slice_get instructions.now address) }
{
    matches!(instructions.get(address), Some(Instruction::Join))
}

/// A way on leads to the address after a `join` that comes later, in the same code paragraph.
#[tactic(auto, using(crate::proofs::InstructionKinds::join_within))]
fn leads_on(instructions: &[Instruction], paragraphs: &[usize], address: usize, to: usize) -> bool
    requires listed { ListsParagraphs instructions.now paragraphs.now }
    requires within { address < length instructions.now }
    ensures { IsTrue result ↔ LeadsOn instructions.now address to }
{
    address < to && is_join(instructions, to - 1) && paragraphs[to] == paragraphs[address]
}

/// A way back leads to what uses one of the budget, before it in the same code paragraph.
fn leads_back(instructions: &[Instruction], paragraphs: &[usize], address: usize, to: usize) -> bool
    requires listed { ListsParagraphs instructions.now paragraphs.now }
    requires within { address < length instructions.now }
    ensures { IsTrue result ↔ JumpsBack instructions.now address to }
{
    to < address && uses_budget(instructions, to) && paragraphs[to] == paragraphs[address]
}

/// What stands at an address leads where it may, and a `back` has the number of the code paragraph that it ends.
fn leads(instructions: &[Instruction], paragraphs: &[usize], address: usize) -> bool
    requires listed { ListsParagraphs instructions.now paragraphs.now }
    requires within { address < length instructions.now }
    ensures { IsTrue result
        ↔ HasValidTargets instructions.now address (slice_get instructions.now address) }
{
    match instructions.get(address) {
        Some(Instruction::Turn { to, .. }) => leads_back(instructions, paragraphs, address, *to),
        Some(Instruction::Branch { to } | Instruction::Jump { to }) => {
            leads_on(instructions, paragraphs, address, *to)
                || leads_back(instructions, paragraphs, address, *to)
        }
        Some(Instruction::Back { paragraph }) => paragraph.number == paragraphs[address],
        _ => true,
    }
}

fn all_lead(instructions: &[Instruction], paragraphs: &[usize]) -> bool
    requires { ListsParagraphs instructions.now paragraphs.now }
    ensures { IsTrue result ↔ AllLead instructions.now }
{
    for address in 0..instructions.len() {
        if !leads(instructions, paragraphs, address) {
            return false;
        }
    }
    true
}

fn stops_last(instructions: &[Instruction]) -> bool
    ensures { IsTrue result
        ↔ (slice_get instructions.now (length instructions.now - 1) ≡ Some Stop) }
{
    matches!(instructions.last(), Some(Instruction::Stop))
}

fn are_code_files(
    alloc: Global,
    tables: &DataTables,
    files: &[CodeFile],
) -> Result<bool, AllocError>
    ensures { IfOk result (λ sound. IsTrue sound ↔ All (IsCodeFile tables.now) files.now) }
{
    for file in files {
        if !is_code_file(alloc, tables, file)? {
            return Ok(false);
        }
    }
    Ok(true)
}

/// The verb of a file statement suits its file, which is there.
fn suits_file(code: &Code, instruction: Instruction) -> bool
    requires { NamesFile (length code.now.files) instruction }
    ensures { IsTrue result ↔ SuitsFile (entries_of code.now.tables code.now.files) instruction }
{
    match instruction {
        Instruction::File { file, verb } => {
            suits(&code.files.as_slice()[file.number as usize], verb)
        }
        _ => true,
    }
}

fn suit_files(code: &Code, instructions: &[Instruction]) -> bool
    requires { All (NamesFile (length code.now.files)) instructions.now }
    ensures { IsTrue result
        ↔ All (SuitsFile (entries_of code.now.tables code.now.files)) instructions.now }
{
    for instruction in instructions {
        if !suits_file(code, *instruction) {
            return false;
        }
    }
    true
}

/// Each file is in order, and statements on files suit them.
fn has_files(alloc: Global, code: &Code) -> Result<bool, AllocError>
    requires { All (NamesFile (length code.now.files)) code.now.instructions }
    ensures { IfOk result (λ has. IsTrue has ↔ HasFiles code.now) }
{
    if !are_code_files(alloc, &code.tables, code.files.as_slice())? {
        return Ok(false);
    }
    Ok(suit_files(code, code.instructions.as_slice()))
}

/// Each entry that instructions name, each counter, each code paragraph and each start of one is in its table, and so is each file, its
/// area and its items.
fn is_within(code: &Code) -> bool
    ensures { IsTrue result ↔ IsWithinTables code.now }
{
    let instructions = code.instructions.as_slice();
    name_data(instructions, &code.tables)
        && name_counters(instructions, instructions.len())
        && name_paragraphs(instructions, code.starts.as_slice().len())
        && are_addresses(code.starts.as_slice(), instructions.len())
        && name_files(instructions, code.files.as_slice().len())
        && name_places(code.files.as_slice(), &code.tables)
}

/// Each way leads where it may, each code paragraph starts where its start says, none performs itself, `stop` comes last, each
/// instruction finds what it needs, and files are in order.
fn has_shape(alloc: Global, code: &Code) -> Result<bool, AllocError>
    requires { IsWithinTables code.now }
    ensures { IfOk result (λ has. IsTrue has ↔ HasShape code.now) }
{
    let instructions = code.instructions.as_slice();
    let paragraphs = paragraphs_of(alloc, instructions)?;
    if !all_lead(instructions, &paragraphs)
        || !all_start(code, &paragraphs)
        || !stops_last(instructions)
    {
        return Ok(false);
    }
    if !has_order(alloc, code, &paragraphs)? {
        return Ok(false);
    }
    if !find_operands(alloc, code)? {
        return Ok(false);
    }
    has_files(alloc, code)
}

/// Whether code meets the demands: 72 for its tables, then 73 for what it names, then 74 for its shape.
fn meets_demands(alloc: Global, code: &Code) -> Result<(), ImageError>
    ensures verified { OnOk result (IsVerified code.now) }
    ensures refused { IfErr result (λ e. Blames code.now (fault_of e)) }
{
    if !code.tables.are_in_order() {
        return Err(ImageError::Refused(ImageFault::Value));
    }
    if !is_within(code) {
        return Err(ImageError::Refused(ImageFault::Index));
    }
    if !has_shape(alloc, code)? {
        return Err(ImageError::Refused(ImageFault::Shape));
    }
    Ok(())
}

/// Tests that a machine can run the code: its tables are in order, else 72; each entry that it names, each counter, each code
/// paragraph, each start of one and each file is an index in its table, and so are a file's area and its items, else 73; each way
/// leads on after a `join` that comes later or back to a `tick` or `perform` before it, in its code paragraph; each code
/// paragraph ends with the `back` of its number and starts where its start says; none performs itself, by way of others neither;
/// `stop` comes last, each instruction finds what it needs on the stacks, and each file is in order and has the key that a statement
/// on it names, else 74.
pub fn verify(alloc: Global, code: Code) -> Result<Verified, ImageError>
    ensures value { IfOk result (λ verified. verified ≡ code) }
    ensures verified { IfOk result (λ _. IsVerified code) }
    ensures refused { IfErr result (λ e. Blames code (fault_of e)) }
{
    let met = meets_demands(alloc, &code);
    let (code, ()) = beside(code, met)?;
    Ok(Verified { code })
}
