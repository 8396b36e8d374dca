//! What instructions make of what is known.

ghost use Rattle.std.specs.Prelude.{◌≡◌, ◌+◌, ◌-◌, ◌*◌, length, IfOk, Some, slice_get};
ghost use Rattle.std.specs.Option.{option_copied};
ghost use Rattle.text_ops.specs.Lengths as lengths;
ghost use Rattle.source_tree.specs.MoveRules as rules;
ghost use Rattle.data_instructions.specs.Shapes as spec;

use crate::calculation::Calculation;
use crate::gather::Gather;
use crate::index::{InspectionIndex, ItemIndex, NumberIndex, TextIndex};
use crate::instruction::DataInstruction;
use crate::part::Part;
use crate::shape::{PlaceShape, Shape, Stacks};
use crate::tables::{DataItem, DataTables, Inspection};
use crate::test::Test;
use edited_move::{Receiving, Sending, is_permitted, is_short};
use items::{Item, Kind, Numeric, OperationalSign, Taken, Usage};
use std::alloc::AllocError;

/// The day as a sender: an unsigned integer of six digits (COBOL-85, Nucleus, "The ACCEPT statement").
pub const DATE: Item = Item {
    kind: Kind::Numeric(Numeric {
        digits: 6,
        scale: 0,
        usage: Usage::Display(OperationalSign::Unsigned),
    }),
    length: 6,
};

/// What is known after an instruction; none: it doesn't find what it needs.
pub fn effect(
    tables: &DataTables,
    one: DataInstruction,
    shape: Shape,
) -> Result<Option<Shape>, AllocError>
    ensures { IfOk result (λ after. after ≡ spec.effect tables.now one shape) }
{
    let Shape {
        stacks,
        line,
        sender,
    } = shape;
    let newest = stacks.places.newest();
    let sender = sender_after(tables, one, newest, sender);
    let line = line_after(tables, one, newest, line)?;
    let stacks = stacks_after(tables, one, stacks)?;
    Ok(shape_with(stacks, line, sender))
}

/// What is known after `accept`, which takes a place.
pub fn accepting(shape: Shape) -> Option<Shape>
    ensures { result ≡ spec.shape_after_accept shape }
{
    let Shape {
        stacks,
        line,
        sender,
    } = shape;
    shape_with(without_place(stacks), Some(line), Some(sender))
}

/// What is known after `date`, which takes a place to which the day may be moved.
pub fn dating(tables: &DataTables, shape: Shape) -> Option<Shape>
    ensures { result ≡ spec.shape_after_date tables.now shape }
{
    let one = item_at(tables, shape.stacks.places.newest())?;
    if may_move(Taken::Item(DATE), one.item) {
        accepting(shape)
    } else {
        None
    }
}

/// What is known after `show`, which shows the line.
pub fn showing(shape: Shape) -> Shape
    ensures { result ≡ spec.shape_after_show shape }
{
    let Shape { stacks, sender, .. } = shape;
    Shape {
        stacks,
        line: 0,
        sender,
    }
}

/// An item of the table.
fn item(tables: &DataTables, item: ItemIndex) -> Option<&DataItem>
    ensures { option_copied result ≡ slice_get tables.now.items item.number }
{
    tables.items.get(item.number as usize)
}

/// The item of the newest place.
fn item_at(tables: &DataTables, newest: Option<PlaceShape>) -> Option<&DataItem>
    ensures { option_copied result ≡ spec.item_at tables.now newest }
{
    item(tables, newest?.item)
}

/// The move is permitted, and from more than 18 characters no number is wanted.
fn may_move(from: Taken, to: Item) -> bool
    ensures { result ≡ rules.may_move from to }
{
    is_permitted(Sending::of(from), Receiving::of(to.kind)) && is_short(to, from)
}

/// The room that DISPLAY needs of an item, in bytes.
fn shown_length(item: Item) -> usize
    ensures { result ≡ lengths.shown_length item.kind item.length }
{
    match item.kind {
        Kind::Numeric(numeric) => numeric.digits as usize + 2,
        _ => item.length as usize,
    }
}

/// So many bytes after a reach, if the item's bytes then lie in its area.
fn further_reach(tables: &DataTables, one: &DataItem, reach: usize, more: usize) -> Option<usize>
    ensures { result ≡ spec.and_then (spec.reaches tables.now (reach + more) one.now)
        (λ area. Some (reach + more)) }
{
    let area = tables.areas.get(one.area as usize)?.len();
    let reach = reach.checked_add(more)?;
    let end = reach.checked_add(one.item.length as usize)?;
    if end <= area { Some(reach) } else { None }
}

/// How far a place with a subscript can reach, if its bytes then lie in its area.
fn last_reach(tables: &DataTables, place: PlaceShape, stride: u32, count: u32) -> Option<usize>
    ensures { result ≡ spec.reach_after tables.now stride count place }
{
    let one = item(tables, place.item)?;
    let last = count.saturating_sub(1) as usize * stride as usize;
    further_reach(tables, one, place.reach, last)
}

/// How far a part with its item's length can reach, if so many bytes lie in its area.
fn part_reach(tables: &DataTables, place: PlaceShape, size: u32) -> Option<usize>
    ensures { result ≡ spec.part_reach_after tables.now size place }
{
    let one = item(tables, place.item)?;
    let more = size.saturating_sub(one.item.length) as usize;
    further_reach(tables, one, place.reach, more)
}

/// So many numbers less.
fn without(count: usize, stacks: Stacks) -> Option<Stacks>
    ensures { result ≡ spec.without_numbers count stacks }
{
    if count <= stacks.numbers {
        let Stacks { numbers, places } = stacks;
        return Some(Stacks {
            numbers: numbers - count,
            places,
        });
    }
    None
}

/// So many numbers more.
fn and_more(count: usize, stacks: Stacks) -> Result<Option<Stacks>, AllocError>
    ensures { IfOk result (λ after. after ≡ spec.and_more count stacks) }
{
    let Stacks { numbers, places } = stacks;
    let Some(numbers) = numbers.checked_add(count) else {
        return Err(AllocError);
    };
    Ok(Some(Stacks { numbers, places }))
}

/// One number more.
fn and_one(stacks: Stacks) -> Result<Option<Stacks>, AllocError>
    ensures { IfOk result (λ after. after ≡ spec.and_one stacks) }
{
    and_more(1, stacks)
}

/// One number more, if the literal is there.
fn and_literal(
    tables: &DataTables,
    index: NumberIndex,
    stacks: Stacks,
) -> Result<Option<Stacks>, AllocError>
    ensures { IfOk result (λ after. after
        ≡ spec.and_then (slice_get tables.now.numbers index.number) (λ x. spec.and_one stacks)) }
{
    match tables.numbers.get(index.number as usize) {
        Some(_) => and_one(stacks),
        None => Ok(None),
    }
}

/// A new place.
fn placing(
    tables: &DataTables,
    index: ItemIndex,
    stacks: Stacks,
) -> Result<Option<Stacks>, AllocError>
    ensures { IfOk result (λ after. after ≡ spec.and_then (slice_get tables.now.items index.number)
        (λ one. spec.stacks_with_place index one stacks)) }
{
    let Some(one) = item(tables, index) else {
        return Ok(None);
    };
    let Stacks {
        numbers,
        mut places,
    } = stacks;
    places.push(PlaceShape {
        item: index,
        reach: one.offset as usize,
    })?;
    Ok(Some(Stacks { numbers, places }))
}

/// The newest place with a subscript.
fn indexing(
    tables: &DataTables,
    stride: u32,
    count: u32,
    stacks: Stacks,
) -> Result<Option<Stacks>, AllocError>
    ensures { IfOk result (λ after. after ≡ spec.with_place
        (spec.stacks_with_subscript tables.now stride count) stacks.places stacks) }
{
    let Stacks {
        numbers,
        mut places,
    } = stacks;
    let Some(place) = places.pop() else {
        return Ok(None);
    };
    let Some(reach) = last_reach(tables, place, stride, count) else {
        return Ok(None);
    };
    places.push(PlaceShape {
        item: place.item,
        reach,
    })?;
    Ok(Some(Stacks { numbers, places }))
}

/// The newest place as one of a part with its item's length.
fn fixing(tables: &DataTables, size: u32, stacks: Stacks) -> Result<Option<Stacks>, AllocError>
    ensures { IfOk result (λ after. after
        ≡ spec.with_place (spec.stacks_with_fixed_part tables.now size) stacks.places stacks) }
{
    let Stacks {
        numbers,
        mut places,
    } = stacks;
    let Some(place) = places.pop() else {
        return Ok(None);
    };
    let Some(reach) = part_reach(tables, place, size) else {
        return Ok(None);
    };
    places.push(PlaceShape {
        item: place.item,
        reach,
    })?;
    Ok(Some(Stacks { numbers, places }))
}

/// An item of any number of characters, and no edited one.
fn has_any_length(kind: Kind) -> bool
    ensures { result ≡ spec.has_any_length kind }
{
    matches!(kind, Kind::Alphabetic { .. } | Kind::Alphanumeric { .. })
}

/// The stacks, where the newest place is one of such an item.
fn with_text_place(tables: &DataTables, stacks: Stacks) -> Option<Stacks>
    ensures { result ≡ spec.with_text_place tables.now stacks }
{
    let one = item_at(tables, stacks.places.newest())?;
    if has_any_length(one.item.kind) {
        Some(stacks)
    } else {
        None
    }
}

/// The stacks after a part was made of the newest place.
fn stacks_parted(
    tables: &DataTables,
    one: Part,
    stacks: Stacks,
) -> Result<Option<Stacks>, AllocError>
    ensures { IfOk result (λ after. after ≡ spec.stacks_parted tables.now one stacks) }
{
    let taken = match one {
        Part::Counted => 2,
        Part::Fixed { .. } | Part::Rest => 1,
    };
    let Some(rest) = without(taken, stacks) else {
        return Ok(None);
    };
    match one {
        Part::Fixed { size } => fixing(tables, size, rest),
        Part::Counted | Part::Rest => Ok(with_text_place(tables, rest)),
    }
}

/// Takes the newest place.
fn without_place(stacks: Stacks) -> Option<Stacks>
    ensures { result ≡ spec.without_place stacks }
{
    let Stacks {
        numbers,
        mut places,
    } = stacks;
    let _ = places.pop()?;
    Some(Stacks { numbers, places })
}

/// The same, where there is something, and a number more.
fn and_one_of(stacks: Option<Stacks>) -> Result<Option<Stacks>, AllocError>
    ensures { IfOk result (λ after. after ≡ spec.and_then stacks spec.and_one) }
{
    match stacks {
        Some(stacks) => and_one(stacks),
        None => Ok(None),
    }
}

/// How many numbers a calculation takes from the stack.
fn taken_by(calculation: Calculation) -> usize
    ensures { result ≡ spec.taken_by calculation }
{
    match calculation {
        Calculation::Add | Calculation::Subtract | Calculation::Multiply | Calculation::Divide => 2,
        Calculation::Duplicate { depth } => depth as usize + 1,
        Calculation::Negate | Calculation::Truncate { .. } | Calculation::Discard => 1,
    }
}

/// How many numbers it puts there.
fn put_by(calculation: Calculation) -> usize
    ensures { result ≡ spec.put_by calculation }
{
    match calculation {
        Calculation::Duplicate { depth } => depth as usize + 2,
        Calculation::Discard => 0,
        _ => 1,
    }
}

/// The numbers after a calculation.
fn calculating(calculation: Calculation, stacks: Stacks) -> Result<Option<Stacks>, AllocError>
    ensures { IfOk result (λ after. after ≡ spec.stacks_after_calculation calculation stacks) }
{
    match without(taken_by(calculation), stacks) {
        Some(rest) => and_more(put_by(calculation), rest),
        None => Ok(None),
    }
}

/// Takes the newest number and the newest place.
fn storing(stacks: Stacks) -> Option<Stacks>
    ensures { result ≡ spec.stacks_after_store stacks }
{
    without_place(without(1, stacks)?)
}

/// The stacks after a test.
fn stacks_tested(one: Test, stacks: Stacks) -> Option<Stacks>
    ensures { result ≡ spec.stacks_tested one stacks }
{
    match one {
        Test::Compare { .. } | Test::Class { .. } => without_place(stacks),
        Test::CompareNumbers { .. } => without(2, stacks),
        Test::CompareLiteral { .. } | Test::OrEqual { .. } | Test::OrWithin { .. } | Test::Invert =>
            Some(stacks),
    }
}

/// What is known, where a text of the table is there.
fn with_text(tables: &DataTables, number: usize, rest: Option<Stacks>) -> Option<Stacks>
    ensures { result ≡ spec.with_text tables.now number rest }
{
    if number < tables.texts.len() {
        rest
    } else {
        None
    }
}

/// The stacks, where there is a newest place, which stays.
fn beside_place(stacks: Stacks) -> Option<Stacks>
    ensures { result ≡ spec.beside_place stacks }
{
    if stacks.places.is_empty() {
        None
    } else {
        Some(stacks)
    }
}

/// Takes the newest place, and the one below it stays.
fn beside_next(stacks: Stacks) -> Option<Stacks>
    ensures { result ≡ spec.and_then (spec.without_place stacks) spec.beside_place }
{
    beside_place(without_place(stacks)?)
}

/// The stacks after a text was measured.
fn measuring(stacks: Stacks) -> Result<Option<Stacks>, AllocError>
    ensures { IfOk result (λ after. after
        ≡ spec.and_then (spec.without_place stacks) (spec.and_more 2)) }
{
    match without_place(stacks) {
        Some(rest) => and_more(2, rest),
        None => Ok(None),
    }
}

/// The stacks after a part was gathered.
fn stacks_gathered(
    tables: &DataTables,
    one: Gather,
    stacks: Stacks,
) -> Result<Option<Stacks>, AllocError>
    ensures { IfOk result (λ after. after ≡ spec.stacks_gathered tables.now one stacks) }
{
    match one {
        Gather::Bytes | Gather::Sized => Ok(without_place(stacks)),
        Gather::UpToPlace => Ok(beside_next(stacks)),
        Gather::UpToText { delimiter } => {
            let rest = without_place(stacks);
            Ok(with_text(tables, delimiter.number as usize, rest))
        }
        Gather::TextUpToPlace { text } => {
            Ok(with_text(tables, text.number as usize, beside_place(stacks)))
        }
        Gather::Measured => measuring(stacks),
    }
}

/// The stacks without the places of STRING's pointer, if there is one, and receiver.
fn without_receiver(pointer: bool, stacks: Stacks) -> Option<Stacks>
    ensures { result ≡ spec.without_receiver pointer stacks }
{
    if pointer {
        without_place(without_place(stacks)?)
    } else {
        without_place(stacks)
    }
}

/// An inspection of the table.
fn inspection(tables: &DataTables, index: InspectionIndex) -> Option<&Inspection>
    ensures { option_copied result ≡ slice_get tables.now.inspections index.number }
{
    tables.inspections.get(index.number as usize)
}

/// The stacks without so many places.
fn without_places(count: usize, stacks: Stacks) -> Option<Stacks>
    ensures { result ≡ spec.without_places count stacks }
{
    let mut rest = stacks;
    let mut left = count;
    while left > 0 {
        rest = without_place(rest)?;
        left -= 1;
    }
    Some(rest)
}

/// The stacks without the places of an inspection's counters and subject.
fn stacks_inspected(tables: &DataTables, index: InspectionIndex, stacks: Stacks) -> Option<Stacks>
    ensures { result ≡ spec.stacks_inspected tables.now index stacks }
{
    let one = inspection(tables, index)?;
    without_place(without_places(one.counters.len(), stacks)?)
}

/// The stacks without the place of an inspection's subject.
fn stacks_converted(tables: &DataTables, index: InspectionIndex, stacks: Stacks) -> Option<Stacks>
    ensures { result ≡ spec.stacks_converted tables.now index stacks }
{
    let _ = inspection(tables, index)?;
    without_place(stacks)
}

/// The same after so many numbers were taken.
fn stacks_inspected_measured(
    tables: &DataTables,
    index: InspectionIndex,
    numbers: u32,
    stacks: Stacks,
) -> Option<Stacks>
    ensures { result ≡ spec.and_then (spec.without_numbers numbers stacks)
        (spec.stacks_inspected tables.now index) }
{
    stacks_inspected(tables, index, without(numbers as usize, stacks)?)
}

/// The same of a conversion.
fn stacks_converted_measured(
    tables: &DataTables,
    index: InspectionIndex,
    numbers: u32,
    stacks: Stacks,
) -> Option<Stacks>
    ensures { result ≡ spec.and_then (spec.without_numbers numbers stacks)
        (spec.stacks_converted tables.now index) }
{
    stacks_converted(tables, index, without(numbers as usize, stacks)?)
}

/// The stacks after bytes were laid over others, where both texts are there.
fn stacks_overlaid(tables: &DataTables, text: TextIndex, stacks: Stacks) -> Option<Stacks>
    ensures { result ≡ spec.with_text tables.now text.number
        (spec.with_text tables.now (text.number + 1) (spec.without_place stacks)) }
{
    let text = text.number as usize;
    let rest = without_place(stacks);
    with_text(tables, text, with_text(tables, text + 1, rest))
}

/// The stacks after an instruction.
fn stacks_after(
    tables: &DataTables,
    one: DataInstruction,
    stacks: Stacks,
) -> Result<Option<Stacks>, AllocError>
    ensures { IfOk result (λ after. after ≡ spec.stacks_after tables.now one stacks) }
{
    match one {
        DataInstruction::Place { item } => placing(tables, item, stacks),
        DataInstruction::Index { stride, count } => match without(1, stacks) {
            Some(rest) => indexing(tables, stride, count, rest),
            None => Ok(None),
        },
        DataInstruction::Push => and_one_of(without_place(stacks)),
        DataInstruction::Literal { number } => and_literal(tables, number, stacks),
        DataInstruction::Calculate(calculation) => calculating(calculation, stacks),
        DataInstruction::Store { .. } => Ok(storing(stacks)),
        DataInstruction::Test(test) => Ok(stacks_tested(test, stacks)),
        DataInstruction::VoidIfTrue => and_one_of(without(1, stacks)),
        DataInstruction::Take
        | DataInstruction::Move
        | DataInstruction::Append
        | DataInstruction::DropPlace => Ok(without_place(stacks)),
        DataInstruction::Overlay { text } => { Ok(stacks_overlaid(tables, text, stacks)) }
        DataInstruction::Gather(one) => stacks_gathered(tables, one, stacks),
        DataInstruction::Part(one) => stacks_parted(tables, one, stacks),
        DataInstruction::String { pointer } => Ok(without_receiver(pointer, stacks)),
        DataInstruction::Inspect { inspection } => {
            Ok(stacks_inspected(tables, inspection, stacks))
        }
        DataInstruction::Convert { inspection } => {
            Ok(stacks_converted(tables, inspection, stacks))
        }
        DataInstruction::InspectMeasured {
            inspection,
            numbers,
        } => Ok(stacks_inspected_measured(tables, inspection, numbers, stacks)),
        DataInstruction::ConvertMeasured {
            inspection,
            numbers,
        } => Ok(stacks_converted_measured(tables, inspection, numbers, stacks)),
        DataInstruction::ClearTruth
        | DataInstruction::TakeLiteral { .. }
        | DataInstruction::AppendLiteral { .. } => Ok(Some(stacks)),
    }
}

/// A line with so many bytes more.
fn longer(line: usize, more: usize) -> Result<Option<usize>, AllocError>
    ensures { IfOk result (λ after. after ≡ Some (line + more)) }
{
    match line.checked_add(more) {
        Some(line) => Ok(Some(line)),
        None => Err(AllocError),
    }
}

/// A line with the bytes of the newest place more.
fn longer_by_item(
    tables: &DataTables,
    newest: Option<PlaceShape>,
    line: usize,
) -> Result<Option<usize>, AllocError>
    ensures { IfOk result (λ after. after ≡ spec.longer_by_item tables.now newest line) }
{
    match item_at(tables, newest) {
        Some(one) => longer(line, one.item.length as usize),
        None => Ok(None),
    }
}

/// A line with a text more.
fn longer_by_text(
    tables: &DataTables,
    text: usize,
    line: usize,
) -> Result<Option<usize>, AllocError>
    ensures { IfOk result (λ after. after
        ≡ spec.and_then (slice_get tables.now.texts text) (λ bytes. Some (line + length bytes))) }
{
    match tables.texts.get(text) {
        Some(bytes) => longer(line, bytes.len()),
        None => Ok(None),
    }
}

/// No line, after one that can have the texts of an inspection.
fn line_inspected(tables: &DataTables, index: InspectionIndex, line: usize) -> Option<usize>
    ensures { result ≡ spec.line_inspected tables.now index line }
{
    let one = inspection(tables, index)?;
    if one.size as usize <= line {
        Some(0)
    } else {
        None
    }
}

/// The bytes that the line has at the most after an instruction.
fn line_after(
    tables: &DataTables,
    one: DataInstruction,
    newest: Option<PlaceShape>,
    line: usize,
) -> Result<Option<usize>, AllocError>
    ensures { IfOk result (λ after. after ≡ spec.line_after tables.now one newest line) }
{
    match one {
        DataInstruction::Append => match item_at(tables, newest) {
            Some(one) => longer(line, shown_length(one.item)),
            None => Ok(None),
        },
        DataInstruction::AppendLiteral { text }
        | DataInstruction::Gather(Gather::TextUpToPlace { text }) => {
            longer_by_text(tables, text.number as usize, line)
        }
        DataInstruction::Gather(
            Gather::Bytes
            | Gather::UpToPlace
            | Gather::UpToText { .. }
            | Gather::Sized
            | Gather::Measured,
        ) => longer_by_item(tables, newest, line),
        DataInstruction::String { .. } => Ok(Some(0)),
        DataInstruction::Inspect { inspection }
        | DataInstruction::Convert { inspection }
        | DataInstruction::InspectMeasured { inspection, .. }
        | DataInstruction::ConvertMeasured { inspection, .. } => {
            Ok(line_inspected(tables, inspection, line))
        }
        _ => Ok(Some(line)),
    }
}

/// What is taken after a move.
fn sender_after_move(
    tables: &DataTables,
    newest: Option<PlaceShape>,
    sender: Option<Taken>,
) -> Option<Option<Taken>>
    ensures { result ≡ spec.and_then sender
        (λ sent. spec.and_then (spec.item_at tables.now newest) (spec.moving_to sent)) }
{
    let sent = sender?;
    let one = item_at(tables, newest)?;
    if may_move(sent, one.item) {
        Some(Some(sent))
    } else {
        None
    }
}

/// The sender, which has to be there.
fn held(sender: Option<Taken>) -> Option<Option<Taken>>
    ensures { result ≡ spec.and_then sender spec.some_sender }
{
    Some(Some(sender?))
}

/// What is known of the sender, where an entry of the table of senders is there.
fn with_entry(
    tables: &DataTables,
    number: usize,
    rest: Option<Option<Taken>>,
) -> Option<Option<Taken>>
    ensures { result ≡ spec.with_sender_entry tables.now number rest }
{
    if number < tables.senders.len() {
        rest
    } else {
        None
    }
}

/// What is taken after a test.
fn sender_tested(tables: &DataTables, one: Test, sender: Option<Taken>) -> Option<Option<Taken>>
    ensures { result ≡ spec.sender_tested tables.now one sender }
{
    match one {
        Test::Compare { .. } => held(sender),
        Test::CompareLiteral { literal, .. } | Test::OrEqual { literal } => {
            with_entry(tables, literal.number as usize, held(sender))
        }
        Test::OrWithin { first } => {
            let first = first.number as usize;
            with_entry(tables, first, with_entry(tables, first + 1, held(sender)))
        }
        Test::CompareNumbers { .. } | Test::Class { .. } | Test::Invert => Some(sender),
    }
}

/// What is taken after an instruction.
fn sender_after(
    tables: &DataTables,
    one: DataInstruction,
    newest: Option<PlaceShape>,
    sender: Option<Taken>,
) -> Option<Option<Taken>>
    ensures { result ≡ spec.sender_after tables.now one newest sender }
{
    match one {
        DataInstruction::Take => Some(Some(Taken::Item(item_at(tables, newest)?.item))),
        DataInstruction::TakeLiteral { literal } => {
            Some(Some(tables.senders.get(literal.number as usize)?.taken))
        }
        DataInstruction::Move => sender_after_move(tables, newest, sender),
        DataInstruction::Test(test) => sender_tested(tables, test, sender),
        _ => Some(sender),
    }
}

fn shape_with(
    stacks: Option<Stacks>,
    line: Option<usize>,
    sender: Option<Option<Taken>>,
) -> Option<Shape>
    ensures { result ≡ spec.shape_with stacks line sender }
{
    let stacks = stacks?;
    let line = line?;
    let sender = sender?;
    Some(Shape {
        stacks,
        line,
        sender,
    })
}
