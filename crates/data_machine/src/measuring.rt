//! Entries of INSPECT whose texts were measured: spans become as short as their texts.

ghost use Rattle.std.specs.Prelude.{◌≡◌, ◌≤◌, length, map, reverse};
ghost use Rattle.std.specs.Option.{option_map};
ghost use Rattle.source_tree.specs.MeasuredTexts as lengths;
ghost use Rattle.data_instructions.specs.Table.{natural_in, measured_by};
ghost use Rattle.data_machine.specs.Measured.{length_among, HasMeasured};

use decimal18::Dec;
use text_ops::{Entry, Fit, Span};

/// Writes entries with the lengths that the numbers have to the front of the room; nothing, if there are no numbers.
pub fn measure(numbers: &[Option<Dec>], entries: &[Entry], room: &mut [Entry])
    requires { length entries.now ≤ length room.old }
    ensures value { HasMeasured numbers.now entries.now room.new }
    ensures room { length room.new ≡ length room.old }
{
    if numbers.is_empty() {
        return;
    }
    for number in 0..entries.len() {
        room[number] = measured_entry(numbers, entries[number]);
    }
}

/// Entries with the lengths that the numbers have, which were written to the front of the room; these entries as they are, if there
/// are no numbers.
pub fn measured<'a>(numbers: &[Option<Dec>], entries: &'a [Entry], room: &'a [Entry]) -> &'a [Entry]
    requires value { HasMeasured numbers.now entries.now room.now }
    requires room { length entries.now ≤ length room.now }
    ensures { result.now ≡ map (measured_by (reverse numbers.now)) entries.now }
{
    if numbers.is_empty() {
        return entries;
    }
    &room[..entries.len()]
}

fn measured_entry(numbers: &[Option<Dec>], one: Entry) -> Entry
    ensures { result ≡ measured_by (reverse numbers.now) one }
{
    Entry {
        fit: measured_fit(numbers, one.fit),
        before: measured_limit(numbers, one.before),
        after: measured_limit(numbers, one.after),
        by: measured_replacing(numbers, one.fit.text(), one.by),
    }
}

fn measured_fit(numbers: &[Option<Dec>], one: Fit) -> Fit
    ensures { result ≡ lengths.measured_fit (length_among (reverse numbers.now)) one }
{
    match one {
        Fit::Characters => Fit::Characters,
        Fit::All(text) => Fit::All(measured_span(numbers, text)),
        Fit::Leading(text) => Fit::Leading(measured_span(numbers, text)),
        Fit::First(text) => Fit::First(measured_span(numbers, text)),
    }
}

fn measured_limit(numbers: &[Option<Dec>], one: Option<Span>) -> Option<Span>
    ensures { result
        ≡ option_map (lengths.measured_span (length_among (reverse numbers.now))) one }
{
    Some(measured_span(numbers, one?))
}

/// What replaces a text is as short as that.
fn measured_replacing(
    numbers: &[Option<Dec>],
    text: Option<Span>,
    one: Option<Span>,
) -> Option<Span>
    ensures { result
        ≡ option_map (lengths.replacing_span (length_among (reverse numbers.now)) text) one }
{
    let span = one?;
    match text {
        None => Some(span),
        Some(text) => Some(shortened_by(length_at(numbers, text.start), span)),
    }
}

fn measured_span(numbers: &[Option<Dec>], one: Span) -> Span
    ensures { result ≡ lengths.measured_span (length_among (reverse numbers.now)) one }
{
    shortened_by(length_at(numbers, one.start), one)
}

fn shortened_by(length: Option<u128>, one: Span) -> Span
    ensures { result ≡ lengths.shortened_by length one }
{
    match length {
        None => one,
        Some(length) => Span {
            start: one.start,
            length: length_within(one.length, length),
        },
    }
}

/// A length from 1 to the room, or the room.
fn length_within(room: u32, length: u128) -> u32
    ensures { result ≡ lengths.length_within room length }
{
    if 1 <= length && length <= u128::from(room) {
        length as u32
    } else {
        room
    }
}

/// The length of the text that begins there, if the numbers have it: each length is next to where its text begins.
fn length_at(numbers: &[Option<Dec>], at: u32) -> Option<u128>
    ensures { result ≡ length_among (reverse numbers.now) at }
{
    let mut left = numbers.len();
    while left >= 2 {
        if natural_in(numbers[left - 2]) == u128::from(at) {
            return Some(natural_in(numbers[left - 1]));
        }
        left -= 2;
    }
    None
}

/// The number, if it is an integer from 0 on, or 0.
pub(crate) fn natural_in(number: Option<Dec>) -> u128
    ensures { result ≡ natural_in number }
{
    let Some(number) = number else {
        return 0;
    };
    match number.to_integer() {
        Some(integer) if integer > 0 => integer as u128,
        _ => 0,
    }
}
