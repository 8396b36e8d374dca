//! Rule 69 of statements: a program has at most 50,000. Each counts, also one that stands in another.

ghost use Rattle.std.specs.Prelude.{◌≡◌};
ghost use Rattle.entry_rules.specs.Checks.{IsFirstBreach};
ghost use Rattle.source_tree.specs.StatementCount as spec;
ghost use Rattle.source_tree.specs.StatementCount.{each_place, statement_places};
ghost use Rattle.check_rules.specs.Counting as counting;
ghost use Rattle.check_rules.specs.Counting.{room_after};

use crate::inner_statements::{InnerStatements, inner_statements};
use entry_rules::{BrokenRule, Rule};
use source_tree::{Paragraph, Place, Program, Section, Selected, Sentence, Statement};

/// The most statements of a program (own choice).
const MOST_STATEMENTS: usize = 50_000;

/// There are no more statements than may be.
pub(crate) fn statement_count_rules(program: &Program) -> Result<(), BrokenRule>
    ensures { IsFirstBreach result (spec.statement_count_rules program.now) }
{
    let room = Room {
        left: MOST_STATEMENTS,
        excess: None,
    };
    match after_sections(room, program.sections.as_slice()).excess {
        None => Ok(()),
        Some(place) => Err(BrokenRule {
            rule: Rule::Limit,
            place,
        }),
    }
}

/// How many statements may still come, and where the first stands that may not.
#[derive(Clone, Copy)]
struct Room {
    left: usize,
    excess: Option<Place>,
}

impl Room {
    /// After a statement at that place.
    fn after(self, place: Place) -> Room
        ensures { result ≡ counting.after_one self place }
    {
        if self.excess.is_some() {
            return self;
        }
        if self.left == 0 {
            return Room {
                left: 0,
                excess: Some(place),
            };
        }
        Room {
            left: self.left - 1,
            excess: None,
        }
    }
}

/// After a statement and those in it.
#[cycle(count)]
fn after_statement(room: Room, one: &Statement) -> Room
    ensures { result ≡ room_after room (statement_places one.now) }
{
    let InnerStatements {
        subjects: _,
        selected,
        first,
        second,
    } = inner_statements(&one.verb);
    let room = room.after(one.place);
    let room = after_selected(room, selected);
    let room = after_statements(room, first);
    after_statements(room, second)
}

/// After statements, in order.
#[cycle(count)]
fn after_statements(room: Room, all: &[Statement]) -> Room
    ensures { result ≡ room_after room (each_place statement_places all.now) }
{
    let mut so_far = room;
    for one in all {
        so_far = after_statement(so_far, one);
    }
    so_far
}

/// After those of the WHENs of an EVALUATE.
#[cycle(count)]
fn after_selected(room: Room, all: &[Selected<Statement>]) -> Room
    ensures { result ≡ room_after room (each_place statement_places (spec.in_selected all.now)) }
{
    let mut so_far = room;
    for one in all {
        so_far = after_statements(so_far, one.statements.as_slice());
    }
    so_far
}

/// After those of sentences.
fn after_sentences(room: Room, all: &[Sentence]) -> Room
    ensures { result ≡ room_after room (each_place spec.sentence_places all.now) }
{
    let mut so_far = room;
    for one in all {
        so_far = after_statements(so_far, one.statements.as_slice());
    }
    so_far
}

/// After those of paragraphs.
fn after_paragraphs(room: Room, all: &[Paragraph]) -> Room
    ensures { result ≡ room_after room (each_place spec.paragraph_places all.now) }
{
    let mut so_far = room;
    for one in all {
        so_far = after_sentences(so_far, one.sentences.as_slice());
    }
    so_far
}

/// After those of sections.
fn after_sections(room: Room, all: &[Section]) -> Room
    ensures { result ≡ room_after room (each_place spec.section_places all.now) }
{
    let mut so_far = room;
    for one in all {
        so_far = after_paragraphs(so_far, one.paragraphs.as_slice());
    }
    so_far
}
