//! What is taken of a literal.

ghost use Rattle.std.specs.Prelude.{◌≡◌, ◌≤◌, true, length, IfOk};
ghost use Rattle.items.specs.Items.{IsTaken, most_length};
ghost use Rattle.source_tree.specs.Literals as spec;
ghost use Rattle.source_tree.specs.ValueRules.{has_form};
ghost use Rattle.source_tree.specs.declared.literal.LiteralValue.TheVariants as literals;

use crate::literal_number::{number, numeric};
use items::{Figurative, Item, Kind, Taken, store};
use lexical::NumericLiteral;
use source_tree::{Figurative as WrittenFigurative, LiteralValue};
use sqlite_items::Items;
use std::alloc::{AllocError, Global};

/// What a statement or a VALUE clause has taken of a literal, with its bytes: a nonnumeric literal as an alphanumeric item, a
/// numeric one as a DISPLAY item of the digits with which it is written.
#[derive(Drop)]
pub struct Sender {
    pub taken: Taken,
    /// None of a figurative constant.
    pub bytes: Items<u8>,
}

fn constant(written: WrittenFigurative) -> Figurative
    ensures { result ≡ spec.constant_of written }
{
    match written {
        WrittenFigurative::Zero => Figurative::Zero,
        WrittenFigurative::Space => Figurative::Space,
        WrittenFigurative::HighValue => Figurative::HighValue,
        WrittenFigurative::LowValue => Figurative::LowValue,
        WrittenFigurative::Quote => Figurative::Quote,
    }
}

fn of_number(alloc: Global, literal: &NumericLiteral) -> Result<Sender, AllocError>
    requires { has_form (literals.Numeric literal.now) ≡ true }
    ensures taken { IfOk result (λ sender. sender.taken ≡ (spec.number_sender literal.now).taken) }
    ensures bytes { IfOk result (λ sender. sender.bytes ≡ (spec.number_sender literal.now).bytes) }
    ensures form { IfOk result (λ sender. IsTaken sender.taken sender.bytes) }
{
    let numeric = numeric(literal);
    let mut bytes = vec![in alloc; b'0'; numeric.length()]?;
    store(numeric, number(literal), &mut bytes);
    let taken = Taken::Item(Item {
        kind: Kind::Numeric(numeric),
        length: numeric.length() as u32,
    });
    Ok(Sender {
        taken,
        bytes: Items::from_vec(bytes),
    })
}

fn of_text(alloc: Global, text: &[u8]) -> Result<Sender, AllocError>
    requires some { 1 ≤ length text.now }
    requires most { length text.now ≤ most_length }
    ensures taken { IfOk result (λ sender. sender.taken ≡ (spec.text_sender text.now).taken) }
    ensures bytes { IfOk result (λ sender. sender.bytes ≡ text.now) }
    ensures form { IfOk result (λ sender. IsTaken sender.taken sender.bytes) }
{
    let taken = Taken::Item(Item {
        kind: Kind::Alphanumeric { justified: false },
        length: text.len() as u32,
    });
    let bytes = Items::from_slice(alloc, text)?;
    Ok(Sender { taken, bytes })
}

impl Sender {
    /// What is taken of a literal of the form that literals have (COBOL-85, Nucleus, "Literals", "Figurative constants"): 1 to
    /// 18 digits, 1 to 160 characters.
    pub fn of(alloc: Global, literal: &LiteralValue) -> Result<Sender, AllocError>
        requires { has_form literal.now ≡ true }
        ensures taken { IfOk result
            (λ sender. sender.taken ≡ (spec.literal_sender literal.now).taken) }
        ensures bytes { IfOk result
            (λ sender. sender.bytes ≡ (spec.literal_sender literal.now).bytes) }
        // It may be moved and edited.
        ensures form { IfOk result (λ sender. IsTaken sender.taken sender.bytes) }
    {
        match literal {
            LiteralValue::Numeric(one) => of_number(alloc, one),
            LiteralValue::Nonnumeric(text) => of_text(alloc, text.as_slice()),
            LiteralValue::Figurative(one) => Ok(Sender {
                taken: Taken::Figurative(constant(*one)),
                bytes: Items::new(alloc),
            }),
            LiteralValue::All(text) => Ok(Sender {
                taken: Taken::All,
                bytes: Items::from_slice(alloc, text.as_slice())?,
            }),
        }
    }
}
