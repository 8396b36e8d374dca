//! What is asked of an operand: relational operators, signs and classes, with IS and NOT before them.

ghost use Rattle.std.specs.Prelude.{◌≡◌};
ghost use Rattle.grammar.specs.Reading as read;
ghost use Rattle.grammar.specs.Reading.{Reads};
ghost use Rattle.conditions.specs.Tests as spec;

use grammar::{ReadFault, Tokens, past_word};
use source_tree::{Class, Relation, RelationalOperator, SignTest};
use tokens::{Kind, Operator, Reserved, Token};

/// What a word or a symbol asks for.
#[derive(Clone, Copy)]
pub enum Test {
    /// A relation in symbols.
    Symbol(Relation),
    /// GREATER or LESS, which OR EQUAL may follow.
    Order(Relation),
    Equal,
    Sign(SignTest),
    Class(Class),
}

/// What is asked of an operand.
#[derive(Clone, Copy)]
pub enum Asked {
    Relation(RelationalOperator),
    Sign { negated: bool, sign: SignTest },
    Class { negated: bool, class: Class },
}

fn symbol_of(operator: Operator) -> Option<Relation>
    ensures { result ≡ spec.symbol_of operator }
{
    match operator {
        Operator::Equal => Some(Relation::Equal),
        Operator::Greater => Some(Relation::Greater),
        Operator::Less => Some(Relation::Less),
        Operator::GreaterOrEqual => Some(Relation::GreaterOrEqual),
        Operator::LessOrEqual => Some(Relation::LessOrEqual),
        _ => None,
    }
}

fn word_asks(word: Reserved) -> Option<Test>
    ensures { result ≡ spec.word_asks word }
{
    match word {
        Reserved::Greater => Some(Test::Order(Relation::Greater)),
        Reserved::Less => Some(Test::Order(Relation::Less)),
        Reserved::Equal => Some(Test::Equal),
        Reserved::Positive => Some(Test::Sign(SignTest::Positive)),
        Reserved::Negative => Some(Test::Sign(SignTest::Negative)),
        Reserved::Zero => Some(Test::Sign(SignTest::Zero)),
        Reserved::Numeric => Some(Test::Class(Class::Numeric)),
        Reserved::Alphabetic => Some(Test::Class(Class::Alphabetic)),
        Reserved::AlphabeticLower => Some(Test::Class(Class::AlphabeticLower)),
        Reserved::AlphabeticUpper => Some(Test::Class(Class::AlphabeticUpper)),
        _ => None,
    }
}

fn test_in(token: &Token) -> Option<Test>
    ensures { result ≡ spec.test_in token.now }
{
    match token.kind {
        Kind::Reserved(word) => word_asks(word),
        Kind::Operator(operator) => match symbol_of(operator) {
            Some(relation) => Some(Test::Symbol(relation)),
            None => None,
        },
        _ => None,
    }
}

/// What is asked here, after IS and NOT.
pub fn next_test(tokens: &[Token]) -> Option<Test>
    ensures { result ≡ spec.next_test tokens.now }
{
    match past_word(past_word(tokens, Reserved::Is), Reserved::Not) {
        [next, ..] => test_in(next),
        [] => None,
    }
}

/// Something is asked here.
pub fn begins_test(tokens: &[Token]) -> bool
    ensures { result ≡ spec.begins_test tokens.now }
{
    matches!(next_test(tokens), Some(_))
}

/// A class is asked for here.
pub fn begins_class(tokens: &[Token]) -> bool
    ensures { result ≡ spec.begins_class tokens.now }
{
    matches!(next_test(tokens), Some(Test::Class(_)))
}

/// The word or symbol that has to come next.
#[tactic(auto, unfolding(grammar::specs::Reading::one_token))]
fn read_test(tokens: &mut Tokens<'_>) -> Result<Test, ReadFault>
    ensures { Reads (read.one_token spec.test_in tokens.old) result tokens.new }
{
    let [next, rest @ ..] = tokens.rest() else {
        return Err(tokens.refuse());
    };
    let Some(test) = test_in(next) else {
        return Err(tokens.refuse());
    };
    tokens.go_to(rest);
    Ok(test)
}

#[tactic(auto, unfolding(crate::specs::Tests::or_equal_phrase_reader))]
fn or_equal_phrase(tokens: &mut Tokens<'_>) -> Result<bool, ReadFault>
    ensures { Reads (spec.or_equal_phrase_reader tokens.old) result tokens.new }
{
    tokens.expect(Reserved::Or)?;
    tokens.expect(Reserved::Equal)?;
    tokens.skip(Reserved::To);
    Ok(true)
}

/// Whether OR EQUAL stands here.
#[tactic(auto, unfolding(crate::specs::Tests::or_equal_reader))]
fn or_equal(tokens: &mut Tokens<'_>) -> Result<bool, ReadFault>
    ensures { Reads (spec.or_equal_reader tokens.old) result tokens.new }
{
    if tokens.at_word(Reserved::Or) {
        or_equal_phrase(tokens)
    } else {
        Ok(false)
    }
}

fn with_equal(equal: bool, relation: Relation) -> Relation
    ensures { result ≡ spec.with_equal equal relation }
{
    if !equal {
        return relation;
    }
    match relation {
        Relation::Greater => Relation::GreaterOrEqual,
        Relation::Less => Relation::LessOrEqual,
        other => other,
    }
}

fn operator(negated: bool, relation: Relation) -> Asked
    ensures { result ≡ spec.operator negated relation }
{
    Asked::Relation(RelationalOperator { negated, relation })
}

/// What follows GREATER or LESS.
#[tactic(auto, unfolding(crate::specs::Tests::order_reader))]
fn order(tokens: &mut Tokens<'_>, negated: bool, order: Relation) -> Result<Asked, ReadFault>
    ensures { Reads (spec.order_reader negated order tokens.old) result tokens.new }
{
    tokens.skip(Reserved::Than);
    let equal = or_equal(tokens)?;
    Ok(operator(negated, with_equal(equal, order)))
}

/// What follows EQUAL.
#[tactic(auto, unfolding(crate::specs::Tests::equal_reader))]
fn equal(tokens: &mut Tokens<'_>, negated: bool) -> Result<Asked, ReadFault>
    ensures { Reads (spec.equal_reader negated tokens.old) result tokens.new }
{
    tokens.skip(Reserved::To);
    Ok(operator(negated, Relation::Equal))
}

fn asked_after(tokens: &mut Tokens<'_>, negated: bool, test: Test) -> Result<Asked, ReadFault>
    ensures { Reads (spec.asked_after negated test tokens.old) result tokens.new }
{
    match test {
        Test::Symbol(relation) => Ok(operator(negated, relation)),
        Test::Order(relation) => order(tokens, negated, relation),
        Test::Equal => equal(tokens, negated),
        Test::Sign(sign) => Ok(Asked::Sign { negated, sign }),
        Test::Class(class) => Ok(Asked::Class { negated, class }),
    }
}

/// IS and NOT, which may be left out, and a relational operator, a sign or a class.
#[tactic(auto, unfolding(crate::specs::Tests::asked_reader))]
pub fn read_asked(tokens: &mut Tokens<'_>) -> Result<Asked, ReadFault>
    ensures { Reads (spec.asked_reader tokens.old) result tokens.new }
{
    tokens.skip(Reserved::Is);
    let negated = tokens.take(Reserved::Not);
    let test = read_test(tokens)?;
    asked_after(tokens, negated, test)
}
