//! INSPECT.

ghost use Rattle.std.specs.Prelude.{◌≡◌};
ghost use Rattle.grammar.specs.Parts.{begins_telling};
ghost use Rattle.grammar.specs.Reading as read;
ghost use Rattle.grammar.specs.Reading.{Reads};
ghost use Rattle.statements.specs.Inspecting as rule;

use crate::followed::followed;
use crate::limit_phrases::{begins_text, limits, text};
use expressions::{after_reference_before, reference};
use grammar::{Part, ReadFault, Tokens, begins_name, beside, several};
use source_tree::{
    Converting, InspectStatement, Occurrences, Reference, ReplacedText, Replacing, Statement,
    Tallied, TalliedText, Tallying, TextStatement, Verb,
};
use sqlite_items::Items;
use std::alloc::Global;
use tokens::{Kind, Reserved, Token};

/// From the verb on: an item, and what of its text is counted and replaced, or how its characters are converted.
#[tactic(auto, unfolding(crate::specs::Inspecting::inspect_reader))]
pub fn read_inspect(alloc: Global, tokens: &mut Tokens<'_>) -> Result<Verb<Statement>, ReadFault>
    ensures { Reads (rule.inspect_reader tokens.old) result tokens.new }
{
    tokens.expect(Reserved::Inspect)?;
    let subject = reference(alloc, tokens)?;
    Ok(Verb::TextStatement(inspected(subject, alloc, tokens)?))
}

/// What is after the subject: a conversion, or the phrases TALLYING and REPLACING.
#[tactic(auto, unfolding(crate::specs::Inspecting::inspected_of, crate::specs::Inspecting::convert_of, crate::specs::Inspecting::phrases_of))]
fn inspected(
    subject: Reference,
    alloc: Global,
    tokens: &mut Tokens<'_>,
) -> Result<TextStatement, ReadFault>
    ensures { Reads (rule.inspected_of subject tokens.old) result tokens.new }
{
    if tokens.at_word(Reserved::Converting) {
        let (subject, texts) = beside(subject, converted_texts(alloc, tokens))?;
        Ok(TextStatement::Convert(Converting { subject, texts }))
    } else {
        let (subject, (tallying, replacing)) = beside(subject, phrases(alloc, tokens))?;
        Ok(TextStatement::Inspect(InspectStatement {
            subject,
            tallying,
            replacing,
        }))
    }
}

/// CONVERTING, a text, TO, and the text whose characters replace its own.
#[tactic(auto, unfolding(crate::specs::Inspecting::converted_texts_reader, crate::specs::Inspecting::replacement_reader))]
fn converted_texts(alloc: Global, tokens: &mut Tokens<'_>) -> Result<ReplacedText, ReadFault>
    ensures { Reads (rule.converted_texts_reader tokens.old) result tokens.new }
{
    tokens.expect(Reserved::Converting)?;
    replacement(alloc, Reserved::To, tokens)
}

/// A text, this word, and the text in its place.
#[tactic(auto, unfolding(crate::specs::Inspecting::replacement_reader))]
fn replacement(
    alloc: Global,
    word: Reserved,
    tokens: &mut Tokens<'_>,
) -> Result<ReplacedText, ReadFault>
    ensures { Reads (rule.replacement_reader word tokens.old) result tokens.new }
{
    let one = text(alloc, tokens)?;
    let (one, ()) = beside(one, tokens.expect(word))?;
    let both = beside(one, text(alloc, tokens))?;
    let ((text, by), limits) = beside(both, limits(alloc, tokens))?;
    Ok(ReplacedText { text, by, limits })
}

/// How texts are counted, where the token says it.
fn tallied_in(token: &Token) -> Option<Occurrences>
    ensures { result ≡ rule.tallied_in token.now }
{
    match token.kind {
        Kind::Reserved(Reserved::All) => Some(Occurrences::All),
        Kind::Reserved(Reserved::Leading) => Some(Occurrences::Leading),
        _ => None,
    }
}

/// How texts are replaced, where the token says it.
fn replaced_in(token: &Token) -> Option<Occurrences>
    ensures { result ≡ rule.replaced_in token.now }
{
    match token.kind {
        Kind::Reserved(Reserved::All) => Some(Occurrences::All),
        Kind::Reserved(Reserved::Leading) => Some(Occurrences::Leading),
        Kind::Reserved(Reserved::First) => Some(Occurrences::First),
        _ => None,
    }
}

/// ALL or LEADING comes next.
fn begins_tallied_texts(tokens: &Tokens<'_>) -> bool
    ensures { result ≡ begins_telling rule.tallied_in tokens.now }
{
    match tokens.rest() {
        [next, ..] => matches!(tallied_in(next), Some(_)),
        [] => false,
    }
}

/// ALL, LEADING or FIRST comes next.
fn begins_replaced_texts(tokens: &Tokens<'_>) -> bool
    ensures { result ≡ begins_telling rule.replaced_in tokens.now }
{
    match tokens.rest() {
        [next, ..] => matches!(replaced_in(next), Some(_)),
        [] => false,
    }
}

/// Passes ALL or LEADING, which has to come next.
#[tactic(auto, unfolding(grammar::specs::Reading::one_token))]
fn how_tallied(tokens: &mut Tokens<'_>) -> Result<Occurrences, ReadFault>
    ensures { Reads (read.one_token rule.tallied_in tokens.old) result tokens.new }
{
    let [next, rest @ ..] = tokens.rest() else {
        return Err(tokens.refuse());
    };
    let Some(occurrences) = tallied_in(next) else {
        return Err(tokens.refuse());
    };
    tokens.go_to(rest);
    Ok(occurrences)
}

/// Passes ALL, LEADING or FIRST, which has to come next.
#[tactic(auto, unfolding(grammar::specs::Reading::one_token))]
fn how_replaced(tokens: &mut Tokens<'_>) -> Result<Occurrences, ReadFault>
    ensures { Reads (read.one_token rule.replaced_in tokens.old) result tokens.new }
{
    let [next, rest @ ..] = tokens.rest() else {
        return Err(tokens.refuse());
    };
    let Some(occurrences) = replaced_in(next) else {
        return Err(tokens.refuse());
    };
    tokens.go_to(rest);
    Ok(occurrences)
}

#[tactic(auto, unfolding(crate::specs::Inspecting::limited_text_reader))]
fn limited_text(alloc: Global, tokens: &mut Tokens<'_>) -> Result<TalliedText, ReadFault>
    ensures { Reads (rule.limited_text_reader tokens.old) result tokens.new }
{
    let text = text(alloc, tokens)?;
    let (text, limits) = beside(text, limits(alloc, tokens))?;
    Ok(TalliedText { text, limits })
}

/// Texts that are counted; a reference before FOR is none.
struct TalliedTexts;

impl Part<TalliedText> for TalliedTexts {
    ghost use Rattle.statements.specs.Inspecting as rule;

    ghost ready = { λ _. Unit {0} };

    ghost reading = { λ _. rule.tallied_text_reader };

    ghost beginning = { λ _. rule.begins_tallied_text };

    #[tactic(auto, unfolding(crate::specs::Inspecting::tallied_text_reader))]
    fn read(&self, alloc: Global, tokens: &mut Tokens<'_>) -> Result<TalliedText, ReadFault> {
        if after_reference_before(tokens.rest(), Reserved::For).is_some() {
            return Err(tokens.refuse());
        }
        limited_text(alloc, tokens)
    }

    fn begins(&self, tokens: &Tokens<'_>) -> bool {
        begins_text(tokens) && after_reference_before(tokens.rest(), Reserved::For).is_none()
    }
}

/// What is counted: characters, or ALL or LEADING and the texts after it.
struct TalliedEntries;

impl Part<Tallied> for TalliedEntries {
    ghost use Rattle.statements.specs.Inspecting as rule;

    ghost ready = { λ _. Unit {0} };

    ghost reading = { λ _. rule.tallied_reader };

    ghost beginning = { λ _. rule.begins_tallied };

    #[tactic(auto, unfolding(crate::specs::Inspecting::tallied_reader, crate::specs::Inspecting::tallied_texts_reader, crate::specs::Inspecting::tallied_characters_reader))]
    fn read(&self, alloc: Global, tokens: &mut Tokens<'_>) -> Result<Tallied, ReadFault> {
        if begins_tallied_texts(tokens) {
            let occurrences = how_tallied(tokens)?;
            let texts = several(&TalliedTexts, alloc, tokens)?;
            Ok(Tallied::Texts { occurrences, texts })
        } else {
            tokens.expect(Reserved::Characters)?;
            let limits = limits(alloc, tokens)?;
            Ok(Tallied::Characters { limits })
        }
    }

    fn begins(&self, tokens: &Tokens<'_>) -> bool {
        tokens.at_word(Reserved::Characters) || begins_tallied_texts(tokens)
    }
}

/// Counters, each with FOR and what it counts.
struct Counters;

impl Part<Tallying> for Counters {
    ghost use Rattle.grammar.specs.Parts as grammar;
    ghost use Rattle.statements.specs.Inspecting as rule;

    ghost ready = { λ _. Unit {0} };

    ghost reading = { λ _. rule.counting_reader };

    ghost beginning = { λ _. grammar.begins_name };

    #[tactic(auto, unfolding(crate::specs::Inspecting::counting_reader))]
    fn read(&self, alloc: Global, tokens: &mut Tokens<'_>) -> Result<Tallying, ReadFault> {
        let counter = followed(reference(alloc, tokens), Reserved::For, tokens)?;
        let (counter, tallied) = beside(counter, several(&TalliedEntries, alloc, tokens))?;
        Ok(Tallying { counter, tallied })
    }

    fn begins(&self, tokens: &Tokens<'_>) -> bool {
        begins_name(tokens)
    }
}

/// Texts that are replaced, each with BY and the text in its place.
struct ReplacedTexts;

impl Part<ReplacedText> for ReplacedTexts {
    ghost use Rattle.statements.specs.Limiting.{begins_text};
    ghost use Rattle.statements.specs.Inspecting as rule;

    ghost ready = { λ _. Unit {0} };

    ghost reading = { λ _. rule.replaced_text_reader };

    ghost beginning = { λ _. begins_text };

    #[tactic(auto, unfolding(crate::specs::Inspecting::replaced_text_reader, crate::specs::Inspecting::replacement_reader))]
    fn read(&self, alloc: Global, tokens: &mut Tokens<'_>) -> Result<ReplacedText, ReadFault> {
        replacement(alloc, Reserved::By, tokens)
    }

    fn begins(&self, tokens: &Tokens<'_>) -> bool {
        begins_text(tokens)
    }
}

/// What is replaced: characters, or ALL, LEADING or FIRST and the texts after it.
struct ReplacedEntries;

impl Part<Replacing> for ReplacedEntries {
    ghost use Rattle.statements.specs.Inspecting as rule;

    ghost ready = { λ _. Unit {0} };

    ghost reading = { λ _. rule.replaced_reader };

    ghost beginning = { λ _. rule.begins_replaced };

    #[tactic(auto, unfolding(crate::specs::Inspecting::replaced_reader, crate::specs::Inspecting::replaced_texts_reader, crate::specs::Inspecting::replaced_characters_reader))]
    fn read(&self, alloc: Global, tokens: &mut Tokens<'_>) -> Result<Replacing, ReadFault> {
        if begins_replaced_texts(tokens) {
            let occurrences = how_replaced(tokens)?;
            let texts = several(&ReplacedTexts, alloc, tokens)?;
            Ok(Replacing::Texts { occurrences, texts })
        } else {
            tokens.expect(Reserved::Characters)?;
            tokens.expect(Reserved::By)?;
            let by = text(alloc, tokens)?;
            let (by, limits) = beside(by, limits(alloc, tokens))?;
            Ok(Replacing::Characters { by, limits })
        }
    }

    fn begins(&self, tokens: &Tokens<'_>) -> bool {
        tokens.at_word(Reserved::Characters) || begins_replaced_texts(tokens)
    }
}

/// The phrase REPLACING.
#[tactic(auto, unfolding(crate::specs::Inspecting::replacing_reader))]
fn replacing(alloc: Global, tokens: &mut Tokens<'_>) -> Result<Items<Replacing>, ReadFault>
    ensures { Reads (rule.replacing_reader tokens.old) result tokens.new }
{
    tokens.expect(Reserved::Replacing)?;
    several(&ReplacedEntries, alloc, tokens)
}

/// The phrase REPLACING, where it stands.
#[tactic(auto, unfolding(crate::specs::Inspecting::perhaps_replacing_reader))]
fn perhaps_replacing(alloc: Global, tokens: &mut Tokens<'_>) -> Result<Items<Replacing>, ReadFault>
    ensures { Reads (rule.perhaps_replacing_reader tokens.old) result tokens.new }
{
    if tokens.at_word(Reserved::Replacing) {
        replacing(alloc, tokens)
    } else {
        Ok(Items::new(alloc))
    }
}

/// TALLYING, with REPLACING or without, or REPLACING alone.
#[tactic(auto, unfolding(crate::specs::Inspecting::phrases_reader, crate::specs::Inspecting::counted_reader, crate::specs::Inspecting::uncounted_reader, crate::specs::Inspecting::tallying_reader))]
fn phrases(
    alloc: Global,
    tokens: &mut Tokens<'_>,
) -> Result<(Items<Tallying>, Items<Replacing>), ReadFault>
    ensures { Reads (rule.phrases_reader tokens.old) result tokens.new }
{
    if tokens.at_word(Reserved::Tallying) {
        tokens.expect(Reserved::Tallying)?;
        let counters = several(&Counters, alloc, tokens)?;
        beside(counters, perhaps_replacing(alloc, tokens))
    } else {
        beside(Items::new(alloc), replacing(alloc, tokens))
    }
}
