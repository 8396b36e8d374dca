//! What was read, and a word after it.

ghost use Rattle.statements.specs.Followed.{IsFollowed};

use grammar::{ReadFault, Tokens};
use tokens::Reserved;

/// What was read, if this word comes next, which is passed.
///
/// A caller that looks for the word itself returns in two places, and holds what it read at the second.
pub fn followed<T: Drop>(
    found: Result<T, ReadFault>,
    word: Reserved,
    tokens: &mut Tokens<'_>,
) -> Result<T, ReadFault>
    ensures { IsFollowed found word tokens.old result tokens.new }
{
    let found = found?;
    tokens.expect(word)?;
    Ok(found)
}
