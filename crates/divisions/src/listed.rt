//! Lists by their first part.

ghost use Rattle.std.specs.Prelude.{◌∷◌, List, Ok};
ghost use Rattle.answers.specs.Answer.{Gives};
ghost use Rattle.grammar.specs.Reading.{halt_of};

use grammar::ReadFault;
use sqlite_items::Items;
use std::alloc::Global;

/// The first and those after it.
pub fn listed<T: Drop>(alloc: Global, first: T, more: Items<T>) -> Result<Items<T>, ReadFault>
    ensures { Gives (λ (all : List T). all) halt_of result (Ok (first ∷ more)) }
{
    let mut all = Items::new(alloc);
    all.push(first)?;
    all.append(more)?;
    Ok(all)
}
