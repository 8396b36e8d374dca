//! Qualification (COBOL-85, Nucleus, "Qualification").

ghost use Rattle.std.specs.Prelude.{◌≡◌};
ghost use Rattle.std.specs.Option.{option_copied};
ghost use Rattle.source_tree.specs.Names as names;
ghost use Rattle.name_table.specs.Table.{names_of};

use source_tree::Name;

/// A thing of that name, if it has one, is called so.
pub fn is_called(name: &Name, other: Option<&Name>) -> bool
    ensures { result ≡ names.is_called name.now (option_copied other.entry) }
{
    match other {
        Some(other) => is_same(name, other),
        None => false,
    }
}

/// Each qualifier is one of these names, in their order; names between may be left out.
pub fn is_within(qualifiers: &[Name], around: &[&Name]) -> bool
    ensures { result ≡ names.is_within qualifiers.now (names_of around.now) }
{
    let mut rest = qualifiers;
    for name in around {
        if let [one, more @ ..] = rest {
            if is_same(one, name) {
                rest = more;
            }
        }
    }
    rest.is_empty()
}

fn is_same(one: &Name, other: &Name) -> bool
    ensures { result ≡ names.same one.now other.now }
{
    one.characters.as_slice() == other.characters.as_slice()
}
