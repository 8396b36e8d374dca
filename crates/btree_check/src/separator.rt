//! How a page is named in the level above.
ghost use Rattle.std.specs.Prelude.{◌≡◌, ◌++◌, map, length, OnOk, IfErr};
ghost use Rattle.byteorder.specs.Endian.{big_number, big_bytes};
ghost use Rattle.btree_check.specs.Walks.{separator_in, separator_row};

use btree::Key;
use btree_pages::{Kind, TreePage};
use byteorder::{BigEndian, ByteOrder};
use pages::PagesError;
use std::alloc::Global;

/// The least key of a page, and its number.
#[derive(Drop)]
pub(crate) struct Separator {
    pub key: Key,
    pub page: u32,
}

/// The page number that 4 bytes spell.
fn number(bytes: &[u8]) -> u32
    requires { length bytes.now ≡ 4 }
    ensures is { result ≡ big_number 4 bytes.now }
    ensures back { big_bytes 4 result ≡ bytes.now }
{
    let _spelled = [bytes[0], bytes[1], bytes[2], bytes[3]];
    BigEndian::read_u32(bytes)
}

/// Puts what the rows of an inner page name after the separators.
pub(crate) fn push_separators(
    alloc: Global,
    separators: &mut Vec<Separator>,
    node: &TreePage,
) -> Result<(), PagesError>
    requires { node.now.kind ≡ Kind.Inner }
    ensures separators { OnOk result (separators.new.items
        ≡ separators.old.items ++ map (separator_in node.now.layout) node.now.rows) }
    ensures rows { OnOk result
        (map separator_row (map (separator_in node.now.layout) node.now.rows) ≡ node.now.rows) }
    ensures cause { IfErr result (λ error. error ≡ PagesError.Memory) }
{
    for place in 0..node.count() {
        let page = number(node.rest(place));
        let key = Key::copy(alloc, node.key(place))?;
        separators.push(Separator { key, page })?;
    }
    Ok(())
}
