//! A SELECT with its connector.
ghost use Rattle.std.specs.Prelude.{◌≡◌, None, IfOk, IsOkUnless};
ghost use Rattle.records.specs.Stores.{spec_of};
ghost use Rattle.records.specs.Connector.{closed_connector};
ghost use Rattle.file_verbs.specs.Links.{IsLink, connector_of};

use crate::link::Link;
use records::{KeyOfReference, Select, StoreFault};
use std::alloc::Global;

/// What a program says of a file, and what is kept of it.
#[derive(Drop)]
pub struct Linked {
    pub select: Select,
    pub link: Link,
    ghost sound: { IsLink select link },
}

/// A closed connector, with its room.
pub(crate) fn new_linked(alloc: Global, select: Select) -> Result<Linked, StoreFault>
    ensures select { IfOk result (λ one. one.select ≡ select) }
    ensures closed { IfOk result
        (λ one. connector_of (spec_of one.select.file) one.link ≡ closed_connector) }
    ensures shut { IfOk result (λ one. one.link.mode ≡ None) }
    ensures memory { IsOkUnless result StoreFault.Memory }
{
    let length = select.file.record_length as usize;
    let mut row = Vec::new(alloc);
    row.resize(length, 0)?;
    let mut sought = Vec::new(alloc);
    sought.resize(length, 0)?;
    let mut written = Vec::new(alloc);
    written.resize(length, 0)?;
    Ok(Linked {
        select,
        link: Link {
            mode: None,
            is_absent: false,
            reference: KeyOfReference::Prime,
            side: None,
            value_length: 0,
            was_read: false,
            row,
            number: 0,
            sought,
            has_written: false,
            written,
            written_number: 0,
        },
    })
}
