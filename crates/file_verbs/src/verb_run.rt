//! A verb on a file, where no test of the connectors bars it.
ghost use Rattle.std.specs.Prelude.{◌≡◌, ◌≤◌, false, None, length};
ghost use Rattle.records.specs.Connector.{closed_connector};
ghost use Rattle.records.specs.FileStep.{area, is_close, Suits};
ghost use Rattle.file_verbs.specs.Connections.{entry, connector, May};
ghost use Rattle.file_verbs.specs.Does.{Does};

use crate::linked::Linked;
use crate::open_statement::{close_link, open_file};
use crate::read_statement::{read_by_key, read_next, start};
use crate::rewrite_statement::{delete_row, rewrite_row};
use crate::seeking::KeyComparison;
use crate::write_statement::write_row;
use records::{Status, Store, StoreFault, Verb};
use station::Device;

/// Nothing was read just before.
pub(crate) fn forget_read(linked: &mut Linked)
    ensures connector { connector linked.new ≡ record (connector linked.old) { read = None } }
    ensures select { linked.new.select ≡ linked.old.select }
    ensures mode { linked.new.link.mode ≡ linked.old.link.mode }
    ensures absent { linked.new.link.is_absent ≡ linked.old.link.is_absent }
{
    linked.link.was_read = false;
}

/// CLOSE.
pub(crate) fn close(linked: &mut Linked)
    ensures connector { connector linked.new ≡ closed_connector }
    ensures select { linked.new.select ≡ linked.old.select }
    ensures shut { linked.new.link.mode ≡ None }
{
    close_link(&linked.select, &mut linked.link);
}

/// Does a verb on a file, but CLOSE.
pub(crate) fn perform_on<T: Store, D: Device>(
    store: &mut T,
    device: &mut D,
    linked: &mut Linked,
    verb: Verb,
    bytes: &mut [u8],
    number: &mut u64,
) -> Result<Status, StoreFault>
    requires device { T.needs store.old ≤ D.sectors device.old }
    requires not_close { is_close verb ≡ false }
    requires may { May linked.old verb }
    requires suits { Suits (entry linked.old) verb }
    requires bytes { length bytes.old ≡ linked.old.select.file.record_length }
    ensures does { Does T.Keeps D.Device verb result store.old device.old store.new device.new
        linked.old linked.new (area bytes.old number.old) (area bytes.new number.new) }
{
    let select = &linked.select;
    let link = &mut linked.link;
    match verb {
        Verb::Open(mode) => open_file(store, device, select, link, mode),
        Verb::Close => unreachable!(),
        Verb::ReadNext => match link.side {
            Some(side) => read_next(store, device, select, link, side, bytes, number),
            None => unreachable!(),
        },
        Verb::Read(key) => read_by_key(store, device, select, link, key, bytes, number),
        Verb::Write => write_row(store, device, select, link, bytes, number),
        Verb::Rewrite => rewrite_row(store, device, select, link, bytes, *number),
        Verb::Delete => delete_row(store, device, select, link, bytes, *number),
        Verb::Start(relation, key, count) => {
            let comparison = KeyComparison {
                relation,
                key,
                count: count as u16,
            };
            start(store, device, select, link, comparison, bytes, *number)
        }
    }
}
