//! The root sector of a volume of halves.
ghost use Rattle.std.specs.Prelude.{◌≡◌, ◌<◌, ◌≤◌, ◌^◌, ◌==◌, true, drop};
ghost use Rattle.std.specs.List.{list_all};
ghost use Rattle.byteorder.specs.Endian.{big_number};
ghost use Rattle.half_store.specs.Write.{SpellsRoot};

use roots::{Mark, Root, root_sector};

/// The mark of a volume of halves.
pub(crate) const MARK: [u8; 8] = *b"COBHALF1";

/// The marks of the other format, in the order of their introduction.
pub(crate) const FOREIGN_FAMILY: [[u8; 8]; 2] = [*b"COBVOL01", *b"COBVOL02"];

/// The bytes of a root sector.
pub(crate) fn root_bytes(sectors: u32, generation: u64, bytes: u64) -> [u8; 4096]
    requires generation { generation < 2 ^ 63 }
    requires least { 1024 ≤ sectors }
    requires most { sectors ≤ 921600 }
    ensures { SpellsRoot sectors generation bytes result }
{
    let root = Root {
        mark: Mark {
            family: 0,
            version: 0,
        },
        generation,
        sectors,
        payload: payload_of(bytes),
    };
    root_sector(&MARK, &root)
}

/// A payload that names so many bytes.
fn payload_of(bytes: u64) -> [u8; 4076]
    ensures counted { big_number 8 result ≡ bytes }
    ensures zeros { list_all (λ byte. byte == 0) (drop 8 result) ≡ true }
{
    let mut payload = [0; 4076];
    payload[..8].copy_from_slice(&bytes.to_be_bytes());
    payload
}
