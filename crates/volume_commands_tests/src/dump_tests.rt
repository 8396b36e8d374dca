//! What `dump` prints.
use crate::printing::{
    PRINTED, PrintRow, Printing, fails_at_flush, fills_writers, finds_damage, print_rows,
};
use crate::volume::{FileRows, INDEXED};
use records::Organization;
use volume_commands::{FileDump, VolumeError};

const FILES: &[FileRows] = &[
    FileRows {
        name: b"SALES",
        organization: INDEXED,
        length: 4,
        records: &[b"AB\\\x00", b"~\x7f\n\xa5", b"\x1f \x80\xff"],
    },
    FileRows {
        name: b"LOG",
        organization: Organization::Sequential,
        length: 1,
        records: &[b"2", b"1"],
    },
];

const SALES: Printing = Printing::Dump(b"SALES");

const DUMP: &[u8] = b"\\x1f \\x80\\xff\nAB\\\\\\x00\n~\\x7f\\x0a\\xa5\n";

const UNKNOWN: Result<FileDump, VolumeError> = Ok(FileDump::UnknownName);

// Rows of an indexed file in order of its key, those of a sequential file in the order of their WRITEs, and names that no file has.
const DUMPS: [PrintRow; 6] = [
    (SALES, PRINTED, DUMP),
    (Printing::Dump(b"LOG"), PRINTED, b"2\n1\n"),
    (Printing::Dump(b"NONE"), UNKNOWN, b""),
    (Printing::Dump(b"sales"), UNKNOWN, b""),
    (Printing::Dump(b"SALE"), UNKNOWN, b""),
    (Printing::Dump(b""), UNKNOWN, b""),
];

// Damage is found before the name is looked up. A writer that fails has taken a beginning, cut anywhere, or the whole dump if it fails
// when it is flushed.
#[test]
fn dumps(rt: HostRuntime) {
    let alloc = rt.alloc();
    print_rows(&rt, alloc, FILES, &DUMPS);
    finds_damage(&rt, alloc, Printing::Dump(b"NONE"));
    let rooms = [0, 13, 14, DUMP.len() - 1, DUMP.len()];
    fills_writers(&rt, alloc, FILES, SALES, DUMP, &rooms);
    fails_at_flush(&rt, alloc, FILES, SALES, DUMP);
}
