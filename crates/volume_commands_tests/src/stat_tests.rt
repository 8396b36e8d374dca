//! What `stat` prints.
use crate::printing::{
    PRINTED, Printing, fails_with_device, fills_writers, finds_damage, print_rows,
};
use crate::volume::{FileRows, INDEXED};

const FILES: &[FileRows] = &[FileRows {
    name: b"A\\B",
    organization: INDEXED,
    length: 2,
    records: &[b"C3", b"A1"],
}];

/// Two roots, a sector of the map, the page of the catalog and that of the file are in use.
const STAT: &[u8] =
    b"mark COBVOL02\ngeneration 3\nsectors 1024\nfree 1019\nfiles 1\nrows A\\\\B 2\n";

// A commit makes the file, and each row is one. Nothing is written. A writer that fails has taken a beginning.
#[test]
fn states(rt: HostRuntime) {
    let alloc = rt.alloc();
    print_rows(&rt, alloc, FILES, &[(Printing::Stat, PRINTED, STAT)]);
    finds_damage(&rt, alloc, Printing::Stat);
    let rooms = [0, 13, STAT.len() - 1, STAT.len()];
    fills_writers(&rt, alloc, FILES, Printing::Stat, STAT, &rooms);
    fails_with_device(&rt, alloc, FILES, Printing::Stat);
}
