//! What `list` prints.
use crate::printing::{
    PRINTED, Printing, fails_at_flush, fails_with_device, fills_writers, finds_damage, print_rows,
};
use crate::volume::{FileRows, INDEXED};
use records::Organization;

const FILES: &[FileRows] = &[
    FileRows {
        name: b"SALES",
        organization: INDEXED,
        length: 80,
        records: &[&[b'2'; 80], &[b'1'; 80]],
    },
    FileRows {
        name: b"REL",
        organization: Organization::Relative,
        length: 4,
        records: &[b"ONE ", b"TWO ", b"LAST"],
    },
    FileRows {
        name: b"A \\B\xe9\x01",
        organization: Organization::Sequential,
        length: 1000,
        records: &[],
    },
];

// In order of the bytes of the names.
const LISTING: &[u8] =
    b"A \\\\B\\xe9\\x01 sequential 1000 0\nREL relative 4 3\nSALES indexed 80 2\n";

// A line a file, with its organization, the bytes of a record and how many rows it has. A new volume has no files. A writer that fails
// has taken a beginning, or the whole listing if it fails when it is flushed.
#[test]
fn listings(rt: HostRuntime) {
    let alloc = rt.alloc();
    print_rows(&rt, alloc, FILES, &[(Printing::List, PRINTED, LISTING)]);
    print_rows(&rt, alloc, &[], &[(Printing::List, PRINTED, b"")]);
    finds_damage(&rt, alloc, Printing::List);
    let rooms = [0, 1, 30, LISTING.len() - 1, LISTING.len()];
    fills_writers(&rt, alloc, FILES, Printing::List, LISTING, &rooms);
    fails_at_flush(&rt, alloc, FILES, Printing::List, LISTING);
    fails_with_device(&rt, alloc, FILES, Printing::List);
}
