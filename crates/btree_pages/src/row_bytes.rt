//! Rows of one length, one after the other, in the bytes of a page.
ghost use Rattle.std.specs.Prelude.{◌≡◌, ◌≤◌, ◌<◌, ◌+◌, ◌-◌, ◌*◌, ◌++◌, [], length, take, drop, replicate, slice_set, slice_index_or};
ghost use Rattle.std.specs.List.{insert, remove};
ghost use Rattle.btree_pages.specs.Bytes.{put_at};
ghost use Rattle.btree_pages.specs.Node.{rows_in};

/// Puts bytes into others from this place on.
pub(crate) fn put(bytes: &mut [u8], at: usize, part: &[u8])
    requires { at + length part.now ≤ length bytes.old }
    ensures { bytes.new ≡ put_at at part.now bytes.old }
{
    bytes[at..at + part.len()].copy_from_slice(part);
}

/// The bytes before this place, and zeros.
pub(crate) fn front(bytes: &[u8; 4080], end: usize) -> [u8; 4080]
    requires { end ≤ 4080 }
    ensures { result ≡ take end bytes.now ++ replicate (4080 - end) 0 }
{
    let mut kept = *bytes;
    erase(&mut kept, end, 4080 - end);
    kept
}

/// A row comes to this place: a key and what follows it.
pub(crate) fn insert_row(
    bytes: &mut [u8; 4080],
    row: usize,
    count: usize,
    place: usize,
    key: &[u8],
    rest: &[u8],
)
    requires place { place ≤ count }
    requires row { length key.now + length rest.now ≡ row }
    requires room { (count + 1) * row ≤ 4080 }
    ensures { rows_in row (count + 1) bytes.new
        ≡ insert (rows_in row count bytes.old) place (key.now ++ rest.now) }
{
    let at = start(row, count, place);
    let end = start(row, count, count);
    bytes.copy_within(at..end, at + row);
    put(bytes, at, key);
    put(bytes, at + key.len(), rest);
}

/// The row at this place goes, and zeros follow the last one.
pub(crate) fn remove_row(bytes: &mut [u8; 4080], row: usize, count: usize, place: usize)
    requires place { place < count }
    requires fits { count * row ≤ 4080 }
    ensures { rows_in row (count - 1) bytes.new ≡ remove (rows_in row count bytes.old) place }
{
    let at = start(row, count, place);
    let end = start(row, count, count);
    bytes.copy_within(at + row..end, at);
    erase(bytes, end - row, row);
}

/// The row at this place gets another key.
pub(crate) fn put_key(bytes: &mut [u8; 4080], row: usize, count: usize, place: usize, key: &[u8])
    requires place { place < count }
    requires fits { count * row ≤ 4080 }
    requires key { length key.now ≤ row }
    ensures { rows_in row count bytes.new ≡ slice_set (rows_in row count bytes.old) place
        (key.now ++ drop (length key.now) (slice_index_or (rows_in row count bytes.old) place [])) }
{
    let at = start(row, count, place);
    put(bytes, at, key);
}

/// The row at this place gets another end, after so many bytes of a key.
pub(crate) fn put_rest(
    bytes: &mut [u8; 4080],
    row: usize,
    count: usize,
    place: usize,
    key_length: usize,
    rest: &[u8],
)
    requires place { place < count }
    requires fits { count * row ≤ 4080 }
    requires rest { key_length + length rest.now ≡ row }
    ensures { rows_in row count bytes.new ≡ slice_set (rows_in row count bytes.old) place
        (take key_length (slice_index_or (rows_in row count bytes.old) place []) ++ rest.now) }
{
    let at = start(row, count, place);
    put(bytes, at + key_length, rest);
}

/// Takes the rows from this place on out of a page, and leaves zeros.
pub(crate) fn split_rows(
    bytes: &mut [u8; 4080],
    row: usize,
    count: usize,
    place: usize,
) -> [u8; 4080]
    requires place { place ≤ count }
    requires fits { count * row ≤ 4080 }
    ensures left { rows_in row place bytes.new ≡ take place (rows_in row count bytes.old) }
    ensures right { rows_in row (count - place) result ≡ drop place (rows_in row count bytes.old) }
{
    let at = start(row, count, place);
    let end = start(row, count, count);
    let mut right = [0; 4080];
    put(&mut right, 0, &bytes[at..end]);
    erase(bytes, at, end - at);
    right
}

/// Puts the rows of another page after the last one.
pub(crate) fn append_rows(
    bytes: &mut [u8; 4080],
    row: usize,
    count: usize,
    other: &[u8; 4080],
    more: usize,
)
    requires { (count + more) * row ≤ 4080 }
    ensures { rows_in row (count + more) bytes.new
        ≡ rows_in row count bytes.old ++ rows_in row more other.now }
{
    let at = start(row, count, count);
    let end = start(row, more, more);
    let (rows, _) = other.split_at(end);
    put(bytes, at, rows);
}

/// Where the row at this place begins, of so many rows of this length, or where they end.
fn start(row: usize, count: usize, place: usize) -> usize
    requires place { place ≤ count }
    requires fits { count * row ≤ 4080 }
    ensures start { result ≡ place * row }
    ensures within { result + (count - place) * row ≡ count * row }
    ensures below { place < count → result + row ≤ count * row }
{
    place * row
}

/// Writes so many zeros from this place on.
fn erase(bytes: &mut [u8; 4080], at: usize, count: usize)
    requires { at + count ≤ 4080 }
    ensures { bytes.new ≡ put_at at (replicate count 0) bytes.old }
{
    bytes[at..at + count].fill(0);
}
