//! The tests that the connectors alone decide: 41, 42, 43 and 46 to 49.
ghost use Rattle.std.specs.Prelude.{◌≡◌, ◌<◌, true, is_some, length, if◌then◌else◌};
ghost use Rattle.records.specs.Tests as tests;
ghost use Rattle.records.specs.FileStep.{barred_at};
ghost use Rattle.records.specs.Stores.{spec_of, IsKey};
ghost use Rattle.file_verbs.specs.Connections as connections;
ghost use Rattle.file_verbs.specs.Connections.{entry, connector, entries_of, connectors_of, is_suited};

use crate::linked::Linked;
use crate::write_statement::is_in_sequence;
use records::{Access, FileSpec, KeyOfReference, OpenMode, Status, Verb};

/// The status with which a verb on the file of this number ends before it looks at the file.
pub(crate) fn barred(links: &[Linked], file: usize, verb: Verb) -> Option<Status>
    requires { file < length links.now }
    ensures { result ≡ barred_at (entries_of links.now) (connectors_of links.now) file verb }
{
    barred_here(links, &links[file], verb)
}

/// Whether a verb names a key of the file, and no more of it than there is.
pub(crate) fn suits(file: &FileSpec, verb: Verb) -> bool
    ensures { result ≡ is_suited (spec_of file.now) verb }
{
    match verb {
        Verb::Read(key) => is_key(file, key),
        Verb::Start(_, key, count) => {
            is_key(file, key) && count as u16 <= file.key_place(key).length
        }
        _ => true,
    }
}

fn may_read(mode: Option<OpenMode>) -> bool
    ensures { result ≡ tests.may_read mode }
{
    match mode {
        Some(OpenMode::Input) => true,
        Some(OpenMode::InputOutput) => true,
        _ => false,
    }
}

fn may_write(access: Access, mode: Option<OpenMode>) -> bool
    ensures { result ≡ tests.may_write access mode }
{
    match mode {
        Some(OpenMode::Output) => true,
        Some(OpenMode::InputOutput) => !is_in_sequence(access),
        Some(OpenMode::Extend) => true,
        _ => false,
    }
}

fn may_change(mode: Option<OpenMode>) -> bool
    ensures { result ≡ tests.may_change mode }
{
    match mode {
        Some(OpenMode::InputOutput) => true,
        _ => false,
    }
}

/// A connector to a file of this name is open.
fn is_name_open(links: &[Linked], name: &[u8]) -> bool
    ensures { result
        ≡ tests.is_name_open name.now (entries_of links.now) (connectors_of links.now) }
{
    let Some(first) = links.first() else {
        return false;
    };
    if first.link.mode.is_some() && first.select.file.name.as_slice().cmp(name).is_eq() {
        return true;
    }
    is_name_open(&links[1..], name)
}

fn unless(test: bool, status: Status) -> Option<Status>
    ensures { result ≡ tests.status_unless test status }
{
    if test { None } else { Some(status) }
}

fn then_unless(first: Option<Status>, test: bool, status: Status) -> Option<Status>
    ensures { result ≡ tests.then_unless first test status }
{
    match first {
        Some(first) => Some(first),
        None => unless(test, status),
    }
}

/// In sequential access a row has to be read just before it is changed.
fn may_change_row(linked: &Linked) -> Option<Status>
    ensures { result ≡ tests.then_unless
        (tests.status_unless (tests.may_change (connector linked.now).mode) Status.NotForChanging)
        (if tests.is_sequential (entry linked.now).access then is_some (connector linked.now).read
        else true) Status.NoReadBefore }
{
    then_unless(
        unless(may_change(linked.link.mode), Status::NotForChanging),
        !is_in_sequence(linked.select.access) || linked.link.was_read,
        Status::NoReadBefore,
    )
}

/// The status with which a verb ends before it looks at a file.
fn barred_here(links: &[Linked], linked: &Linked, verb: Verb) -> Option<Status>
    ensures { result ≡ tests.barred_status (entries_of links.now) (connectors_of links.now)
        (entry linked.now) (connector linked.now) verb }
{
    let mode = linked.link.mode;
    match verb {
        Verb::Open(_) => unless(
            !is_name_open(links, &linked.select.file.name),
            Status::AlreadyOpen,
        ),
        Verb::Close => unless(mode.is_some(), Status::NotOpen),
        Verb::ReadNext => then_unless(
            unless(may_read(mode), Status::NotForReading),
            linked.link.side.is_some(),
            Status::NoPosition,
        ),
        Verb::Read(_) => unless(may_read(mode), Status::NotForReading),
        Verb::Write => unless(may_write(linked.select.access, mode), Status::NotForWriting),
        Verb::Rewrite => may_change_row(linked),
        Verb::Delete => may_change_row(linked),
        Verb::Start(_, _, _) => unless(may_read(mode), Status::NotForReading),
    }
}

fn is_key(file: &FileSpec, key: KeyOfReference) -> bool
    ensures exact { result ≡ connections.is_key (spec_of file.now) key }
    ensures means { result ≡ true → IsKey (spec_of file.now) key }
{
    match key {
        KeyOfReference::Prime => true,
        KeyOfReference::Alternate(i) => (i as usize) < file.alternates.len(),
    }
}
