//! The SELECT of a row `select`: `NAME FILE ORGANIZATION LENGTH ACCESS`, and then `key OFFSET LENGTH`, the alternate keys by
//! `unique OFFSET LENGTH` and `repeated OFFSET LENGTH`, `optional`, and `digits COUNT`.
use records::{Access, AlternateKey, FileSpec, KeyPlace, Organization, Select};
use row_scripts::{Fault, Words, look_up, unquote};
use std::alloc::Global;

/// The name by which rows call a SELECT.
pub fn name_of(row: &[u8]) -> Option<&[u8]> {
    Words::of(row).word()
}

/// The SELECT of a row, without its first word.
pub fn read_select(alloc: Global, row: &[u8]) -> Result<Select, Fault> {
    let mut words = Words::of(row);
    words.word();
    let Some(name) = words.word() else {
        return Err(Fault::Spelling(WRONG));
    };
    let name = unquote(alloc, name)?;
    match read_description(alloc, &mut words, row.len()) {
        Ok(description) => description.select(name),
        Err(fault) => Err(fault),
    }
}

const WRONG: &str = "this is no SELECT";

/// What a row says of the file after its name, in at most so many clauses.
fn read_description(
    alloc: Global,
    words: &mut Words<'_>,
    most: usize,
) -> Result<Description, Fault> {
    let Some(mut description) = read_head(alloc, words) else {
        return Err(Fault::Spelling(WRONG));
    };
    for _ in 0..most {
        let Some(word) = words.word() else { break };
        description.clause(words, word)?;
    }
    Ok(description)
}

/// `ORGANIZATION LENGTH ACCESS`
fn read_head(alloc: Global, words: &mut Words<'_>) -> Option<Description> {
    let organization = look_up(&ORGANIZATIONS, words.word()?)?;
    let record_length = u16::try_from(words.number()?).ok()?;
    let access = look_up(&ACCESSES, words.word()?)?;
    Some(Description {
        organization,
        record_length,
        access,
        alternates: Vec::new(alloc),
        optional: false,
        key_digits: None,
    })
}

fn key_place(words: &mut Words<'_>) -> Option<KeyPlace> {
    let offset = u16::try_from(words.number()?).ok()?;
    let length = u16::try_from(words.number()?).ok()?;
    Some(KeyPlace { offset, length })
}

/// Where the prime key is, a clause says.
const ORGANIZATIONS: [(&[u8], Organization); 3] = [
    (b"sequential", Organization::Sequential),
    (b"relative", Organization::Relative),
    (
        b"indexed",
        Organization::Indexed(KeyPlace {
            offset: 0,
            length: 0,
        }),
    ),
];

const ACCESSES: [(&[u8], Access); 3] = [
    (b"sequential", Access::Sequential),
    (b"random", Access::Random),
    (b"dynamic", Access::Dynamic),
];

#[derive(Clone, Copy)]
enum Clause {
    Key,
    Unique,
    Repeated,
    Optional,
    Digits,
}

const CLAUSES: [(&[u8], Clause); 5] = [
    (b"key", Clause::Key),
    (b"unique", Clause::Unique),
    (b"repeated", Clause::Repeated),
    (b"optional", Clause::Optional),
    (b"digits", Clause::Digits),
];

/// What a row says of the file after its name.
#[derive(Drop)]
struct Description {
    organization: Organization,
    record_length: u16,
    access: Access,
    alternates: Vec<AlternateKey>,
    optional: bool,
    key_digits: Option<u8>,
}

impl Description {
    /// The SELECT of the file of this name, if there is one.
    fn select(self, name: Vec<u8>) -> Result<Select, Fault> {
        let Description {
            organization,
            record_length,
            access,
            alternates,
            optional,
            key_digits,
        } = self;
        match FileSpec::new(name, organization, record_length, alternates) {
            Some(file) => Ok(Select {
                file,
                access,
                optional,
                key_digits,
            }),
            None => Err(Fault::Spelling(WRONG)),
        }
    }

    fn alternate(&mut self, words: &mut Words<'_>, duplicates: bool) -> Result<(), Fault> {
        let Some(place) = key_place(words) else {
            return Err(Fault::Spelling(WRONG));
        };
        self.alternates.push(AlternateKey { place, duplicates })?;
        Ok(())
    }

    fn clause(&mut self, words: &mut Words<'_>, word: &[u8]) -> Result<(), Fault> {
        match look_up(&CLAUSES, word) {
            Some(Clause::Key) => self.prime(words),
            Some(Clause::Unique) => self.alternate(words, false),
            Some(Clause::Repeated) => self.alternate(words, true),
            Some(Clause::Digits) => self.digits(words),
            Some(Clause::Optional) => {
                self.optional = true;
                Ok(())
            }
            None => Err(Fault::Spelling(WRONG)),
        }
    }

    fn prime(&mut self, words: &mut Words<'_>) -> Result<(), Fault> {
        let Some(place) = key_place(words) else {
            return Err(Fault::Spelling(WRONG));
        };
        self.organization = Organization::Indexed(place);
        Ok(())
    }

    fn digits(&mut self, words: &mut Words<'_>) -> Result<(), Fault> {
        let Some(digits) = words.number() else {
            return Err(Fault::Spelling(WRONG));
        };
        self.key_digits = u8::try_from(digits).ok();
        Ok(())
    }
}
