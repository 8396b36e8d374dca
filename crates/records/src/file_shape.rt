//! Whether a name and keys are those of a file.
ghost use Rattle.std.specs.Prelude.{◌≡◌, ◌&&◌};
ghost use Rattle.std.specs.List.{list_all};
ghost use Rattle.records.specs.Spec as spec;

use crate::file_spec::{AlternateKey, KeyPlace, Organization};

const LONGEST_NAME: usize = 30;

const LONGEST_KEY: u16 = 100;

pub(crate) const LONGEST_SHORT_RECORD: u16 = 1000;

const LONGEST_RECORD: u16 = 16000;

const MOST_ALTERNATES: usize = 7;

/// Whether these are from 1 to 30 bytes, none of them 0.
pub(crate) fn is_name(name: &[u8]) -> bool
    ensures { result ≡ spec.is_name name.now }
{
    1 <= name.len() && name.len() <= LONGEST_NAME && are_letters(name)
}

/// Whether records are from 1 to 16,000 bytes long, and only an indexed file has keys, in order of place and within the record.
pub(crate) fn is_spec(organization: Organization, record_length: u16, keys: &[AlternateKey]) -> bool
    ensures { result ≡ spec.is_spec (record {
      organization = organization;
      record_length = record_length;
      alternates = keys.now;
    }) }
{
    1 <= record_length
        && record_length <= LONGEST_RECORD
        && are_keys(record_length, organization, keys)
}

fn is_letter(byte: u8) -> bool
    ensures { result ≡ spec.is_letter byte }
{
    1 <= byte && byte <= 255
}

fn are_letters(bytes: &[u8]) -> bool
    ensures { result ≡ list_all spec.is_letter bytes.now }
{
    let Some(first) = bytes.first() else {
        return true;
    };
    is_letter(*first) && are_letters(&bytes[1..])
}

fn is_place(record_length: u16, place: KeyPlace) -> bool
    ensures { result ≡ spec.is_place record_length place }
{
    1 <= place.length
        && place.length <= LONGEST_KEY
        && place.offset as u32 + place.length as u32 <= record_length as u32
}

fn are_in_order(keys: &[AlternateKey]) -> bool
    ensures { result ≡ spec.in_order keys.now }
{
    let (Some(one), Some(two)) = (keys.first(), keys.get(1)) else {
        return true;
    };
    one.place.offset < two.place.offset && are_in_order(&keys[1..])
}

fn begin_elsewhere(prime: KeyPlace, keys: &[AlternateKey]) -> bool
    ensures { result ≡ list_all (spec.begins_elsewhere prime) keys.now }
{
    let Some(first) = keys.first() else {
        return true;
    };
    !(prime.offset == first.place.offset) && begin_elsewhere(prime, &keys[1..])
}

fn are_places(record_length: u16, keys: &[AlternateKey]) -> bool
    ensures { result ≡ list_all (λ key. spec.is_place record_length key.place) keys.now }
{
    let Some(first) = keys.first() else {
        return true;
    };
    is_place(record_length, first.place) && are_places(record_length, &keys[1..])
}

fn are_keys(record_length: u16, organization: Organization, keys: &[AlternateKey]) -> bool
    ensures { result ≡ spec.are_keys record_length organization keys.now }
{
    match organization {
        Organization::Sequential => keys.len() == 0,
        Organization::Relative => keys.len() == 0,
        Organization::Indexed(prime) => {
            is_place(record_length, prime)
                && keys.len() <= MOST_ALTERNATES
                && are_in_order(keys)
                && begin_elsewhere(prime, keys)
                && are_places(record_length, keys)
        }
    }
}
