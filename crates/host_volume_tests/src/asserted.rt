//! Assertions, as functions. No test has a `?` or an assertion of its own: each is one more path on which all that the test holds has to
//! be dropped, and proved so.

use std::fmt::Debug;
use std::io;
use std::io::ErrorKind;
use std::process::Abort;

/// Asserts a fact.
pub fn holds(rt: &impl Abort, fact: bool) {
    assert!(rt; fact);
}

/// Asserts that a value is the expected one.
pub fn same<T: PartialEq + Debug + Drop>(rt: &impl Abort, value: T, expected: T) {
    assert_eq!(rt; value, expected);
}

/// The value of a call that has to work.
pub fn value_of<T, E: Debug + Drop>(rt: &impl Abort, answer: Result<T, E>) -> T {
    match answer {
        Ok(value) => value,
        Err(error) => panic!(rt; "{error:?}"),
    }
}

/// Asserts that a call fails with an error of this kind.
pub fn fails_as<T: Drop>(rt: &impl Abort, answer: io::Result<T>, kind: ErrorKind) {
    match answer {
        Ok(_) => panic!(rt; "no error"),
        Err(error) => same(rt, error.kind(), kind),
    }
}
