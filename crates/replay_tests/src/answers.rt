//! What a test wants of an answer.

use std::fmt::Debug;
use std::process::Abort;

/// Ends the test where an answer isn't the one that is wanted.
pub(crate) fn wants<R: Abort, T: PartialEq + Debug>(rt: &R, answer: &T, wanted: &T) {
    assert_eq!(*rt; *answer, *wanted);
}
