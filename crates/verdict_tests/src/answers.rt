//! What a test wants of an answer.

use std::fmt::Debug;
use std::process::Abort;

/// Ends the test where an answer isn't the one that is wanted, and tells what it is about.
pub(crate) fn wants_about<R: Abort, T: PartialEq + Debug>(
    rt: &R,
    about: &str,
    answer: &T,
    wanted: &T,
) {
    assert_eq!(*rt; *answer, *wanted, "{about}");
}
