//! Assertions of equality as calls of one function, so that one proof covers `assert_eq!` for all its uses.
use std::fmt::Debug;
use std::process::Abort;

/// Ends the test unless `found` equals `wanted`. The note says what is compared, or names the case.
pub fn same<T: PartialEq + Debug>(rt: &impl Abort, found: &T, wanted: &T, note: &str) {
    assert_eq!(rt; *found, *wanted, "{note}");
}

/// Like `assert_eq!`, but calls `same`, and takes a text in place of a format string.
macro_rules! assert_same {
    ($rt:expr; $found:expr, $wanted:expr $(,)?) => {
        $crate::asserting::same(&$rt, &$found, &$wanted, stringify!($found))
    };
    ($rt:expr; $found:expr, $wanted:expr, $note:expr $(,)?) => {
        $crate::asserting::same(&$rt, &$found, &$wanted, $note)
    };
}

pub(crate) use assert_same;
