//! Assertions as functions, so that one proof covers `assert_eq!` for all its uses.
use std::fmt::Debug;
use std::process::Abort;

/// Ends the test unless `found` equals `wanted`. The note says what is compared, or names the case.
pub fn same<T: PartialEq + Debug>(rt: &impl Abort, found: &T, wanted: &T, note: &str) {
    assert_eq!(rt; *found, *wanted, "{note}");
}

/// Ends the test unless `found` equals `wanted`. The note is the number of the case.
pub fn same_at<T: PartialEq + Debug>(rt: &impl Abort, found: &T, wanted: &T, case: usize) {
    assert_eq!(rt; *found, *wanted, "{case}");
}

/// Ends the test unless the condition is true. The note states the condition, or names the case.
pub fn holds(rt: &impl Abort, is_so: bool, note: &str) {
    assert!(rt; is_so, "{note}");
}

/// Ends the test unless the two values are equal, as `assert_eq!` does, by a call of `same`. If the caller gives no
/// note, the note is the code of the first value.
macro_rules! assert_same {
    ($rt:expr; $found:expr, $wanted:expr $(,)?) => {
        $crate::asserting::same(&$rt, &$found, &$wanted, stringify!($found))
    };
    ($rt:expr; $found:expr, $wanted:expr, $note:expr $(,)?) => {
        $crate::asserting::same(&$rt, &$found, &$wanted, $note)
    };
}

pub(crate) use assert_same;
