//! Theorems about the definitions: each is the contract of a function that does nothing.
ghost use Rattle.resident_http.specs.OwnReply.{KeepsWhereUnavailable, RepliesByOwnRecord};

/// Theorem: which responses a resident may get to the bytes of a connection depends only on these parts of the
/// office:
///
/// - the rooms, and which of them are occupied;
/// - the round and its phase;
/// - who owns the key of the request;
/// - what is recorded about this owner, except the grade, and except the result until it is published.
///
/// If two offices agree on these parts, both may serve the same responses to the bytes.
pub fn own_reply()
    ensures { RepliesByOwnRecord }
{}

/// Theorem: if the response to the bytes of a connection has status 503, serving the bytes leaves the office
/// unchanged.
pub fn unavailable_keeps()
    ensures { KeepsWhereUnavailable }
{}
