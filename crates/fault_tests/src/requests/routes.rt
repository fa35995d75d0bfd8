//! Tests of `route_request`, which finds the route of a request.
use crate::asserting::assert_same;
use resident_requests::routes::{Route, Routed, route_request};
use std::alloc::Global;
use std::process::Abort;

// Each row has a method, a path, a key or `-` for none, and a word for where the request is routed.
const ROUTES: &str = "\
GET /me key00000000000t1 standing\n\
PUT /me/choices key00000000000t1 choices\n\
POST /me/withdraw key00000000000t1 withdrawal\n\
GET /rooms key00000000000t1 rooms\n\
GET /none key00000000000t1 unknown\n\
GET /none - unknown\n\
PUT /me/ key00000000000t1 unknown\n\
GET /m - unknown\n\
GET /me/choices/ - unknown\n\
GET /Me - unknown\n\
GET me - unknown\n\
GET * - unknown\n\
GET http://a/me - unknown\n\
GET /m%65 - unknown\n\
GET //me - unknown\n\
PUT /me key00000000000t1 GET\n\
PUT /me - GET\n\
HEAD /me key00000000000t1 GET\n\
get /me key00000000000t1 GET\n\
DELETE /me/choices key00000000000t1 PUT\n\
GET /me/withdraw - POST\n\
POST /rooms - GET\n\
GET /me - forbidden\n\
PUT /me/choices - forbidden";

#[test]
fn routes_worked_requests(rt: HostRuntime) {
    assert_same!(rt; ROUTES.lines().count(), 24);
    for row in ROUTES.lines() {
        is_as_expected(&rt, rt.alloc(), row);
    }
}

fn is_as_expected(rt: &impl Abort, alloc: Global, row: &str) {
    let mut cells = row.split(' ');
    let (Some(method), Some(path), Some(key), Some(wanted)) = (
        cells.next(),
        cells.next(),
        cells.next(),
        cells.next(),
    ) else {
        panic!(rt; "{row} is no row");
    };
    let routed = route_request(alloc, method.as_bytes(), path, key_in(key)).expect(rt, "memory");
    assert_same!(rt; word_for(routed), wanted, row);
}

// The key in this cell, if any.
fn key_in(cell: &str) -> Option<&str> {
    if cell == "-" { None } else { Some(cell) }
}

// The word for where a request is routed.
fn word_for(routed: Routed<'_>) -> &'static str {
    match routed {
        Routed::Unknown => "unknown",
        Routed::WrongMethod { allow } => allow.as_str(),
        Routed::Forbidden => "forbidden",
        Routed::To { route, key } => word_with_key(route, key),
    }
}

fn word_with_key(route: Route, key: &str) -> &'static str {
    if key == "key00000000000t1" {
        word_of(route)
    } else {
        "another key"
    }
}

fn word_of(route: Route) -> &'static str {
    match route {
        Route::Standing => "standing",
        Route::Choices => "choices",
        Route::Withdrawal => "withdrawal",
        Route::Rooms => "rooms",
    }
}
