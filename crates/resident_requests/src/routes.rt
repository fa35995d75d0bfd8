//! Routes requests by their paths.
ghost use Rattle.std.specs.Prelude.{◌≡◌, IfOk, option_map};
ghost use Rattle.resident_requests.specs.Inner.RouteRows.{route_rows};
ghost use Rattle.resident_requests.specs.Routes.{method_of, route_of, seen_wanted, wanted_of, with_method};

use crate::method::Method;
use matchit::{InsertError, Router};
use room_types::OutOfMemory;
use std::alloc::Global;

/// A resource of the server. Each has its own path.
#[derive(Clone, Copy, Debug, PartialEq, Eq, Drop)]
pub enum Route {
    /// `/me/choices`: the resident's preference list.
    Choices,
    /// `/me/withdraw`: the resident's withdrawal from the round.
    Withdrawal,
    /// `/me`: the resident's own record.
    Standing,
    /// `/rooms`: the rooms and their states.
    Rooms,
}

impl Route {
    /// Returns the only HTTP method that the path of this resource takes.
    pub fn method(self) -> Method
        ensures { result ≡ method_of self }
    {
        match self {
            Route::Choices => Method::Put,
            Route::Withdrawal => Method::Post,
            Route::Standing | Route::Rooms => Method::Get,
        }
    }
}

/// The route and the key of a request, or why the request is refused.
#[derive(Clone, Copy, Debug)]
pub enum Routed<'b> {
    /// The server has no resource at the request's path.
    Unknown,
    /// The request's path takes a method that is not the request's method.
    WrongMethod {
        /// The method that the path takes.
        allow: Method,
    },
    /// The request has no valid key. It has no field `Room-Key`, or several such fields, or one whose value is not in
    /// the grammar of keys.
    Forbidden,
    /// The server has a resource at the request's path, and the request has the right method and a key.
    To {
        /// The resource at the request's path.
        route: Route,
        /// The key, as written in the request.
        key: &'b str,
    },
}

/// Finds the resource that a request with this method, path and key asks for, or why the request is refused. If there
/// are several reasons, returns the first in this order: an unknown path, a wrong method, a missing key.
///
/// # Errors
///
/// `OutOfMemory` if an allocation fails. The function allocates a router of all paths.
pub fn route_request<'b>(
    alloc: Global,
    method: &[u8],
    path: &str,
    key: Option<&'b str>,
) -> Result<Routed<'b>, OutOfMemory>
    ensures { IfOk result (λ routed. seen_wanted routed
        ≡ wanted_of method.now path.now (option_map (λ k. k.now) key.entry)) }
{
    let Some(route) = route_of(alloc, path)? else {
        return Ok(Routed::Unknown);
    };
    Ok(with_method(method, key, route))
}

// Routes a request whose path is known.
fn with_method<'b>(method: &[u8], key: Option<&'b str>, route: Route) -> Routed<'b>
    ensures { seen_wanted result ≡ with_method method.now (option_map (λ k. k.now) key.entry) route }
{
    let allow = route.method();
    if method != allow.as_str().as_bytes() {
        return Routed::WrongMethod { allow };
    }
    match key {
        Some(key) => Routed::To { route, key },
        None => Routed::Forbidden,
    }
}

// Returns the route of the path, if it has one.
fn route_of(alloc: Global, path: &str) -> Result<Option<Route>, OutOfMemory>
    ensures { IfOk result (λ route. route ≡ route_of path.now) }
{
    let router = router(alloc)?;
    Ok(find(&router, path))
}

// Returns the route that the router finds for the path.
fn find(router: &Router<Route>, path: &str) -> Option<Route>
    requires { router.now ≡ route_rows }
    ensures { result ≡ route_of path.now }
{
    match router.at(path) {
        Ok(found) => Some(*found.value),
        Err(_) => None,
    }
}

// Returns a router with all paths of the server. The paths differ and have no parameters, so this fails only if an
// allocation fails.
fn router(alloc: Global) -> Result<Router<Route>, OutOfMemory>
    ensures { IfOk result (λ router. router ≡ route_rows) }
{
    match filled_router(alloc) {
        Ok(router) => Ok(router),
        Err(_) => Err(OutOfMemory {}),
    }
}

fn filled_router(alloc: Global) -> Result<Router<Route>, InsertError>
    ensures { IfOk result (λ router. router ≡ route_rows) }
{
    let mut router = Router::new(alloc);
    router.insert("/me/choices", Route::Choices)?;
    router.insert("/me/withdraw", Route::Withdrawal)?;
    router.insert("/me", Route::Standing)?;
    router.insert("/rooms", Route::Rooms)?;
    Ok(router)
}
