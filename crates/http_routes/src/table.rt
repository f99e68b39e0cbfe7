//! The table of routes, in a router.
ghost use Rattle.std.specs.Prelude.{◌≡◌, ℕ, List, IfOk, IsTrue, OnOk, find};
ghost use Rattle.std.specs.List.{list_all};
ghost use Rattle.matchit.specs.Seek.{first};
ghost use Rattle.http_routes.specs.Paths as spec;
ghost use Rattle.http_routes.specs.Paths.{is_ascii_byte, is_path_of};
ghost use Rattle.http_routes.specs.Routing.{answered_route, route_in, table_rows, with_route, with_routes};
ghost use Rattle.http_routes.specs.Table.{all_routes};

use crate::route::{FlowPart, Route, SourcePart};
use disk_trait::Memory;
use matchit::Router;
use std::alloc::Global;
use std::marker::Model;
use std::str;

/// All routes, in the table's order.
const ROUTES: [Route; 25] = [
    Route::Root,
    Route::Service,
    Route::Hooks,
    Route::Sources,
    Route::Source,
    Route::SourcePart(SourcePart::Tags),
    Route::SourcePart(SourcePart::Tag),
    Route::SourcePart(SourcePart::Label),
    Route::SourcePart(SourcePart::Description),
    Route::Flows,
    Route::Flow,
    Route::FlowPart(FlowPart::Tags),
    Route::FlowPart(FlowPart::Tag),
    Route::FlowPart(FlowPart::Label),
    Route::FlowPart(FlowPart::Description),
    Route::FlowPart(FlowPart::ReadOnly),
    Route::FlowPart(FlowPart::Collection),
    Route::FlowPart(FlowPart::MaxBitRate),
    Route::FlowPart(FlowPart::AvgBitRate),
    Route::Segments,
    Route::Storage,
    Route::Object,
    Route::Requests,
    Route::Request,
    Route::Media,
];

/// The table of routes, by which paths are looked up. Contracts see the rows of its router, which are those
/// of all routes.
#[derive(Drop)]
pub struct RouteTable {
    router: Router<Route>,
}

impl Model for RouteTable {
    ghost use Rattle.std.specs.Prelude.{◌≡◌};
    ghost use Rattle.http_routes.specs.Routing.{Routed, table_rows};

    ghost Value = { Routed };

    ghost view = { λ t. t.router };

    ghost invariant = { λ t. t.router ≡ table_rows };
}

impl RouteTable {
    /// The table of all routes.
    pub fn new(alloc: Global) -> Result<RouteTable, Memory>
        ensures rows { IfOk result (λ table. table ≡ table_rows) }
        ensures paths { IfOk result (λ table. (path : List ℕ) → route_in table path ≡ spec.route_of path) }
    {
        let router = table_router(alloc)?;
        Ok(RouteTable { router })
    }

    /// The route that a path names. A path with a byte outside ASCII names none. It takes no memory.
    pub fn find(&self, path: &[u8]) -> Option<Route>
        ensures route { result ≡ spec.route_of path.now }
        ensures looked_up { result ≡ route_in self.now path.now }
    {
        if is_ascii(path) {
            route_at(&self.router, path)
        } else {
            None
        }
    }
}

/// The router of all routes.
#[tactic(auto, unfolding(crate::specs::Table::all_routes))]
fn table_router(alloc: Global) -> Result<Router<Route>, Memory>
    ensures { IfOk result (λ router. router ≡ table_rows) }
{
    let mut router = Router::new(alloc);
    add_all(&mut router, &ROUTES)?;
    Ok(router)
}

fn add_all(router: &mut Router<Route>, routes: &[Route]) -> Result<(), Memory>
    ensures { OnOk result (router.new ≡ with_routes routes.now router.old) }
{
    for route in routes {
        add(router, *route)?;
    }
    Ok(())
}

/// Puts a route in. No text of the table is refused; that is proved of none here, so a refusal counts as
/// want of memory.
#[tactic(auto, unfolding(crate::specs::Routing::with_route))]
fn add(router: &mut Router<Route>, route: Route) -> Result<(), Memory>
    ensures { OnOk result (router.new ≡ with_route route router.old) }
{
    match router.insert(route.text(), route) {
        Ok(()) => Ok(()),
        Err(_) => Err(Memory),
    }
}

fn is_ascii(path: &[u8]) -> bool
    ensures { result ≡ list_all is_ascii_byte path.now }
{
    path.iter().all(|byte| *byte < 128)
}

/// The first of all routes of which a path in ASCII is one.
#[tactic(auto, using(crate::proofs::Routing::table_at, crate::proofs::Routing::ascii_no_fault))]
fn route_at(router: &Router<Route>, path: &[u8]) -> Option<Route>
    requires table { router.now ≡ table_rows }
    requires ascii { IsTrue (list_all is_ascii_byte path.now) }
    ensures { result ≡ find (is_path_of path.now) all_routes }
{
    match str::from_utf8(path) {
        Ok(text) => value_at(router, text),
        Err(_) => None,
    }
}

/// The value of the route that a path matches.
fn value_at(router: &Router<Route>, path: &str) -> Option<Route>
    ensures { result ≡ answered_route (first router.now path.now) }
{
    match router.at(path) {
        Ok(found) => Some(*found.value),
        Err(_) => None,
    }
}
