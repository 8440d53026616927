// The table of routes.
ghost use Rattle.std.specs.Prelude.{◌≡◌, IfOk, OnOk, MatchOption};
ghost use Rattle.matchit.specs.Seek.{first};
ghost use Rattle.http_head.specs.Routes.{with_route, hub_routes};

use crate::Route;
use mail_names::NoMemory;
use matchit::Router;
use std::alloc::Global;
use std::marker::Model;

/// The routes of the hub: a path has the route whose pattern it matches, where `{..}` stands for one or more octets up
/// to the next slash. Contracts see them as the router's table, which is that of the hub.
#[derive(Drop)]
pub struct Routes {
    router: Router<Route>,
}

impl Model for Routes {
    ghost use Rattle.std.specs.Prelude.{◌≡◌};
    ghost use Rattle.http_head.specs.Routes.{RouteTable, hub_routes};

    ghost Value = { RouteTable };

    ghost view = { λ r. r.router };

    ghost invariant = { λ r. r.router ≡ hub_routes };
}

// No route of the hub stands against another. A pair that did would be answered as want of memory.
fn add(router: &mut Router<Route>, pattern: &str, route: Route) -> Result<(), NoMemory>
    ensures { OnOk result (router.new ≡ with_route pattern.now route router.old) }
{
    match router.insert(pattern, route) {
        Ok(()) => Ok(()),
        Err(_) => Err(NoMemory),
    }
}

fn all_routes(alloc: Global) -> Result<Router<Route>, NoMemory>
    ensures { IfOk result (λ router. router ≡ hub_routes) }
{
    let mut router = Router::new(alloc);
    add(&mut router, "/queue", Route::Queue)?;
    add(&mut router, "/approvals", Route::Approvals)?;
    add(&mut router, "/ended", Route::Ended)?;
    add(&mut router, "/folders/{key}", Route::Folder)?;
    add(&mut router, "/folders/{key}/{name}", Route::Item)?;
    add(&mut router, "/directory", Route::Directory)?;
    add(&mut router, "/rules", Route::Rules)?;
    add(
        &mut router,
        "/approvals/{name}/{verdict}/{by}",
        Route::Decide,
    )?;
    add(&mut router, "/turn", Route::Turn)?;
    add(&mut router, "/stop", Route::Stop)?;
    Ok(router)
}

impl Routes {
    /// The routes of the hub. Only want of memory keeps them from being made.
    pub fn new(alloc: Global) -> Result<Routes, NoMemory>
        ensures { IfOk result (λ routes. routes ≡ hub_routes) }
    {
        let router = all_routes(alloc)?;
        Ok(Routes { router })
    }

    /// The route of a path, if it has one. It takes no memory.
    ///
    /// The path is taken as it stands: nothing is cut off it and nothing decoded, so `/queue?x=1` and `/queue/` have none.
    pub fn find(&self, path: &str) -> Option<Route>
        ensures { MatchOption (first hub_routes path.now) (result ≡ None) (λ found. result ≡ Some found.value) }
    {
        match self.router.at(path) {
            Ok(found) => Some(*found.value),
            Err(_) => None,
        }
    }
}
