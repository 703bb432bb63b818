//! The resources of the API and the paths that they have.

ghost use Rattle.std.specs.Prelude.{◌≡◌, IfOk, map, []};
ghost use Rattle.api_routes.specs.Match.{hit};
ghost use Rattle.api_routes.specs.Paths.{resources};
ghost use Rattle.api_routes.specs.Table.{with_routes, table};

use io_caps::NoMemory;
use matchit::{InsertError, Router};
use std::alloc::Global;

/// A resource of an input (AMWA IS-08 v1.0, `/inputs/{id}`).
#[derive(Clone, Copy, Debug, Drop, PartialEq)]
pub(crate) enum InputPart {
    Names,
    Properties,
    Parent,
    Channels,
    Caps,
}

/// A resource of an output (AMWA IS-08 v1.0, `/outputs/{id}`).
#[derive(Clone, Copy, Debug, Drop, PartialEq)]
pub(crate) enum OutputPart {
    Names,
    Properties,
    SourceId,
    Channels,
    Caps,
}

/// A resource (AMWA IS-08 v1.0), of any input, output or activation. `Slash`, `Nmos` and `Mapping`
/// stand above the version.
#[derive(Clone, Copy, Debug, Drop, PartialEq)]
pub(crate) enum Route {
    Slash,
    Nmos,
    Mapping,
    Version,
    Inputs,
    Outputs,
    OfInput(InputPart),
    OfOutput(OutputPart),
    Map,
    Activations,
    Activation,
    Active,
    ActiveOutput,
    Io,
}

const ROUTES: [(&str, Route); 22] = [
    ("/", Route::Slash),
    ("/x-nmos", Route::Nmos),
    ("/x-nmos/channelmapping", Route::Mapping),
    ("/x-nmos/channelmapping/v1.0", Route::Version),
    ("/x-nmos/channelmapping/v1.0/inputs", Route::Inputs),
    ("/x-nmos/channelmapping/v1.0/outputs", Route::Outputs),
    (
        "/x-nmos/channelmapping/v1.0/inputs/{id}",
        Route::OfInput(InputPart::Names),
    ),
    (
        "/x-nmos/channelmapping/v1.0/outputs/{id}",
        Route::OfOutput(OutputPart::Names),
    ),
    (
        "/x-nmos/channelmapping/v1.0/inputs/{id}/properties",
        Route::OfInput(InputPart::Properties),
    ),
    (
        "/x-nmos/channelmapping/v1.0/outputs/{id}/properties",
        Route::OfOutput(OutputPart::Properties),
    ),
    (
        "/x-nmos/channelmapping/v1.0/inputs/{id}/parent",
        Route::OfInput(InputPart::Parent),
    ),
    (
        "/x-nmos/channelmapping/v1.0/inputs/{id}/channels",
        Route::OfInput(InputPart::Channels),
    ),
    (
        "/x-nmos/channelmapping/v1.0/outputs/{id}/channels",
        Route::OfOutput(OutputPart::Channels),
    ),
    (
        "/x-nmos/channelmapping/v1.0/inputs/{id}/caps",
        Route::OfInput(InputPart::Caps),
    ),
    (
        "/x-nmos/channelmapping/v1.0/outputs/{id}/sourceid",
        Route::OfOutput(OutputPart::SourceId),
    ),
    (
        "/x-nmos/channelmapping/v1.0/outputs/{id}/caps",
        Route::OfOutput(OutputPart::Caps),
    ),
    ("/x-nmos/channelmapping/v1.0/map", Route::Map),
    (
        "/x-nmos/channelmapping/v1.0/map/activations",
        Route::Activations,
    ),
    (
        "/x-nmos/channelmapping/v1.0/map/activations/{id}",
        Route::Activation,
    ),
    ("/x-nmos/channelmapping/v1.0/map/active", Route::Active),
    (
        "/x-nmos/channelmapping/v1.0/map/active/{id}",
        Route::ActiveOutput,
    ),
    ("/x-nmos/channelmapping/v1.0/io", Route::Io),
];

/// The paths of the resources, made ready to look one up.
#[derive(Drop)]
pub struct Routes {
    router: Router<Route>,
    ghost built: { router ≡ table },
}

impl Routes {
    /// The routes of the API. `NoMemory` says that memory ran out.
    pub fn new(alloc: Global) -> Result<Routes, NoMemory> {
        match build(alloc, &ROUTES) {
            Ok(router) => Ok(Routes { router }),
            Err(_) => Err(NoMemory),
        }
    }

    /// The resource that has a path.
    pub(crate) fn route_of(&self, path: &str) -> Option<Route>
        ensures { result ≡ hit resources path.now }
    {
        match self.router.at(path) {
            Ok(found) => Some(*found.value),
            Err(_) => None,
        }
    }
}

/// A router with these routes.
fn build(alloc: Global, routes: &[(&str, Route)]) -> Result<Router<Route>, InsertError>
    ensures { IfOk result (λ router. router ≡ with_routes []
        (map (λ r. (r.0.now, r.1)) routes.now)) }
{
    let mut router = Router::new(alloc);
    for (text, route) in routes {
        router.insert(*text, *route)?;
    }
    Ok(router)
}
