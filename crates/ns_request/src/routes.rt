//! The endpoint of a path.

ghost use Rattle.std.specs.Prelude.{◌≡◌};
ghost use Rattle.ns_request.specs.Endpoints.{endpoint_of};

use crate::endpoint::{ENDPOINTS, Endpoint};
use matchit::Router;
use std::alloc::{AllocError, Global};
use std::marker::Model;

/// The table of the paths, made once.
#[derive(Drop)]
pub struct Routes {
    router: Router<Endpoint>,
}

impl Model for Routes {
    ghost use Rattle.ns_request.specs.Routes.{Serves};

    ghost Value = { Unit {0} };

    ghost view = { λ _. tt };

    ghost invariant = { λ routes. Serves routes.router };
}

impl Routes {
    /// Makes the table of the paths. Want of memory is the only error.
    pub fn new(alloc: Global) -> Result<Routes, AllocError> {
        let mut router = Router::new(alloc);
        for endpoint in ENDPOINTS {
            let Ok(()) = router.insert(endpoint.pattern(), endpoint) else {
                return Err(AllocError);
            };
        }
        Ok(Routes { router })
    }

    /// The endpoint whose pattern the path fits, whatever its parts are.
    pub fn find(&self, path: &str) -> Option<Endpoint>
        ensures { result ≡ endpoint_of path.now }
    {
        match self.router.at(path) {
            Ok(found) => Some(*found.value),
            Err(_) => None,
        }
    }
}
