//! Finds the endpoint and the method that the head of a request names.

ghost use Rattle.std.specs.Prelude.{◌≡◌, true};
ghost use Rattle.ns_http.specs.Head.{asked};
ghost use Rattle.ns_request.specs.Targets.{
  first_text,
  has_good_parts,
  path_in,
  query_in,
  second_text,
};

use crate::endpoint::Endpoint;
use crate::method::Method;
use crate::query::Query;
use crate::routes::Routes;
use crate::target::{named_in, split_target};
use ns_http::Request;
use ns_types::refusal::Refusal;
use ns_types::text::Text;
use std::alloc::Global;

/// The target of a request: its endpoint and method, its parts and its query.
#[derive(Drop)]
pub struct RequestTarget<'a> {
    pub request: Request<'a>,
    pub endpoint: Endpoint,
    pub method: Method,
    /// The text of the first part that the path names, empty where it names none.
    pub name: Text,
    /// The text of the second part, which is a node's name, empty where the path names none.
    pub node: Text,
    pub query: Query<'a>,
    pub ghost query_is: { query ≡ query_in (asked request).target },
    pub ghost name_is: { name ≡ first_text endpoint (path_in (asked request).target) },
    pub ghost node_is: { node ≡ second_text endpoint (path_in (asked request).target) },
    pub ghost parts: { has_good_parts endpoint (path_in (asked request).target) ≡ true },
}

impl<'a> RequestTarget<'a> {
    ghost use Rattle.std.specs.Prelude.{IfOk};
    ghost use Rattle.ns_request.specs.Gives.{Gives};
    ghost use Rattle.ns_request.specs.Judging.{judged};
    ghost use Rattle.ns_request.specs.Finding.{found, found_at, place_of};

    /// The method, if the path has it. `NotServed`, if no path serves the query; then `BadMethod`, if the path lacks the
    /// method.
    fn judged(
        endpoint: Endpoint,
        method: Option<Method>,
        query: &Query<'_>,
    ) -> Result<Method, Refusal>
        ensures { Gives (λ method. (endpoint, method)) result (judged endpoint method query.now) }
    {
        if query.is_unserved(endpoint, method) {
            return Err(Refusal::NotServed);
        }
        match method {
            Some(method) if endpoint.methods().has(method) => Ok(method),
            _ => Err(Refusal::BadMethod),
        }
    }

    #[tactic(auto, unfolding(crate::specs::Finding::found_at))]
    fn at(
        alloc: Global,
        endpoint: Endpoint,
        request: &Request<'a>,
        path: &'a str,
        query: &'a str,
    ) -> Result<RequestTarget<'a>, Refusal>
        requires path { path.now ≡ path_in (asked request.now).target }
        requires query { query.now ≡ query_in (asked request.now).target }
        ensures found { Gives place_of result (found_at endpoint (asked request.now)) }
        ensures request { IfOk result (λ target. target.request ≡ request.now) }
    {
        let Some(named) = named_in(alloc, endpoint, path)? else {
            return Err(Refusal::NotFound);
        };
        if named.every_pool {
            return Err(Refusal::NotServed);
        }
        let query = Query::read(alloc, query)?;
        match RequestTarget::judged(endpoint, Method::read(request.method), &query) {
            Ok(method) => Ok(RequestTarget {
                request: *request,
                endpoint,
                method,
                name: named.first,
                node: named.second,
                query,
            }),
            Err(refusal) => {
                drop(query);
                Err(refusal)
            }
        }
    }

    /// Finds the target in the head of the request. The refusals are `NotFound`, `NotServed` and `BadMethod`. Want of memory is
    /// the only other error.
    #[tactic(auto, unfolding(crate::specs::Finding::found))]
    pub fn find(
        alloc: Global,
        routes: &Routes,
        request: &Request<'a>,
    ) -> Result<RequestTarget<'a>, Refusal>
        ensures found { Gives place_of result (found (asked request.now)) }
        ensures request { IfOk result (λ target. target.request ≡ request.now) }
    {
        let (path, query) = split_target(request.target);
        match routes.find(path) {
            Some(endpoint) => RequestTarget::at(alloc, endpoint, request, path, query),
            None => Err(Refusal::NotFound),
        }
    }
}
