//! What a request comes to, before the book is asked.

ghost use Rattle.std.specs.Prelude.{◌≡◌, IfOk};
ghost use Rattle.api_routes.specs.Plan.{IsPlanOk, has_method, is_options, methods_of, plan_at};
ghost use Rattle.api_routes.specs.Plan.{plan_of, plan_path, plan_route, plan_target, posted};
ghost use Rattle.api_routes.specs.Targets.{IsTargetThere};
ghost use Rattle.channel_json.specs.Requests.{request_by};

use crate::routes::{Route, Routes};
use crate::targets::{Target, cut_path, route_of, target_of};
use crate::wrong::ApiFault;
use channel_json::{Resource, request_of};
use http_wire::{Extra, HttpRequest, Method};
use io_caps::{Device, NoMemory, Or};
use plain_book::Request;
use std::alloc::Global;

/// What of the book's reply is shown.
#[derive(Clone, Copy, Debug, PartialEq)]
pub(crate) enum Part {
    Whole,
    /// The pending activation of an id.
    Item(u64),
    /// The row of an output.
    Row(u8),
}

/// What is done with a request.
#[derive(Debug, Drop)]
pub(crate) enum Plan {
    /// It is told what may be asked for.
    Preflight,
    Refuse(ApiFault),
    Show(Resource),
    /// The book is asked.
    Ask(Request, Part),
}

fn is_options(method: Method) -> bool
    ensures { result ≡ is_options method }
{
    match method {
        Method::Options => true,
        Method::Get | Method::Post | Method::Delete | Method::Other => false,
    }
}

/// The methods that a resource has, as a response tells them.
fn methods_of(route: Route) -> Extra
    ensures { result ≡ methods_of route }
{
    match route {
        Route::Activations => Extra::AllowPost,
        Route::Activation => Extra::AllowDelete,
        _ => Extra::AllowGet,
    }
}

fn has_method(methods: Extra, method: Method) -> bool
    ensures { result ≡ has_method methods method }
{
    match method {
        Method::Get => true,
        Method::Post => methods == Extra::AllowPost,
        Method::Delete => methods == Extra::AllowDelete,
        Method::Options | Method::Other => false,
    }
}

/// What a posted activation comes to.
fn post(alloc: Global, device: &Device, body: &[u8]) -> Result<Plan, NoMemory>
    ensures { IfOk result (λ made. made ≡ posted (request_by device.now body.now)) }
{
    match request_of(alloc, device, body) {
        Ok(request) => Ok(Plan::Ask(request, Part::Whole)),
        Err(Or::Fault(fault)) => Ok(Plan::Refuse(ApiFault::Body(fault))),
        Err(Or::NoMemory) => Err(NoMemory),
    }
}

/// What a request comes to that has a method of what its path leads to.
fn plan_at(
    alloc: Global,
    device: &Device,
    target: Target,
    method: Method,
    body: &[u8],
) -> Result<Plan, NoMemory>
    requires { IsTargetThere device.now target }
    ensures value { IfOk result (λ made. made ≡ plan_at device.now target method body.now) }
    ensures there { IfOk result (IsPlanOk device.now) }
{
    match target {
        Target::Fixed(resource) => Ok(Plan::Show(resource)),
        Target::AllPending => match method {
            Method::Post => post(alloc, device, body),
            _ => Ok(Plan::Ask(Request::Pending, Part::Whole)),
        },
        Target::OnePending(id) => match method {
            Method::Delete => Ok(Plan::Ask(Request::Delete { id }, Part::Whole)),
            _ => Ok(Plan::Ask(Request::Pending, Part::Item(id))),
        },
        Target::Rows(None) => Ok(Plan::Ask(Request::Active, Part::Whole)),
        Target::Rows(Some(output)) => Ok(Plan::Ask(Request::Active, Part::Row(output))),
    }
}

/// What a request for a path without a trailing slash comes to.
fn plan_path(
    alloc: Global,
    routes: &Routes,
    device: &Device,
    path: &[u8],
    method: Method,
    body: &[u8],
) -> Result<Plan, NoMemory>
    ensures value { IfOk result (λ made. made ≡ plan_path device.now path.now method body.now) }
    ensures there { IfOk result (IsPlanOk device.now) }
{
    let Some(route) = route_of(routes, path) else {
        return Ok(Plan::Refuse(ApiFault::NoResource));
    };
    let methods = methods_of(route);
    if !has_method(methods, method) {
        return Ok(Plan::Refuse(ApiFault::NoMethod(methods)));
    }
    match target_of(device, route, path) {
        Some(target) => plan_at(alloc, device, target, method, body),
        None => Ok(Plan::Refuse(ApiFault::NoResource)),
    }
}

/// What a request comes to.
pub(crate) fn plan_of(
    alloc: Global,
    routes: &Routes,
    device: &Device,
    request: &HttpRequest,
) -> Result<Plan, NoMemory>
    ensures value { IfOk result (λ made. made ≡ plan_of device.now request.now) }
    ensures there { IfOk result (IsPlanOk device.now) }
{
    if is_options(request.method) {
        return Ok(Plan::Preflight);
    }
    let path = cut_path(request.path.as_slice());
    let body = request.body.as_slice();
    plan_path(alloc, routes, device, path, request.method, body)
}
