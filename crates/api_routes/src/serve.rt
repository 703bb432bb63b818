//! Requests that are served over a book.

ghost use Rattle.std.specs.Prelude.{◌≡◌, ◌++◌, ◌⊎◌, IfOk, IfErr, OnOk, OnErr, None};
ghost use Rattle.std.specs.Option.{IfNone, option_copied};
ghost use Rattle.http_wire.specs.Response.{IsStatus};
ghost use Rattle.api_routes.specs.Answer.{IsServed, IsUnserved, IsUnwritten, IsWritten, OnStill};
ghost use Rattle.api_routes.specs.Answer.{no_memory_text, response_of, said_by, said_reply};
ghost use Rattle.api_routes.specs.Answer.{stream_response, text_said};
ghost use Rattle.api_routes.specs.Plan.{IsPlanOk, request_asked};

use crate::answer::{Answer, said_preflight, said_reply, said_resource, said_wrong, write_said};
use crate::plan::{Part, Plan, plan_of};
use crate::routes::Routes;
use crate::wrong::ApiFault;
use http_wire::HttpRequest;
use io_caps::{Device, NoMemory, TryCopy};
use plain_book::{Desk, Reply, Request, Stamp};
use std::alloc::Global;
use thiserror::Error;

/// Whether the book was asked, and then the place at which it answered.
#[derive(Clone, Copy, Debug, PartialEq, Eq)]
pub enum Answered {
    /// It was not asked.
    Still,
    At(Stamp),
}

/// Memory ran out: with the place at which the book had answered, where it had. A call that it
/// accepted there stays accepted.
#[derive(Clone, Copy, Debug, PartialEq, Eq, Error)]
#[error("memory ran out")]
pub struct ServeFault {
    pub asked: Option<Stamp>,
}

impl TryCopy for Answered {
    fn copy(&self) -> Result<Answered, NoMemory> {
        Ok(*self)
    }
}

impl TryCopy for ServeFault {
    fn copy(&self) -> Result<ServeFault, NoMemory> {
        Ok(*self)
    }
}

impl From<NoMemory> for ServeFault {
    ghost use Rattle.std.specs.Prelude.{None};

    ghost from_gives = { λ _ e. e.asked ≡ None };

    fn from(_error: NoMemory) -> ServeFault {
        ServeFault { asked: None }
    }
}

/// The request with which [`serve_request`] asks the book, and `None` exactly where it does not
/// ask.
pub fn asks(
    alloc: Global,
    routes: &Routes,
    device: &Device,
    request: &HttpRequest,
) -> Result<Option<Request>, NoMemory>
    ensures { IfOk result (λ asked. asked ≡ request_asked device.now request.now) }
{
    match plan_of(alloc, routes, device, request)? {
        Plan::Ask(request, _) => Ok(Some(request)),
        Plan::Preflight | Plan::Refuse(_) | Plan::Show(_) => Ok(None),
    }
}

/// Appends the response to a book's reply.
fn answer_reply(
    alloc: Global,
    device: &Device,
    request: &Request,
    part: Part,
    reply: &Reply,
    closes: bool,
    out: &mut Vec<u8>,
) -> Result<(), NoMemory>
    ensures ok { OnOk result (out.new.items ≡ out.old.items
        ++ text_said closes (said_reply device.now request.now part reply.now)) }
    ensures err { OnErr result (out.new.items ≡ out.old.items) }
{
    let said = said_reply(alloc, device, request, part, reply)?;
    write_said(&said, closes, out)
}

/// Asks the book and appends the response to its reply.
fn ask<D: Desk>(
    alloc: Global,
    device: &Device,
    desk: &mut D,
    client: u8,
    request: &Request,
    part: Part,
    closes: bool,
    out: &mut Vec<u8>,
) -> Result<Stamp, ServeFault>
    requires { D.ready desk.old client }
    ensures ok { IfOk result (λ stamp. IsWritten (D.setup desk.old) client (D.journal desk.old)
        (D.journal desk.new) (D.tells desk.old desk.new client) request.now stamp
        (λ reply. text_said closes (said_reply device.now request.now part reply))
        out.old.items out.new.items) }
    ensures fault { IfErr result (λ e. IsUnwritten (D.setup desk.old) client (D.journal desk.old)
        (D.journal desk.new) (D.tells desk.old desk.new client) request.now e.asked) }
    ensures stays { IfErr result (λ e. IfNone e.asked (D.stays desk.old desk.new)) }
    ensures again { IfErr result (λ e. IfNone e.asked (D.ready desk.new client)) }
    ensures out { OnErr result (out.new.items ≡ out.old.items) }
    ensures setup { D.setup desk.new ≡ D.setup desk.old }
    ensures lent { D.lent desk.new ≡ D.lent desk.old }
    ensures keeps { D.keeps desk.old desk.new }
{
    let (reply, stamp) = desk.ask(client, request)?;
    let asked = ServeFault { asked: Some(stamp) };
    match answer_reply(alloc, device, request, part, &reply, closes, out) {
        Ok(()) => Ok(stamp),
        Err(_) => Err(asked),
    }
}

/// What is said without the book.
fn said_unasked(alloc: Global, device: &Device, plan: &Plan) -> Result<Answer, NoMemory>
    requires { IsPlanOk device.now plan.now }
    ensures value { IfOk result (λ made. made ≡ said_by device.now plan.now None) }
    ensures status { IfOk result (λ made. IsStatus made.status) }
{
    match plan {
        Plan::Preflight => Ok(said_preflight(alloc)),
        Plan::Refuse(wrong) => said_wrong(alloc, *wrong),
        Plan::Show(resource) => said_resource(alloc, device, *resource),
        // A plan that asks the book is answered by its reply.
        Plan::Ask(_, _) => said_wrong(alloc, ApiFault::NoMemory),
    }
}

/// Appends the response to a request for which the book is not asked.
fn answer(
    alloc: Global,
    device: &Device,
    plan: &Plan,
    closes: bool,
    out: &mut Vec<u8>,
) -> Result<(), NoMemory>
    requires { IsPlanOk device.now plan.now }
    ensures ok { OnOk result (out.new.items ≡ out.old.items
        ++ text_said closes (said_by device.now plan.now None)) }
    ensures err { OnErr result (out.new.items ≡ out.old.items) }
{
    let said = said_unasked(alloc, device, plan)?;
    write_said(&said, closes, out)
}

/// Appends the response to a request, given the reply of a book that was asked with the request
/// that [`asks`] tells, and none where that tells none. Where a reply is missing, it is the
/// response that memory ran out. If memory runs out here, `out` is as it was.
pub fn respond(
    alloc: Global,
    routes: &Routes,
    device: &Device,
    request: &HttpRequest,
    reply: Option<&Reply>,
    out: &mut Vec<u8>,
) -> Result<(), NoMemory>
    ensures ok { OnOk result (out.new.items ≡ out.old.items
        ++ response_of device.now request.now (option_copied reply.entry)) }
    ensures err { OnErr result (out.new.items ≡ out.old.items) }
{
    let plan = plan_of(alloc, routes, device, request)?;
    match &plan {
        Plan::Ask(asked, part) => match reply {
            Some(reply) => answer_reply(alloc, device, asked, *part, reply, request.closes, out),
            None => answer(alloc, device, &plan, request.closes, out),
        },
        Plan::Preflight | Plan::Refuse(_) | Plan::Show(_) => {
            answer(alloc, device, &plan, request.closes, out)
        }
    }
}

/// Serves a request, and appends the whole response to it. The book is asked at most once, for the
/// client, with the request that [`asks`] tells. If memory runs out, `out` is as it was.
pub fn serve_request<D: Desk>(
    alloc: Global,
    routes: &Routes,
    device: &Device,
    desk: &mut D,
    client: u8,
    request: &HttpRequest,
    out: &mut Vec<u8>,
) -> Result<Answered, ServeFault>
    requires ready { D.ready desk.old client }
    ensures served { IfOk result (IsServed device.now request.now (D.setup desk.old) client
        (D.journal desk.old) (D.journal desk.new) (D.tells desk.old desk.new client) out.old.items
        out.new.items) }
    ensures still { IfOk result (λ answered. OnStill answered (desk.new ≡ desk.old)) }
    ensures fault { IfErr result (λ e. IsUnserved device.now request.now (D.setup desk.old) client
        (D.journal desk.old) (D.journal desk.new) (D.tells desk.old desk.new client) e.asked) }
    ensures stays { IfErr result (λ e. IfNone e.asked
        ((desk.new ≡ desk.old) ⊎ D.stays desk.old desk.new)) }
    ensures again { IfErr result (λ e. IfNone e.asked (D.ready desk.new client)) }
    ensures out { OnErr result (out.new.items ≡ out.old.items) }
    ensures setup { D.setup desk.new ≡ D.setup desk.old }
    ensures lent { D.lent desk.new ≡ D.lent desk.old }
    ensures keeps { (desk.new ≡ desk.old) ⊎ D.keeps desk.old desk.new }
{
    let plan = plan_of(alloc, routes, device, request)?;
    match &plan {
        Plan::Ask(asked, part) => {
            let stamp = ask(
                alloc,
                device,
                desk,
                client,
                asked,
                *part,
                request.closes,
                out,
            )?;
            Ok(Answered::At(stamp))
        }
        Plan::Preflight | Plan::Refuse(_) | Plan::Show(_) => {
            answer(alloc, device, &plan, request.closes, out)?;
            Ok(Answered::Still)
        }
    }
}

/// Appends the response to a stream of requests that is refused with one of the statuses of
/// [`http_wire::Next::Bad`]. The connection ends after it. If memory runs out, `out` stays as it
/// was.
pub fn refuse_stream(alloc: Global, status: u16, out: &mut Vec<u8>) -> Result<(), NoMemory>
    requires { IsStatus status }
    ensures ok { OnOk result (out.new.items ≡ out.old.items ++ stream_response status) }
    ensures err { OnErr result (out.new.items ≡ out.old.items) }
{
    let said = said_wrong(alloc, ApiFault::Stream(status))?;
    write_said(&said, true, out)
}

/// The response where memory ran out, which takes none. The connection ends after it.
pub fn no_memory_response() -> &'static str
    ensures { result.now ≡ no_memory_text }
{
    "HTTP/1.1 503 Service Unavailable\r\n\
    Content-Type: application/json\r\n\
    Content-Length: 45\r\n\
    Access-Control-Allow-Origin: *\r\n\
    Connection: close\r\n\
    \r\n\
    {\"code\":503,\"debug\":null,\"error\":\"no memory\"}"
}
