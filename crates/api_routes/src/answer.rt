//! What is answered.

ghost use Rattle.std.specs.Prelude.{◌≡◌, ◌++◌, [], IfOk, OnOk, OnErr, eqb, find};
ghost use Rattle.std.specs.Option.{option_copied};
ghost use Rattle.http_wire.specs.Response.{IsStatus};
ghost use Rattle.api_routes.specs.Answer.{said, said_item, said_pending, said_reply, said_wrong};
ghost use Rattle.api_routes.specs.Answer.{only_of, text_said};
ghost use Rattle.channel_json.specs.Activations.{accepted_text, active_text};
ghost use Rattle.channel_json.specs.Resources.{IsThere, resource_text};
ghost use Rattle.http_wire.specs.declared.response.Extra.TheVariants.{Nothing, Preflight};
ghost use Rattle.book_words.specs.Calls.{action_of, when_of};

use crate::plan::Part;
use crate::wrong::ApiFault;
use channel_json::{
    Resource, activation_body, active_body, error_body, item_body, pending_body, resource_body,
};
use http_wire::{Extra, status, write_response};
use io_caps::{Bytes, Device, NoMemory};
use map_entry::Action;
use plain_book::{ActiveView, PendingItem, PendingItems, Reply, Request, When};
use std::alloc::Global;

/// A status, what is said besides, and a body.
#[derive(Debug, Drop)]
pub(crate) struct Answer {
    pub(crate) status: u16,
    pub(crate) extra: Extra,
    pub(crate) body: Bytes,
}

/// What is said with a body and nothing besides.
fn plain(status: u16, body: Vec<u8>) -> Answer
    ensures { result ≡ said status Nothing body.items }
{
    Answer {
        status,
        extra: Extra::Nothing,
        body: Bytes::from_vec(body),
    }
}

/// What is said of something wrong.
pub(crate) fn said_wrong(alloc: Global, wrong: ApiFault) -> Result<Answer, NoMemory>
    ensures { IfOk result (λ made. made ≡ said_wrong wrong) }
{
    let status = wrong.status();
    let mut body = Vec::new(alloc);
    error_body(alloc, status, wrong.text(), &mut body)?;
    Ok(Answer {
        status,
        extra: wrong.extra(),
        body: Bytes::from_vec(body),
    })
}

/// What is said of what may be asked for.
pub(crate) fn said_preflight(alloc: Global) -> Answer
    ensures { result ≡ said 200 Preflight [] }
{
    Answer {
        status: status::OK,
        extra: Extra::Preflight,
        body: Bytes::new(alloc),
    }
}

/// What is said of a resource that is there.
pub(crate) fn said_resource(
    alloc: Global,
    device: &Device,
    resource: Resource,
) -> Result<Answer, NoMemory>
    requires { IsThere device.now resource }
    ensures { IfOk result (λ made. made ≡ said 200 Nothing (resource_text device.now resource)) }
{
    let mut body = Vec::new(alloc);
    resource_body(alloc, device, resource, &mut body)?;
    Ok(plain(status::OK, body))
}

/// What is said of an accepted activation.
fn said_accepted(
    alloc: Global,
    device: &Device,
    status: u16,
    id: u64,
    tick: u64,
    offset: u16,
    request: &Request,
) -> Result<Answer, NoMemory>
    ensures { IfOk result (λ made. made ≡ said status Nothing
        (accepted_text device.now id (when_of request.now) tick offset (action_of request.now))) }
{
    let mut body = Vec::new(alloc);
    match request {
        Request::Activate { when, action } => {
            activation_body(alloc, device, id, when, tick, offset, action, &mut body)?;
        }
        // No book accepts another request so: it names no time and no output.
        Request::Delete { .. } | Request::Active | Request::Pending => {
            let action = Action::new(alloc);
            activation_body(
                alloc,
                device,
                id,
                &When::Now,
                tick,
                offset,
                &action,
                &mut body,
            )?;
        }
    }
    Ok(plain(status, body))
}

/// The pending activation of an id.
fn find_item(items: &[PendingItem], id: u64) -> Option<&PendingItem>
    ensures { option_copied result ≡ find (λ item. eqb item.id id) items.now }
{
    items.iter().find(|item| item.id == id)
}

/// What is said of a pending activation, or of that there is none.
fn said_item(alloc: Global, device: &Device, item: Option<&PendingItem>) -> Result<Answer, NoMemory>
    ensures { IfOk result (λ made. made ≡ said_item device.now (option_copied item.entry)) }
{
    match item {
        Some(item) => {
            let mut body = Vec::new(alloc);
            item_body(alloc, device, item, &mut body)?;
            Ok(plain(status::OK, body))
        }
        None => said_wrong(alloc, ApiFault::NoActivation),
    }
}

/// What is said of the pending activations.
fn said_pending(
    alloc: Global,
    device: &Device,
    items: &PendingItems,
    part: Part,
) -> Result<Answer, NoMemory>
    ensures { IfOk result (λ made. made ≡ said_pending device.now part items.now) }
{
    match part {
        Part::Item(id) => said_item(alloc, device, find_item(items.as_slice(), id)),
        Part::Whole | Part::Row(_) => {
            let mut body = Vec::new(alloc);
            pending_body(alloc, device, items, &mut body)?;
            Ok(plain(status::OK, body))
        }
    }
}

fn only_of(part: Part) -> Option<u8>
    ensures { result ≡ only_of part }
{
    match part {
        Part::Row(output) => Some(output),
        Part::Whole | Part::Item(_) => None,
    }
}

fn said_active(
    alloc: Global,
    device: &Device,
    view: &ActiveView,
    part: Part,
) -> Result<Answer, NoMemory>
    ensures { IfOk result (λ made. made ≡ said 200 Nothing
        (active_text device.now view.now (only_of part))) }
{
    let mut body = Vec::new(alloc);
    active_body(alloc, device, view, only_of(part), &mut body)?;
    Ok(plain(status::OK, body))
}

/// What is said of a book's reply to a request.
pub(crate) fn said_reply(
    alloc: Global,
    device: &Device,
    request: &Request,
    part: Part,
    reply: &Reply,
) -> Result<Answer, NoMemory>
    ensures { IfOk result (λ made. made ≡ said_reply device.now request.now part reply.now) }
{
    match reply {
        Reply::Activated { id, tick, offset } => {
            said_accepted(alloc, device, status::OK, *id, *tick, *offset, request)
        }
        Reply::Scheduled { id, tick, offset } => {
            said_accepted(
                alloc,
                device,
                status::ACCEPTED,
                *id,
                *tick,
                *offset,
                request,
            )
        }
        Reply::Deleted { .. } => Ok(plain(status::NO_CONTENT, Vec::new(alloc))),
        Reply::Active(view) => said_active(alloc, device, view, part),
        Reply::Pending(items) => said_pending(alloc, device, items, part),
        Reply::Refused(refusal) => said_wrong(alloc, ApiFault::Refused(*refusal)),
    }
}

/// Appends the response with what is said. If memory runs out, `out` stays as it was.
pub(crate) fn write_said(said: &Answer, closes: bool, out: &mut Vec<u8>) -> Result<(), NoMemory>
    requires { IsStatus said.now.status }
    ensures ok { OnOk result (out.new.items ≡ out.old.items ++ text_said closes said.now) }
    ensures err { OnErr result (out.new.items ≡ out.old.items) }
{
    write_response(said.status, said.extra, closes, said.body.as_slice(), out)
}
