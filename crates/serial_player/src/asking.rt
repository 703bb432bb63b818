//! How a run answers asks: plain requests, and what the HTTP streams of clients ask.

ghost use Rattle.std.specs.Prelude.{◌≡◌, ◌<◌, ◌^◌, ◌⊎◌, IfOk, OnOk, length};
ghost use Rattle.api_routes.specs.Answer.{IsServed, OnStill};
ghost use Rattle.http_wire.specs.Response.{IsStatus};
ghost use Rattle.io_caps.specs.declared.limits.TheConstants.{CLIENTS};
ghost use Rattle.book_words.specs.History.{stamp};
ghost use Rattle.book_words.specs.declared.history.Said.TheVariants.{Http};
ghost use Rattle.serial_player.specs.Run.{HasAsked, IsRun, IsShort, counts_claims};
ghost use Rattle.serial_player.specs.declared.asks.ClientAsk.TheVariants.{Asked, Refused, Whole};

use crate::run::Run;
use api_routes::{Answered, Routes, refuse_stream, serve_request};
use http_wire::HttpRequest;
use io_caps::{Bytes, NoMemory};
use map_entry::Setup;
use plain_book::{Desk, PlainDesk, ReplyItem, Request, Said, Stamp};
use std::alloc::Global;

/// As long as a response may be: with the 18 bytes that stand before it, it fills a record of a
/// result.
const MOST_RESPONSE: usize = u32::MAX as usize - 18;

/// The words of a response. A longer one than a record can hold is out of memory; no capture that
/// a command reads brings one.
fn say_response(response: Vec<u8>) -> Result<Said, NoMemory>
    ensures value { IfOk result (λ said. said ≡ Http response.items) }
    ensures short { IfOk result IsShort }
{
    if response.len() > MOST_RESPONSE {
        return Err(NoMemory);
    }
    Ok(Said::Http(Bytes::from_vec(response)))
}

/// The place after all calls and claims.
fn place(desk: &PlainDesk) -> Stamp
    ensures value { result ≡ stamp (length desk.now.journal) desk.now.claims }
    ensures few { length desk.now.journal < 256 ^ 8 }
{
    Stamp {
        calls: desk.journal().len() as u64,
        claims: desk.claims(),
    }
}

/// Serves a request over the book of a setup.
fn serve_over(
    alloc: Global,
    setup: &Setup,
    routes: &Routes,
    desk: &mut PlainDesk,
    client: u8,
    http: &HttpRequest,
    out: &mut Vec<u8>,
) -> Result<Answered, NoMemory>
    ensures served { IfOk result (IsServed setup.now.device http.now desk.old.setup client
        desk.old.journal desk.new.journal (counts_claims desk.old.claims) out.old.items
        out.new.items) }
    ensures still { IfOk result (λ answered. OnStill answered (desk.new ≡ desk.old)) }
    ensures setup { desk.new.setup ≡ desk.old.setup }
    ensures keeps { (desk.new ≡ desk.old) ⊎ (desk.old.claims ≡ desk.new.claims) }
{
    match serve_request(alloc, routes, &setup.device, desk, client, http, out) {
        Ok(answered) => Ok(answered),
        Err(_) => Err(NoMemory),
    }
}

impl Run {
    /// Answers a client's plain request at the calls and claims so far.
    pub(crate) fn ask(&mut self, client: u8, request: &Request) -> Result<(), NoMemory>
        requires client { client < CLIENTS }
        requires run { IsRun self.old.setup self.old }
        ensures { OnOk result (HasAsked client (Asked request.now) self.old self.new) }
    {
        let (reply, stamp) = self.desk.ask(client, request)?;
        self.replies
            .push(ReplyItem::new(client, stamp, Said::Plain(reply)))?;
        self.floors.go_on(client, place(&self.desk));
        Ok(())
    }

    /// Answers a whole request of a client's stream: by the book where it is to be asked, and else
    /// at the place from which the client goes on.
    pub(crate) fn serve(&mut self, client: u8, http: &HttpRequest) -> Result<(), NoMemory>
        requires client { client < CLIENTS }
        requires run { IsRun self.old.setup self.old }
        ensures { OnOk result (HasAsked client (Whole http.now) self.old self.new) }
    {
        let mut response = Vec::new(self.alloc);
        match serve_over(
            self.alloc,
            &self.setup,
            &self.routes,
            &mut self.desk,
            client,
            http,
            &mut response,
        )? {
            Answered::Still => {
                let floor = self.floors.of(client);
                let said = say_response(response)?;
                self.replies.push(ReplyItem::new(client, floor, said))
            }
            Answered::At(stamp) => {
                let said = say_response(response)?;
                self.replies.push(ReplyItem::new(client, stamp, said))?;
                self.floors.go_on(client, place(&self.desk));
                Ok(())
            }
        }
    }

    /// Answers a client whose stream is refused, at the place from which it goes on.
    pub(crate) fn refuse(&mut self, client: u8, status: u16) -> Result<(), NoMemory>
        requires client { client < CLIENTS }
        requires run { IsRun self.old.setup self.old }
        requires status { IsStatus status }
        ensures { OnOk result (HasAsked client (Refused status) self.old self.new) }
    {
        let mut response = Vec::new(self.alloc);
        refuse_stream(self.alloc, status, &mut response)?;
        let floor = self.floors.of(client);
        let said = say_response(response)?;
        self.replies.push(ReplyItem::new(client, floor, said))
    }
}
