//! What clients ask, and what the records of a capture do, as steps over the book.

ghost use Rattle.std.specs.Prelude.{◌≡◌, ◌++◌, ◌∷◌, [], IfOk, OnOk};
ghost use Rattle.serial_player.specs.Serial.{asks_in};

use http_wire::HttpRequest;
use io_caps::{ListOf, NoMemory, TryCopy};
use plain_book::Request;
use std::alloc::Global;

/// An ask of a client.
#[derive(Debug, Drop)]
pub enum ClientAsk {
    /// A plain request.
    Asked(Request),
    /// A request of the client's HTTP stream, which has come whole.
    Whole(HttpRequest),
    /// The client's HTTP stream is refused with this status.
    Refused(u16),
}

/// Asks, in order.
pub type ClientAsks = ListOf<ClientAsk>;

/// A step of a run over the book.
#[derive(Debug, Drop)]
pub enum Step {
    /// This many claims are made.
    Claims(u32),
    /// A client's ask is answered.
    Ask { client: u8, ask: ClientAsk },
}

/// Steps, in order.
pub type Steps = ListOf<Step>;

impl TryCopy for ClientAsk {
    fn copy(&self) -> Result<ClientAsk, NoMemory> {
        match self {
            ClientAsk::Asked(request) => Ok(ClientAsk::Asked(request.copy()?)),
            ClientAsk::Whole(http) => Ok(ClientAsk::Whole(http.copy()?)),
            ClientAsk::Refused(status) => Ok(ClientAsk::Refused(*status)),
        }
    }
}

impl TryCopy for Step {
    fn copy(&self) -> Result<Step, NoMemory> {
        match self {
            Step::Claims(count) => Ok(Step::Claims(*count)),
            Step::Ask { client, ask } => Ok(Step::Ask {
                client: *client,
                ask: ask.copy()?,
            }),
        }
    }
}

/// Adds a step's ask to those of a client, if it is one of this client.
fn push_ask(step: &Step, client: u8, made: &mut ClientAsks) -> Result<(), NoMemory>
    ensures { OnOk result (made.new ≡ made.old ++ asks_in client (step.now ∷ [])) }
{
    match step {
        Step::Ask { client: of, ask } if *of == client => made.push(ask.copy()?),
        _ => Ok(()),
    }
}

/// Returns the asks of a client among steps, in order.
pub fn asks_in(alloc: Global, steps: &[Step], client: u8) -> Result<ClientAsks, NoMemory>
    ensures { IfOk result (λ made. made ≡ asks_in client steps.now) }
{
    let mut made = ClientAsks::new(alloc);
    for step in steps {
        push_ask(step, client, &mut made)?;
    }
    Ok(made)
}
