//! What is said to be wrong.

ghost use Rattle.std.specs.Prelude.{◌≡◌};
ghost use Rattle.api_routes.specs.Wrongs.{body_text, extra_of, place_text, refusal_status};
ghost use Rattle.api_routes.specs.Wrongs.{refusal_text, row_text, status_of, stream_text, text_of};

use channel_json::{BodyFault, Place};
use http_wire::{Extra, status};
use map_entry::RowFault;
use plain_book::Refusal;

/// What is wrong with a request.
#[derive(Clone, Copy, Debug, PartialEq)]
pub(crate) enum ApiFault {
    /// The path has no resource, or what it names is not there.
    NoResource,
    /// The resource has no such method; it has these.
    NoMethod(Extra),
    /// The body is not as it should be.
    Body(BodyFault),
    /// No activation of this id is pending.
    NoActivation,
    /// The book refuses it.
    Refused(Refusal),
    /// The stream of requests is refused, with this status.
    Stream(u16),
    /// Memory ran out.
    NoMemory,
}

fn refusal_status(refusal: Refusal) -> u16
    ensures { result ≡ refusal_status refusal }
{
    match refusal {
        Refusal::Locked { .. } => status::LOCKED,
        Refusal::NotPending { .. } => status::NOT_FOUND,
        Refusal::Empty
        | Refusal::Unknown { .. }
        | Refusal::BadChannel { .. }
        | Refusal::Row { .. }
        | Refusal::Time => status::BAD_REQUEST,
    }
}

fn place_text(place: Place) -> &'static str
    ensures { result.now ≡ place_text place }
{
    match place {
        Place::Top => "body shape: top",
        Place::Activation => "body shape: activation",
        Place::Mode => "body shape: mode",
        Place::Time => "body shape: time",
        Place::Action => "body shape: action",
        Place::Output => "body shape: output",
        Place::Cell => "body shape: cell",
    }
}

fn body_text(fault: BodyFault) -> &'static str
    ensures { result.now ≡ body_text fault }
{
    match fault {
        BodyFault::NotJson => "body is not JSON",
        BodyFault::Shape(place) => place_text(place),
        BodyFault::UnknownOutput => "unknown output",
        BodyFault::UnknownInput => "unknown input",
    }
}

fn row_text(fault: RowFault) -> &'static str
    ensures { result.now ≡ row_text fault }
{
    match fault {
        RowFault::Input(_) => "unknown input",
        RowFault::Channel(_) => "input channel out of range",
        RowFault::NotRoutable(_) => "input not routable",
        RowFault::Block(_) => "block not whole",
        RowFault::Order(_) => "block reordered",
    }
}

fn refusal_text(refusal: Refusal) -> &'static str
    ensures { result.now ≡ refusal_text refusal }
{
    match refusal {
        Refusal::Empty => "no output in action",
        Refusal::Unknown { .. } => "unknown output",
        Refusal::BadChannel { .. } => "output channel out of range",
        Refusal::Locked { .. } => "output locked",
        Refusal::Row { fault, .. } => row_text(fault),
        Refusal::Time => "time out of range",
        Refusal::NotPending { .. } => "no such activation",
    }
}

fn stream_text(status: u16) -> &'static str
    ensures { result.now ≡ stream_text status }
{
    match status {
        status::LENGTH_REQUIRED => "length required",
        status::CONTENT_TOO_LARGE => "body too large",
        status::FIELDS_TOO_LARGE => "head too large",
        _ => "bad request",
    }
}

impl ApiFault {
    pub(crate) fn status(self) -> u16
        ensures { result ≡ status_of self }
    {
        match self {
            ApiFault::NoResource | ApiFault::NoActivation => status::NOT_FOUND,
            ApiFault::NoMethod(_) => status::METHOD_NOT_ALLOWED,
            ApiFault::Body(_) => status::BAD_REQUEST,
            ApiFault::Refused(refusal) => refusal_status(refusal),
            ApiFault::Stream(status) => status,
            ApiFault::NoMemory => status::SERVICE_UNAVAILABLE,
        }
    }

    pub(crate) fn text(self) -> &'static str
        ensures { result.now ≡ text_of self }
    {
        match self {
            ApiFault::NoResource => "unknown resource",
            ApiFault::NoMethod(_) => "method not allowed",
            ApiFault::Body(fault) => body_text(fault),
            ApiFault::NoActivation => "no such activation",
            ApiFault::Refused(refusal) => refusal_text(refusal),
            ApiFault::Stream(status) => stream_text(status),
            ApiFault::NoMemory => "no memory",
        }
    }

    /// What is said besides: the methods that there are.
    pub(crate) fn extra(self) -> Extra
        ensures { result ≡ extra_of self }
    {
        match self {
            ApiFault::NoMethod(methods) => methods,
            ApiFault::NoResource
            | ApiFault::Body(_)
            | ApiFault::NoActivation
            | ApiFault::Refused(_)
            | ApiFault::Stream(_)
            | ApiFault::NoMemory => Extra::Nothing,
        }
    }
}
