//! What answers the requests of a connection.

use crate::answer::{Seen, Wanted, asked_for};
use crate::html::page;
use crate::script::script;
use array_view::{ArrayView, health, kept, metrics, status};
use bytes::{BufMut, Bytes};
use http::{HeaderName, HeaderValue, Request, StatusCode, header};
use http_server::{Response, Service};
use meters::Point;
use std::alloc::{AllocError, Global};
use std::net::Ipv4Addr;

/// What collects the state of an array.
pub trait Collector {
    /// The state now, as far as this shows it: registrations are a part of the status alone.
    fn collect(&self, alloc: Global, seen: Seen) -> Result<ArrayView, AllocError>;

    /// What was counted until moments of the last ten minutes, the oldest first.
    fn recent(&self, alloc: Global) -> Result<Vec<Point>, AllocError>;
}

/// Answers requests, which came in at this address, by what is collected.
#[derive(Drop)]
pub struct Handler<'a, S: Collector> {
    alloc: Global,
    collector: &'a S,
    own: Ipv4Addr,
}

// What kinds of texts there are.
const PLAIN: &str = "text/plain; charset=utf-8";

const MEASURED: &str = "text/plain; version=0.0.4; charset=utf-8";

const JSON: &str = "application/json";

const HTML: &str = "text/html; charset=utf-8";

/// What the page may do: run what stands in it, and ask where it came from.
const POLICY: &str =
    "default-src 'none'; style-src 'unsafe-inline'; script-src 'unsafe-inline'; connect-src 'self'; img-src data:";

// Calls of the library, each by one that promises nothing: what these promise would be a part of each proof below.
fn add_header(
    response: &mut Response,
    name: HeaderName,
    value: HeaderValue,
) -> Result<(), AllocError> {
    response.add_header(name, value)
}

fn put_body(response: &mut Response, body: Bytes) -> Result<(), AllocError> {
    response.body.push(body)
}

fn put_text(response: &mut Response, text: &[u8]) -> Result<(), AllocError> {
    response.body.put_slice(text)
}

// Adds a header whose value is written out.
macro_rules! add {
    ($response:expr, $name:expr, $value:expr) => {
        add_header($response, $name, HeaderValue::from_static($value))
    };
}

// Gives an answer its body.
fn fill(response: &mut Response, kind: HeaderValue, body: Vec<u8>) -> Result<(), AllocError> {
    let named = add_header(response, header::CONTENT_TYPE, kind);
    let filled = put_body(response, Bytes::from_vec(body)?);
    named.and(filled)
}

// A short answer.
fn say(response: &mut Response, status: StatusCode, text: &[u8]) -> Result<(), AllocError> {
    response.status = status;
    add!(response, header::CONTENT_TYPE, PLAIN).and(put_text(response, text))
}

// What is seen, in one of these forms: its text, and of what kind that is.
fn text_of(alloc: Global, view: &ArrayView, seen: Seen) -> Result<Vec<u8>, AllocError> {
    match seen {
        Seen::Metrics => Ok(metrics(alloc, view)?.into_bytes()),
        Seen::Status => status(alloc, view),
        Seen::Health => Ok(health(alloc, view)?.into_bytes()),
    }
}

fn kind_of(seen: Seen) -> HeaderValue {
    match seen {
        Seen::Metrics => HeaderValue::from_static(MEASURED),
        Seen::Status => HeaderValue::from_static(JSON),
        Seen::Health => HeaderValue::from_static(PLAIN),
    }
}

// What is seen. Where anything is wrong, the status of an answer on health says so too.
fn tell_seen(
    alloc: Global,
    view: &ArrayView,
    seen: Seen,
    response: &mut Response,
) -> Result<(), AllocError> {
    let text = text_of(alloc, view, seen)?;
    if let Seen::Health = seen
        && !view.problems.is_empty()
    {
        response.status = StatusCode::SERVICE_UNAVAILABLE;
    }
    fill(response, kind_of(seen), text)
}

// What was counted of late.
fn tell_recent(
    alloc: Global,
    points: Vec<Point>,
    response: &mut Response,
) -> Result<(), AllocError> {
    let text = kept(alloc, points)?;
    fill(response, HeaderValue::from_static(JSON), text)
}

fn put_static(response: &mut Response, text: &'static str) -> Result<(), AllocError> {
    put_body(response, Bytes::from_static(text.as_bytes()))
}

// The page.
fn tell_page(response: &mut Response) -> Result<(), AllocError> {
    add!(response, header::CONTENT_TYPE, HTML)
        .and(add!(response, header::CONTENT_SECURITY_POLICY, POLICY))
        .and(put_static(response, page()))
        .and(put_static(response, script()))
}

// That nothing can be done here.
fn refuse(response: &mut Response) -> Result<(), AllocError> {
    let allowed = add!(response, header::ALLOW, "GET, HEAD");
    let text = b"only GET and HEAD\n";
    allowed.and(say(response, StatusCode::METHOD_NOT_ALLOWED, text))
}

// That the request was meant for another server.
fn mislead(response: &mut Response) -> Result<(), AllocError> {
    let text = b"ask by the address of the array, or as localhost\n";
    say(response, StatusCode::MISDIRECTED_REQUEST, text)
}

// The field Host of a request; one that is no text is no name that is known.
fn host_of(request: &Request<Bytes>) -> Option<&str> {
    match request.headers().get(header::HOST) {
        Some(value) => Some(value.to_str().unwrap_or("")),
        None => None,
    }
}

impl<'a, S: Collector> Handler<'a, S> {
    /// Which answers by what this collects what comes in at this address.
    pub fn new(alloc: Global, collector: &'a S, own: Ipv4Addr) -> Handler<'a, S> {
        Handler {
            alloc,
            collector,
            own,
        }
    }

    // Answers by what is seen now.
    fn show(&self, seen: Seen, response: &mut Response) -> Result<(), AllocError> {
        let view = self.collector.collect(self.alloc, seen)?;
        tell_seen(self.alloc, &view, seen, response)
    }

    // Answers what is asked.
    fn tell(&self, wanted: Wanted, response: &mut Response) -> Result<(), AllocError> {
        match wanted {
            Wanted::Page => tell_page(response),
            Wanted::Seen(seen) => self.show(seen, response),
            Wanted::Recent => tell_recent(self.alloc, self.collector.recent(self.alloc)?, response),
            Wanted::Nothing => say(response, StatusCode::NOT_FOUND, b"not found\n"),
            Wanted::Deed => refuse(response),
            Wanted::Misled => mislead(response),
        }
    }
}

// What every answer says.
fn put_common(response: &mut Response) -> Result<(), AllocError> {
    add!(response, header::CONNECTION, "close")
        .and(add!(response, header::CACHE_CONTROL, "no-store"))
        .and(add!(response, header::X_CONTENT_TYPE_OPTIONS, "nosniff"))
}

impl<S: Collector> Service for Handler<'_, S> {
    ghost answers = { λ old request response new. Unit {0} };

    fn call(
        &mut self,
        request: &Request<Bytes>,
        response: &mut Response,
    ) -> Result<(), AllocError> {
        put_common(response)?;
        let (method, path) = (request.method().as_str(), request.uri().path());
        let wanted = asked_for(method, path, host_of(request), self.own);
        self.tell(wanted, response)
    }
}
