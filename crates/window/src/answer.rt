//! What is answered to a request.

use std::net::Ipv4Addr;

/// What is seen of the array, in one of its forms.
#[derive(Clone, Copy)]
pub enum Seen {
    Metrics,
    Status,
    Health,
}

/// What a request asks for.
#[derive(Clone, Copy)]
pub enum Wanted {
    Page,
    Seen(Seen),
    /// What was counted until moments of the last ten minutes.
    Recent,
    /// Nothing that there is.
    Nothing,
    /// To do what is not allowed.
    Deed,
    /// It was meant for another server: a browser was led here by a name.
    Misled,
}

// The host of such a value, without the port behind it.
fn without_port(value: &str) -> &str {
    match value.rsplit_once(':') {
        Some((host, _)) => host,
        None => value,
    }
}

// Whether a request with this field Host, which came in at this address, was meant for it, or for the name that a machine gives itself.
// The owner of any other name may have it lead here, and a page of his that a browser has open would read the answer (DNS rebinding).
// Programs may send none.
fn is_for_us(host: Option<&str>, own: Ipv4Addr) -> bool {
    let Some(value) = host else {
        return true;
    };
    let host = without_port(value);
    match host.parse::<Ipv4Addr>() {
        Ok(address) => address == own,
        Err(_) => host.eq_ignore_ascii_case("localhost"),
    }
}

/// What a request with this method, this path and this field Host asks for, which came in at this address. HEAD is GET without a body.
pub fn asked_for(method: &str, path: &str, host: Option<&str>, own: Ipv4Addr) -> Wanted {
    if !is_for_us(host, own) {
        return Wanted::Misled;
    }
    if method != "GET" && method != "HEAD" {
        return Wanted::Deed;
    }
    match path {
        "/" => Wanted::Page,
        "/metrics" => Wanted::Seen(Seen::Metrics),
        "/status" => Wanted::Seen(Seen::Status),
        "/health" => Wanted::Seen(Seen::Health),
        "/recent" => Wanted::Recent,
        _ => Wanted::Nothing,
    }
}
