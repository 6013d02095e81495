//! Which requests are taken at all.
ghost use Rattle.std.specs.Prelude.{◌≡◌, ◌↔◌, IsTrue, codes};
ghost use Rattle.std.specs.Option.{option_copied};
ghost use Rattle.web_pages.specs.Guard.{IsFor, IsFromOtherSite, HasPlainTarget, IsJudged, IsReading, bare_host, host_key, value_of};

use bytes::Bytes;
use http::Request;

/// The names by which the console is reached, as a request's `Host` has them, but for case, and for a port 80 that is
/// left out. They let the console refuse a page of another site that has its own name lead here.
#[derive(Debug, Drop)]
pub struct Names {
    /// The address with its port.
    pub first: Vec<u8>,
    /// Another name with the port.
    pub second: Vec<u8>,
}

/// What to do with a request for the console.
#[derive(Clone, Copy, Debug, PartialEq, Eq)]
pub(crate) enum Verdict {
    /// It reads.
    Read,
    /// It has a command.
    Command,
    /// Another site's page asks.
    OtherSite,
    /// It is neither.
    NotAllowed,
    /// Its target names a scheme or a host, or it has two hosts.
    BadTarget,
}

/// Whether two texts are the same.
pub(crate) fn is_same(one: &[u8], other: &[u8]) -> bool
    ensures { IsTrue result ↔ (one.now ≡ other.now) }
{
    one == other
}

// The first value of a request's `Host`.
fn host_of(request: &Request<Bytes>) -> Option<&[u8]>
    ensures { option_copied result ≡ value_of (codes "host") request.now }
{
    match request.headers().get("host") {
        Some(value) => Some(value.as_bytes()),
        None => None,
    }
}

// What a browser says of the page that asks.
fn site_of(request: &Request<Bytes>) -> Option<&[u8]>
    ensures { option_copied result ≡ value_of (codes "sec-fetch-site") request.now }
{
    match request.headers().get("sec-fetch-site") {
        Some(value) => Some(value.as_bytes()),
        None => None,
    }
}

// A host without the port that browsers leave out.
fn bare_host(host: &[u8]) -> &[u8]
    ensures { result.now ≡ bare_host host.now }
{
    match host.strip_suffix(b":80".as_slice()) {
        Some(bare) => bare,
        None => host,
    }
}

// Whether two hosts are the same.
fn is_same_host(one: &[u8], other: &[u8]) -> bool
    ensures { IsTrue result ↔ (host_key one.now ≡ host_key other.now) }
{
    bare_host(one).eq_ignore_ascii_case(bare_host(other))
}

/// Whether a request is for one of the names.
pub(crate) fn is_for(names: &Names, request: &Request<Bytes>) -> bool
    ensures { IsTrue result ↔ IsFor names.now.first.items names.now.second.items request.now }
{
    match host_of(request) {
        Some(host) => {
            is_same_host(host, names.first.as_slice())
                || is_same_host(host, names.second.as_slice())
        }
        None => false,
    }
}

/// What to do with a request for the console.
pub(crate) fn judge(request: &Request<Bytes>) -> Verdict
    ensures { IsJudged result request.now }
{
    if is_other_site(request) {
        Verdict::OtherSite
    } else if !has_plain_target(request) {
        Verdict::BadTarget
    } else if is_reading(request) {
        Verdict::Read
    } else if request.method().as_str() == "POST" {
        Verdict::Command
    } else {
        Verdict::NotAllowed
    }
}

// Whether a browser says that another site's page asks.
fn is_other_site(request: &Request<Bytes>) -> bool
    ensures { IsTrue result ↔ IsFromOtherSite request.now }
{
    match site_of(request) {
        Some(site) => {
            is_same(site, b"cross-site".as_slice()) || is_same(site, b"same-site".as_slice())
        }
        None => false,
    }
}

// Whether the target names neither scheme nor host, and there is one Host.
fn has_plain_target(request: &Request<Bytes>) -> bool
    ensures { IsTrue result ↔ HasPlainTarget request.now }
{
    request.uri().scheme_str().is_none()
        && request.uri().authority().is_none()
        && request.headers().get_all("host").iter().count() == 1
}

// Whether the method reads.
fn is_reading(request: &Request<Bytes>) -> bool
    ensures { IsTrue result ↔ IsReading request.now }
{
    let method = request.method().as_str();
    method == "GET" || method == "HEAD"
}
