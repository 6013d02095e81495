//! Commands that came with the token.
ghost use Rattle.std.specs.Prelude.{◌≡◌, ◌↔◌, IfSome, IfNone, IsTrue, codes};
ghost use Rattle.std.specs.Option.{option_copied};
ghost use Rattle.http.specs.Request.{body_of};
ghost use Rattle.web_pages.specs.Guard.{HasToken, value_of};
ghost use Rattle.web_pages.specs.Settings.{text_of_token};

use crate::secret::is_same_secret;
use bytes::Bytes;
use http::Request;

// Only this module makes one.
#[derive(Clone, Copy, Debug)]
struct Made;

/// The body of a request that has the token. A source receives commands only in this form, and only `permit_of` makes
/// one.
#[derive(Clone, Copy, Debug)]
pub struct Permit<'a> {
    pub line: &'a [u8],
    made: Made,
}

/// The body of a request, if commands are taken and the request has the token.
pub(crate) fn permit_of<'a>(
    token: &Option<Vec<u8>>,
    request: &'a Request<Bytes>,
) -> Option<Permit<'a>>
    ensures some { IfSome result (λ permit. HasToken (text_of_token token.now) request.now) }
    ensures line { IfSome result (λ permit. permit.line.now ≡ body_of request.now) }
    ensures none { IfNone result (¬ HasToken (text_of_token token.now) request.now) }
{
    if has_token(token, request) {
        Some(Permit {
            line: request.body().as_slice(),
            made: Made,
        })
    } else {
        None
    }
}

// Whether commands are taken and the request has the token.
fn has_token(token: &Option<Vec<u8>>, request: &Request<Bytes>) -> bool
    ensures { IsTrue result ↔ HasToken (text_of_token token.now) request.now }
{
    match (token, given_token(request)) {
        (Some(token), Some(given)) => !given.is_empty() && is_same_secret(given, token.as_slice()),
        _ => false,
    }
}

// The token that a request brings.
fn given_token(request: &Request<Bytes>) -> Option<&[u8]>
    ensures { option_copied result ≡ value_of (codes "x-console-token") request.now }
{
    match request.headers().get("x-console-token") {
        Some(value) => Some(value.as_bytes()),
        None => None,
    }
}
