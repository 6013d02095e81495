//! The headers of what is served.
ghost use Rattle.std.specs.Prelude.{◌≡◌, OnOk};
ghost use Rattle.http_header.specs.FieldValue.{plain_value};
ghost use Rattle.http_server.specs.Response.{IsBlank, fields_of};
ghost use Rattle.web_pages.specs.Headers.{headers_for, kind_text};

use crate::route::Route;
use http::{HeaderValue, header};
use http_server::Response;
use std::alloc::AllocError;

/// The content security policy: nothing comes from elsewhere, and of what is in the page only its own style and script
/// are used, by their hashes.
pub(crate) const POLICY: &str =
    "default-src 'none'; style-src 'sha256-gf3cq0kDFoC96Z2bwCYJq7cSQrk5CH1ojiVzdORX69c='; script-src 'sha256-fnUlQJHnGX/1mCv1/CxwEC8GWju1NlLDwpcnVxoHSas='; connect-src 'self'; base-uri 'none'; form-action 'none'; frame-ancestors 'none'";

/// Adds the headers of what is at a route.
pub(crate) fn add_headers(route: Route, response: &mut Response) -> Result<(), AllocError>
    requires { IsBlank response.old }
    ensures headers { OnOk result (fields_of response.new ≡ headers_for (kind_text route) POLICY.now) }
    ensures body { response.new.body ≡ response.old.body }
    ensures status { response.new.status ≡ response.old.status }
{
    response.add_header(header::CONTENT_TYPE, kind_of(route))?;
    response.add_header(header::CACHE_CONTROL, HeaderValue::from_static("no-store"))?;
    response.add_header(
        header::X_CONTENT_TYPE_OPTIONS,
        HeaderValue::from_static("nosniff"),
    )?;
    response.add_header(header::X_FRAME_OPTIONS, HeaderValue::from_static("DENY"))?;
    response.add_header(
        header::REFERRER_POLICY,
        HeaderValue::from_static("no-referrer"),
    )?;
    response.add_header(
        header::CONTENT_SECURITY_POLICY,
        HeaderValue::from_static(POLICY),
    )
}

// What kind of text is at a route.
fn kind_of(route: Route) -> HeaderValue
    ensures { result ≡ plain_value (kind_text route) }
{
    match route {
        Route::Page => HeaderValue::from_static("text/html; charset=utf-8"),
        Route::Status | Route::Windows => HeaderValue::from_static("application/json"),
        Route::Events => HeaderValue::from_static("text/event-stream"),
        Route::Metrics => HeaderValue::from_static("text/plain; version=0.0.4; charset=utf-8"),
        Route::Health | Route::Command => HeaderValue::from_static("text/plain; charset=utf-8"),
    }
}
