//! The service: the response to each request.
ghost use Rattle.std.specs.Prelude.{◌≡◌, ◌⊎◌, ◌++◌, [], OnOk};
ghost use Rattle.http.specs.Request.{body_of};
ghost use Rattle.http_server.specs.Response.{IsBlank, fields_of};
ghost use Rattle.web_pages.specs.Answers.{IsAnswered, IsAt, IsObeyed, IsPage, IsPostedAt, IsReadAt, IsRefused, IsShown, IsWrongMethod, last_seen, status_of};
ghost use Rattle.web_pages.specs.Guard.{IsFor, HasToken};
ghost use Rattle.web_pages.specs.Page.{whole_page};
ghost use Rattle.web_pages.specs.Routes.{asked_route};
ghost use Rattle.web_pages.specs.Settings.{settings_of, source_of, token_of};

use crate::command::is_command;
use crate::guard::{Names, Verdict, is_for, judge};
use crate::headers::{POLICY, add_headers};
use crate::page::commands::COMMANDS;
use crate::page::head::HEAD;
use crate::page::live::LIVE;
use crate::page::passes::PASSES;
use crate::page::tables::TABLES;
use crate::permit::{Permit, permit_of};
use crate::route::Route;
use crate::source::{Found, Source};
use bytes::{BufMut, Bytes};
use http::{HeaderValue, Request, StatusCode, header};
use http_server::{Response, Rope, Service};
use std::alloc::{AllocError, Global};

/// What the console was started with.
#[derive(Debug, Drop)]
pub struct Settings {
    pub names: Names,
    /// The word that a command has to bring in the header `X-Console-Token`, if commands are taken at all.
    pub token: Option<Vec<u8>>,
}

/// The console, for one connection.
#[derive(Drop)]
pub struct Console<'a, S: Source> {
    alloc: Global,
    settings: &'a Settings,
    source: &'a S,
}

impl<'a, S: Source> Console<'a, S> {
    /// The console with these settings, which responds with what the source has.
    pub fn new(alloc: Global, settings: &'a Settings, source: &'a S) -> Console<'a, S>
        ensures settings { settings_of result ≡ settings.now }
        ensures source { source_of result ≡ source.now }
    {
        Console {
            alloc,
            settings,
            source,
        }
    }

    // Answers a request that is for the console.
    fn answer(&self, request: &Request<Bytes>, response: &mut Response) -> Result<(), AllocError>
        requires { IsBlank response.old }
        ensures { OnOk result (IsAnswered POLICY.now whole_page (token_of self.now) (S.shows self.now.source.now) (S.tells self.now.source.now) request.now response.new) }
    {
        match judge(request) {
            Verdict::OtherSite => refuse(response, StatusCode::FORBIDDEN),
            Verdict::BadTarget => refuse(response, StatusCode::BAD_REQUEST),
            Verdict::NotAllowed => refuse_method(request, response),
            Verdict::Read => self.answer_read(request, response),
            Verdict::Command => self.answer_command(request, response),
        }
    }

    // Answers a request that reads.
    fn answer_read(
        &self,
        request: &Request<Bytes>,
        response: &mut Response,
    ) -> Result<(), AllocError>
        requires { IsBlank response.old }
        ensures { OnOk result (IsAt (IsReadAt POLICY.now whole_page (S.shows self.now.source.now) request.now) (asked_route request.now) response.new) }
    {
        match Route::at(request.uri().path()) {
            None => refuse(response, StatusCode::NOT_FOUND),
            Some(Route::Command) => refuse_method(request, response),
            Some(Route::Page) => show_page(response),
            Some(route) => self.fill(request, route, response),
        }
    }

    // Answers a request with a command.
    fn answer_command(
        &self,
        request: &Request<Bytes>,
        response: &mut Response,
    ) -> Result<(), AllocError>
        requires { IsBlank response.old }
        ensures { OnOk result (IsAt (IsPostedAt POLICY.now (token_of self.now) (S.tells self.now.source.now) request.now) (asked_route request.now) response.new) }
    {
        match Route::at(request.uri().path()) {
            None => refuse(response, StatusCode::NOT_FOUND),
            Some(Route::Command) => match permit_of(&self.settings.token, request) {
                Some(permit) => self.pass_on(request, permit, response),
                None => refuse(response, StatusCode::FORBIDDEN),
            },
            Some(_) => refuse_method(request, response),
        }
    }

    // Answers with what the source shows at a route.
    fn fill(
        &self,
        request: &Request<Bytes>,
        route: Route,
        response: &mut Response,
    ) -> Result<(), AllocError>
        requires { IsBlank response.old }
        ensures { OnOk result (IsShown POLICY.now (S.shows self.now.source.now) request.now route response.new) }
    {
        add_headers(route, response)?;
        let mut text = Vec::new(self.alloc);
        let found = self.source.fill(route, last_id(request), &mut text)?;
        give(response, found, text)
    }

    // Passes a command on, if it is one that may be.
    fn pass_on(
        &self,
        request: &Request<Bytes>,
        permit: Permit<'_>,
        response: &mut Response,
    ) -> Result<(), AllocError>
        requires blank { IsBlank response.old }
        requires token { HasToken (token_of self.now) request.now }
        requires line { permit.line.now ≡ body_of request.now }
        ensures { OnOk result (IsObeyed POLICY.now (token_of self.now) (S.tells self.now.source.now) request.now response.new) }
    {
        if !is_command(permit.line) {
            return refuse(response, StatusCode::BAD_REQUEST);
        }
        add_headers(Route::Command, response)?;
        let mut text = Vec::new(self.alloc);
        let found = self.source.command(permit, &mut text)?;
        give(response, found, text)
    }
}

// The ID of the last event that the reader has: empty where it has none.
fn last_id(request: &Request<Bytes>) -> &[u8]
    ensures { result.now ≡ last_seen request.now }
{
    match request.headers().get("last-event-id") {
        Some(value) => value.as_bytes(),
        None => b"".as_slice(),
    }
}

// Answers with the page.
fn show_page(response: &mut Response) -> Result<(), AllocError>
    requires { IsBlank response.old }
    ensures { OnOk result (IsPage POLICY.now whole_page response.new) }
{
    show_parts(response, HEAD, TABLES, LIVE, PASSES, COMMANDS)
}

// Answers with a page in five parts.
fn show_parts(
    response: &mut Response,
    first: &str,
    second: &str,
    third: &str,
    fourth: &str,
    last: &str,
) -> Result<(), AllocError>
    requires { IsBlank response.old }
    ensures { OnOk result (IsPage POLICY.now ((((first.now ++ second.now) ++ third.now) ++ fourth.now) ++ last.now) response.new) }
{
    add_headers(Route::Page, response)?;
    put_parts(&mut response.body, first, second, third, fourth, last)
}

// Adds the parts of a text to an empty body.
fn put_parts(
    body: &mut Rope,
    first: &str,
    second: &str,
    third: &str,
    fourth: &str,
    last: &str,
) -> Result<(), AllocError>
    requires { body.old.items ≡ [] }
    ensures { OnOk result (body.new.items ≡ (((first.now ++ second.now) ++ third.now) ++ fourth.now) ++ last.now) }
{
    body.put_slice(first.as_bytes())?;
    body.put_slice(second.as_bytes())?;
    body.put_slice(third.as_bytes())?;
    body.put_slice(fourth.as_bytes())?;
    body.put_slice(last.as_bytes())
}

// Answers with a text of the source's, and with the status for whether the station answered.
fn give(response: &mut Response, found: Found, text: Vec<u8>) -> Result<(), AllocError>
    requires { response.old.body.items ≡ [] }
    ensures status { OnOk result (response.new.status ≡ status_of found) }
    ensures body { OnOk result (response.new.body.items ≡ text.items) }
    ensures headers { OnOk result (fields_of response.new ≡ fields_of response.old) }
{
    response.status = match found {
        Found::Here => StatusCode::OK,
        Found::Away => StatusCode::SERVICE_UNAVAILABLE,
    };
    response.body.push(Bytes::from_vec(text)?)
}

// Answers with a status alone.
fn refuse(response: &mut Response, status: StatusCode) -> Result<(), AllocError>
    requires { IsBlank response.old }
    ensures { OnOk result (IsRefused status response.new) }
{
    response.status = status;
    Ok(())
}

// Answers which methods the request's route takes; 404 where there is no route.
fn refuse_method(request: &Request<Bytes>, response: &mut Response) -> Result<(), AllocError>
    requires { IsBlank response.old }
    ensures { OnOk result (IsAt IsWrongMethod (asked_route request.now) response.new) }
{
    match Route::at(request.uri().path()) {
        None => refuse(response, StatusCode::NOT_FOUND),
        Some(route) => refuse_but(response, route),
    }
}

// Answers that a route takes other methods.
fn refuse_but(response: &mut Response, route: Route) -> Result<(), AllocError>
    requires { IsBlank response.old }
    ensures { OnOk result (IsWrongMethod route response.new) }
{
    response.status = StatusCode::METHOD_NOT_ALLOWED;
    let methods = match route {
        Route::Command => HeaderValue::from_static("POST"),
        _ => HeaderValue::from_static("GET, HEAD"),
    };
    response.add_header(header::ALLOW, methods)
}

impl<'a, S: Source> Service for Console<'a, S> {
    ghost use Rattle.web_pages.specs.declared.headers.TheConstants.{POLICY};

    // The console stays as it is. A request that is not for one of its names gets 403, with no header and no body. Any
    // other gets the answer that is defined for it.
    ghost answers = { λ old request response new. (new ≡ old)
        × (((¬ IsFor old.settings.now.names.first.items old.settings.now.names.second.items request) × IsRefused 403 response)
        ⊎ (IsFor old.settings.now.names.first.items old.settings.now.names.second.items request
        × IsAnswered POLICY.now whole_page (token_of old) (S.shows old.source.now) (S.tells old.source.now) request response)) };

    fn call(
        &mut self,
        request: &Request<Bytes>,
        response: &mut Response,
    ) -> Result<(), AllocError> {
        if !is_for(&self.settings.names, request) {
            response.status = StatusCode::FORBIDDEN;
            return Ok(());
        }
        self.answer(request, response)
    }
}
