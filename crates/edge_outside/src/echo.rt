ghost use Rattle.std.specs.Prelude.{◌≡◌, ◌≤◌, ◌++◌, ◌↔◌, Contains, IsErrOf, IfOk, OnOk};
ghost use Rattle.edge_outside.specs.Faults.{Rose};
ghost use Rattle.edge_outside.specs.Echo.{header_line, header_lines, request_line, echo_text, echo_of};
ghost use Rattle.edge_outside.specs.Origins.{after_call, after_failed_call};
ghost use Rattle.edge_outside.specs.declared.origin.AskFault.{AskFault};

use crate::origin::{AskFault, Origin};
use crate::text_source::Numbers;
use edge_base::{Header, Headers, Memory, Reply, Request, Text, TextBuilder};
use sqlite_items::Items;
use std::alloc::Global;
use std::marker::Model;

/// Adds the line of a header.
fn push_header(text: &mut TextBuilder, header: &Header) -> Result<(), Memory>
    ensures { OnOk result (text.new ≡ text.old ++ header_line header.now) }
{
    text.push(header.name.bytes())?;
    text.push(b": ")?;
    text.push(header.value.bytes())?;
    text.push(b"\n")
}

/// Adds a line for each header.
#[tactic(auto, using(crate::proofs::EchoLemmas::one_line_more))]
fn push_headers(text: &mut TextBuilder, headers: &[Header]) -> Result<(), Memory>
    ensures { OnOk result (text.new ≡ text.old ++ header_lines headers.now) }
{
    for header in headers {
        push_header(text, header)?;
    }
    Ok(())
}

/// Adds the first line.
fn push_request_line(text: &mut TextBuilder, request: &Request) -> Result<(), Memory>
    ensures { OnOk result (text.new ≡ text.old ++ request_line request.now) }
{
    text.push(request.method.bytes())?;
    text.push(b" ")?;
    text.push(request.target.bytes())?;
    text.push(b" ")?;
    text.push(request.version())?;
    text.push(b"\n")
}

/// A request, told as a text.
fn echo_text(alloc: Global, request: &Request) -> Result<Text, Memory>
    ensures { IfOk result (λ text. text ≡ echo_text request.now) }
{
    let mut text = TextBuilder::new(alloc);
    push_request_line(&mut text, request)?;
    push_headers(&mut text, request.headers.as_slice())?;
    text.push(request.body.bytes())?;
    Ok(text.into_text())
}

/// The reply that tells a request.
fn echo(alloc: Global, request: &Request) -> Result<Reply, Memory>
    ensures { IfOk result (λ reply. reply ≡ echo_of request.now) }
{
    let mut headers: Headers = Items::new(alloc);
    headers.push(Header {
        name: Text::of(alloc, b"content-type")?,
        value: Text::of(alloc, b"text/plain")?,
    })?;
    Ok(Reply {
        status: 200,
        headers,
        body: echo_text(alloc, request)?,
    })
}

/// An origin whose reply tells the request.
#[derive(Clone, Copy, Debug)]
pub struct EchoOrigin;

impl EchoOrigin {
    pub fn new() -> EchoOrigin {
        EchoOrigin
    }
}

impl Origin for EchoOrigin {
    ghost replies = { λ _ _ request reply. reply ≡ echo_of request };

    ghost faults = { λ _. 0 };

    /// Never fails.
    fn ask(&mut self, alloc: Global, request: &Request) -> Result<Reply, AskFault>
        ensures ok { IfOk result (λ reply. reply ≡ echo_of request.now) }
        ensures never { ¬ (IsErrOf result AskFault.Failed) }
    {
        Ok(echo(alloc, request)?)
    }
}

/// An origin some of whose calls fail, and whose other replies tell the request. Contracts see the counts.
#[derive(Debug, Drop)]
pub struct FailingOrigin {
    fail_at: Numbers,
    calls: u64,
    faults: u64,
}

impl Model for FailingOrigin {
    ghost use Rattle.edge_outside.specs.Origins.{Failing};

    ghost Value = { Failing };

    ghost view = { λ origin. record { fail_at = origin.fail_at; calls = origin.calls; faults = origin.faults } };
}

impl FailingOrigin {
    /// An origin whose calls of these numbers, from 0, fail. Takes no memory.
    pub fn new(fail_at: Numbers) -> FailingOrigin
        ensures { result ≡ record { fail_at = fail_at; calls = 0; faults = 0 } }
    {
        FailingOrigin {
            fail_at,
            calls: 0,
            faults: 0,
        }
    }
}

impl Origin for FailingOrigin {
    ghost replies = { λ _ _ request reply. reply ≡ echo_of request };

    ghost faults = { λ origin. origin.faults };

    /// Fails exactly where its number is among those that fail.
    fn ask(&mut self, alloc: Global, request: &Request) -> Result<Reply, AskFault>
        ensures ok { IfOk result (λ reply. reply ≡ echo_of request.now) }
        ensures kept { OnOk result (self.new.faults ≡ self.old.faults) }
        ensures failed { IsErrOf result AskFault.Failed → Rose self.old.faults self.new.faults }
        ensures later { self.old.faults ≤ self.new.faults }
        ensures fails { IsErrOf result AskFault.Failed ↔ Contains self.old.fail_at self.old.calls }
        ensures replied { ¬ (IsErrOf result AskFault.Failed) → self.new ≡ after_call self.old }
        ensures err { IsErrOf result AskFault.Failed → self.new ≡ after_failed_call self.old }
    {
        let call = self.calls;
        self.calls = self.calls.saturating_add(1);
        if self.fail_at.as_slice().contains(&call) {
            self.faults = self.faults.saturating_add(1);
            return Err(AskFault::Failed);
        }
        Ok(echo(alloc, request)?)
    }
}
