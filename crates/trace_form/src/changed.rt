ghost use Rattle.std.specs.Prelude.{◌≡◌, ◌++◌, codes, OnOk, OnErr};
ghost use Rattle.std.specs.Io.{StartsWith};
ghost use Rattle.trace_form.specs.Line.{header_text, more_headers_text, headers_text, are_same_headers, changed_text, reply_text};

use edge_base::{Header, Headers, Memory, TextBuilder};

/// A header, both parts escaped.
fn push_header(out: &mut TextBuilder, header: &Header) -> Result<(), Memory>
    ensures ok { OnOk result (out.new ≡ out.old ++ header_text header.now) }
    ensures err { OnErr result (StartsWith out.new out.old) }
{
    out.push_escaped(header.name.bytes())?;
    out.push(b":")?;
    out.push_escaped(header.value.bytes())
}

/// More headers, each after a comma.
fn push_more_headers(out: &mut TextBuilder, headers: &[Header]) -> Result<(), Memory>
    ensures ok { OnOk result (out.new ≡ out.old ++ more_headers_text headers.now) }
    ensures err { OnErr result (StartsWith out.new out.old) }
{
    for header in headers {
        out.push(b",")?;
        push_header(out, header)?;
    }
    Ok(())
}

/// The headers in order, or a dash.
fn push_headers(out: &mut TextBuilder, headers: &[Header]) -> Result<(), Memory>
    ensures ok { OnOk result (out.new ≡ out.old ++ headers_text headers.now) }
    ensures err { OnErr result (StartsWith out.new out.old) }
{
    match headers.split_first() {
        Some((first, rest)) => {
            push_header(out, first)?;
            push_more_headers(out, rest)
        }
        None => out.push(b"-"),
    }
}

/// Whether these are the same headers in the same order, with their spelling.
fn are_same_headers(before: &[Header], after: &[Header]) -> bool
    ensures { result ≡ are_same_headers before.now after.now }
{
    before == after
}

/// The word and the headers as they are now, where they were changed.
fn push_changed(
    out: &mut TextBuilder,
    word: &[u8],
    before: &[Header],
    after: &[Header],
) -> Result<(), Memory>
    ensures ok { OnOk result (out.new ≡ out.old ++ changed_text word.now before.now after.now) }
    ensures err { OnErr result (StartsWith out.new out.old) }
{
    if are_same_headers(before, after) {
        return Ok(());
    }
    out.push(word)?;
    push_headers(out, after)
}

/// The headers of a request, where they were changed.
pub(crate) fn push_request(
    out: &mut TextBuilder,
    came: &[Header],
    now: &[Header],
) -> Result<(), Memory>
    ensures ok { OnOk result (out.new ≡ out.old ++ changed_text (codes " req=") came.now now.now) }
    ensures err { OnErr result (StartsWith out.new out.old) }
{
    push_changed(out, b" req=", came, now)
}

/// The headers of a reply, where there is a reply and they were changed.
pub(crate) fn push_reply(
    out: &mut TextBuilder,
    reply: &Option<(Headers, Headers)>,
) -> Result<(), Memory>
    ensures ok { OnOk result (out.new ≡ out.old ++ reply_text reply.now) }
    ensures err { OnErr result (StartsWith out.new out.old) }
{
    match reply {
        Some((before, after)) => {
            push_changed(out, b" rep=", before.as_slice(), after.as_slice())
        }
        None => Ok(()),
    }
}
