// Reads requests.

ghost use Rattle.std.specs.Prelude.{◌≡◌, ◌≤◌, Ok, IfOk, IfErr};
ghost use Rattle.sso_http.specs.Input.{FaultRose};
ghost use Rattle.sso_http.specs.Judging.{IsJudged, RefusesHead};
ghost use Rattle.sso_http.specs.Requests.{with_body as with_body_of, IsAskRead, IsRefused};

use crate::input::{read_body, read_head};
use crate::judge::{Judged, judge};
use crate::no::HttpNo;
use server_desk::Source;
use sso_base::{Ask, Blob, Text};
use std::alloc::Global;

// The request with its body, which counts as absent if it is not a form.
fn with_body(judged: Judged, body: Vec<u8>) -> Ask
    ensures { result ≡ with_body_of judged body.items }
{
    let mut ask = judged.ask;
    ask.body = if judged.form {
        Some(Blob::from_vec(body))
    } else {
        None
    };
    ask
}

// Parses and checks the head, given the names of the server's cookies.
fn judge_head(alloc: Global, head: &Vec<u8>, first: &Text, second: &Text) -> Result<Judged, HttpNo>
    ensures ok { IfOk result (λ j. IsJudged first.now second.now head.now.items (Ok j)) }
    ensures err { IfErr result (RefusesHead first.now second.now head.now.items) }
{
    judge(
        alloc,
        head,
        first.as_str().as_bytes(),
        second.as_str().as_bytes(),
    )
}

/// Reads one request, and no byte past its body (RFC 9112, 2 to 6). `first` and `second` name the server's two cookies.
///
/// The result is a function of the bytes that the source gives, however it splits them. The head is read byte by byte, and ends
/// with the first empty line after a line that is not empty. Only a POST has a body. A body that is not a form counts as
/// absent, and so does a cookie that is not the text of a word. [`HttpNo`] is why a request is refused. This is decided after
/// the head, before a byte of the body is read.
pub fn read_ask<S: Source>(
    alloc: Global,
    source: &mut S,
    first: &Text,
    second: &Text,
) -> Result<Ask, HttpNo>
    ensures ok { IfOk result (IsAskRead first.now second.now (S.left source.old) (S.left source.new)) }
    ensures err { IfErr result (IsRefused first.now second.now (S.left source.old) (S.left source.new)) }
    ensures later { S.faults source.old ≤ S.faults source.new }
    ensures fault { IfErr result (FaultRose (S.faults source.old) (S.faults source.new)) }
{
    let head = read_head(alloc, source)?;
    let judged = judge_head(alloc, &head, first, second)?;
    let body = read_body(alloc, source, judged.count)?;
    Ok(with_body(judged, body))
}
