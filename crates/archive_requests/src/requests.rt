//! What a request asks for.
ghost use Rattle.std.specs.Prelude.{◌≡◌};
ghost use Rattle.httparse.specs.Grammar.{RequestHead};
ghost use Rattle.httparse.specs.Spans.{IsRequestWithin};
ghost use Rattle.archive_requests.specs.Asked.{model_request};
ghost use Rattle.archive_requests.specs.Heads.{HasSpansOfHead};
ghost use Rattle.archive_requests.specs.Requests.{path_of, request_of};

use crate::bearer::{Bearer, bearer_of};
use crate::heads::Head;
use std::str;

/// What a request asks for, as its head alone says.
#[derive(Debug, Clone, Copy, PartialEq, Eq, Drop)]
pub enum Request<'b> {
    /// The target begins with no slash, or there is more than one Authorization field: 400.
    Bad,
    /// The method is not GET: 405.
    OtherMethod,
    /// An Authorization field that holds no bearer token: 401.
    Unauthorized,
    /// What a path names, for nobody or for whoever has the token.
    Asks {
        token: Option<&'b str>,
        path: &'b str,
    },
}

// What stands before the first `?` of a target.
fn path_of(target: &str) -> &str
    ensures { result.now ≡ path_of target.now }
{
    match target.split_once('?') {
        Some((path, _)) => path,
        None => target,
    }
}

impl Head {
    /// What the request asks for. `bytes` are those that the head was read from.
    pub(crate) fn request<'b>(&self, bytes: &'b [u8]) -> Request<'b>
        requires { IsRequestWithin bytes.now self.now.fields self.now.spans }
        ensures { (h : RequestHead) → HasSpansOfHead bytes.now h self.now
            → model_request result ≡ request_of h }
    {
        let Ok(target) = str::from_utf8(self.spans.path.of(bytes)) else {
            return Request::Bad;
        };
        if !target.starts_with('/') {
            return Request::Bad;
        }
        if self.spans.method.of(bytes) != b"GET".as_slice() {
            return Request::OtherMethod;
        }
        match bearer_of(bytes, &self.fields[..self.spans.headers]) {
            Bearer::Nobody => Request::Asks {
                token: None,
                path: path_of(target),
            },
            Bearer::Token(token) => Request::Asks {
                token: Some(token),
                path: path_of(target),
            },
            Bearer::NoToken => Request::Unauthorized,
            Bearer::Doubled => Request::Bad,
        }
    }
}
