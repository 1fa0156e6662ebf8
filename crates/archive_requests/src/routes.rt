//! Which page a path names.
ghost use Rattle.std.specs.Prelude.{◌≡◌, IfOk, IfErr};
ghost use Rattle.std.specs.Option.{option_map};
ghost use Rattle.percent_encoding.specs.Percent.{percent_decode};
ghost use Rattle.archive_requests.specs.Routes.{route_of};
ghost use Rattle.archive_requests.specs.Routing.{route_table, model_route};

use mail_core::Memory;
use matchit::{InsertError, Router};
use percent_encoding::percent_decode_str;
use std::alloc::Global;

/// What a route leads to.
#[derive(Clone, Copy, Debug, Drop)]
pub(crate) enum Page {
    Lists,
    Message,
    Month,
    Threads,
    Thread,
    Author,
    Mbox,
}

/// Which page a path names. Its parts are as they stand in the path.
#[derive(Debug, Clone, Copy, PartialEq, Eq, Drop)]
pub enum Route<'p> {
    /// All lists.
    Lists,
    /// A message by its key.
    Message { list: &'p str, key: &'p str },
    /// The messages of a month, which the path has as `yyyy-mm`.
    Month { list: &'p str, month: &'p str },
    /// The threads of a list.
    Threads { list: &'p str },
    /// The thread of the message with this key.
    Thread { list: &'p str, key: &'p str },
    /// The messages of an author, whose key `percent_decoded` reads.
    Author { list: &'p str, author: &'p str },
    /// The messages of a list, as an mbox.
    Mbox { list: &'p str },
}

// The router of the pages. Only memory can refuse it.
fn router_of_pages(alloc: Global) -> Result<Router<Page>, InsertError>
    ensures rows { IfOk result (λ router. router ≡ route_table) }
    ensures memory { IfErr result (λ e. e ≡ InsertError.OutOfMemory) }
{
    let mut router = Router::new(alloc);
    router.insert("/", Page::Lists)?;
    router.insert("/l/{list}/m/{key}", Page::Message)?;
    router.insert("/l/{list}/month/{month}", Page::Month)?;
    router.insert("/l/{list}/threads", Page::Threads)?;
    router.insert("/l/{list}/t/{key}", Page::Thread)?;
    router.insert("/l/{list}/by/{author}", Page::Author)?;
    router.insert("/l/{list}/mbox", Page::Mbox)?;
    Ok(router)
}

/// The routes of the pages, in a router that is made once.
#[derive(Drop)]
pub struct Routes {
    router: Router<Page>,
    ghost of_pages: { router ≡ route_table },
}

impl Routes {
    /// `Memory`: the router's was refused.
    pub fn new(alloc: Global) -> Result<Routes, Memory> {
        match router_of_pages(alloc) {
            Ok(router) => Ok(Routes { router }),
            Err(_) => Err(Memory),
        }
    }

    /// The route of a path. It takes no memory.
    pub fn find<'p>(&self, path: &'p str) -> Option<Route<'p>>
        ensures { option_map model_route result ≡ route_of path.now }
    {
        let Ok(found) = self.router.at(path) else {
            return None;
        };
        let params = found.params;
        match *found.value {
            Page::Lists => Some(Route::Lists),
            Page::Message => Some(Route::Message {
                list: params.get("list")?,
                key: params.get("key")?,
            }),
            Page::Month => Some(Route::Month {
                list: params.get("list")?,
                month: params.get("month")?,
            }),
            Page::Threads => Some(Route::Threads {
                list: params.get("list")?,
            }),
            Page::Thread => Some(Route::Thread {
                list: params.get("list")?,
                key: params.get("key")?,
            }),
            Page::Author => Some(Route::Author {
                list: params.get("list")?,
                author: params.get("author")?,
            }),
            Page::Mbox => Some(Route::Mbox {
                list: params.get("list")?,
            }),
        }
    }
}

/// The route of a path, by routes that are made here. `Memory`: theirs was refused.
pub fn route_of<'p>(alloc: Global, path: &'p str) -> Result<Option<Route<'p>>, Memory>
    ensures { IfOk result (λ route. option_map model_route route ≡ route_of path.now) }
{
    let routes = Routes::new(alloc)?;
    Ok(routes.find(path))
}

/// The bytes that a percent-encoded text stands for (RFC 3986, section 2.1). An escape that is none
/// stays as it is. `Memory`: theirs was refused.
pub fn percent_decoded(alloc: Global, text: &str) -> Result<Vec<u8>, Memory>
    ensures { IfOk result (λ bytes. bytes.items ≡ percent_decode text.now) }
{
    let mut bytes = Vec::new(alloc);
    percent_decode_str(text).append_to(&mut bytes)?;
    Ok(bytes)
}
