//! The routes of paths, and what a percent-encoded text stands for.
use archive_requests::{Route, Routes, percent_decoded, route_of};
use mail_core::Memory;
use std::alloc::Global;
use std::test::Fail;

static ROUTES: [(&str, Option<Route<'static>>); 19] = [
    ("/", Some(Route::Lists)),
    (
        "/l/soc/m/k1",
        Some(Route::Message {
            list: "soc",
            key: "k1",
        }),
    ),
    (
        "/l/soc/month/2003-03",
        Some(Route::Month {
            list: "soc",
            month: "2003-03",
        }),
    ),
    ("/l/soc/threads", Some(Route::Threads { list: "soc" })),
    (
        "/l/soc/t/k1",
        Some(Route::Thread {
            list: "soc",
            key: "k1",
        }),
    ),
    (
        "/l/soc/by/a%40b",
        Some(Route::Author {
            list: "soc",
            author: "a%40b",
        }),
    ),
    ("/l/soc/mbox", Some(Route::Mbox { list: "soc" })),
    ("/l/%73oc/mbox", Some(Route::Mbox { list: "%73oc" })),
    (
        "/l/m/m/m",
        Some(Route::Message {
            list: "m",
            key: "m",
        }),
    ),
    (
        "/l/threads/threads",
        Some(Route::Threads { list: "threads" }),
    ),
    ("", None),
    ("//", None),
    ("/l/soc", None),
    ("/l//mbox", None),
    ("/l/soc/m/", None),
    ("/l/soc/m/k1/", None),
    ("/l/soc/threads/", None),
    ("/L/soc/threads", None),
    ("l/soc/threads", None),
];

#[test]
fn routes_of_paths(rt: HostRuntime) -> Result<(), Fail> {
    for (path, expected) in &ROUTES {
        assert!(rt; route_of(rt.alloc(), path)? == *expected, "{path}");
    }
    Ok(())
}

#[test]
fn routes_are_made_once(rt: HostRuntime) -> Result<(), Fail> {
    let routes = Routes::new(rt.alloc())?;
    for (path, expected) in &ROUTES {
        assert!(rt; routes.find(path) == *expected, "{path}");
    }
    Ok(())
}

static ENCODED: [(&str, &[u8]); 7] = [
    ("", b""),
    ("anna%40example.org", b"anna@example.org"),
    ("a%2540b", b"a%40b"),
    ("a%4", b"a%4"),
    ("a%zzb", b"a%zzb"),
    ("%2f%2F", b"//"),
    ("%ff+", b"\xff+"),
];

/// Whether a text stands for these bytes.
fn stands_for(alloc: Global, text: &str, bytes: &[u8]) -> Result<bool, Memory> {
    Ok(percent_decoded(alloc, text)?.as_slice() == bytes)
}

#[test]
fn percent_encoded_texts(rt: HostRuntime) -> Result<(), Fail> {
    for (text, bytes) in &ENCODED {
        assert!(rt; stands_for(rt.alloc(), text, bytes)?, "{text}");
    }
    Ok(())
}
