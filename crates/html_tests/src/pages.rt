//! Pages byte for byte.
use archive_html::{RenderedRows, author_page, lists_page, month_page, thread_page, threads_page};
use archive_model::Key;
use archive_results::Line;
use civil_time::{Instant, Month};
use std::alloc::Global;
use std::test::Fail;
use thread_core::Row as PlacedRow;

/// A row: its depth, and the key, the second, the author and the subject of its message.
type Row = (
    usize,
    Option<(&'static str, i64, &'static [u8], &'static [u8])>,
);

/// What a page is asked for.
#[derive(Clone, Copy)]
enum Ask {
    Month(&'static [u8]),
    Author(&'static [u8]),
    Threads,
    Thread,
}

const K1: &str = "1111111111111111111111111111111111111111111111111111111111111111";

const K2: &str = "22222222222222222222222222222222222222222222222222222222222222ff";

static PAGES: [(Ask, &[Row], &[u8]); 7] = [
    (
        Ask::Threads,
        &[
            (0, Some((K1, 1_046_772_000, b"anna@example.org", b"Hello"))),
            (1, Some((K2, 1_047_465_000, b"", b"Re: Hello"))),
        ],
        b"<!DOCTYPE html>\n\
          <html><head><title>soc: threads</title></head><body>\n\
          <h1>soc: threads</h1>\n\
          <div class=\"d0\"><a href=\"/l/soc/month/2003-03\">2003-03-04 10:00</a> \
          <a href=\"/l/soc/by/anna%40example.org\">anna@example.org</a> \
          <a href=\"/l/soc/m/1111111111111111111111111111111111111111111111111111111111111111\">Hello</a> \
          <a href=\"/l/soc/t/1111111111111111111111111111111111111111111111111111111111111111\">thread</a></div>\n\
          <div class=\"d1\"><a href=\"/l/soc/month/2003-03\">2003-03-12 10:30</a> (none) \
          <a href=\"/l/soc/m/22222222222222222222222222222222222222222222222222222222222222ff\">Re: Hello</a> \
          <a href=\"/l/soc/t/22222222222222222222222222222222222222222222222222222222222222ff\">thread</a></div>\n\
          </body></html>\n",
    ),
    (
        Ask::Thread,
        &[
            (0, None),
            (
                20,
                Some((K1, 951_868_799, b"\"o'brien\"@x.org", b"1 < 2 & \xc3\xa9")),
            ),
            (21, Some((K2, -1, b"a~b-c._d+e@f", b""))),
        ],
        b"<!DOCTYPE html>\n\
          <html><head><title>soc: thread</title></head><body>\n\
          <h1>soc: thread</h1>\n\
          <div class=\"d0\">(missing)</div>\n\
          <div class=\"d20\"><a href=\"/l/soc/month/2000-02\">2000-02-29 23:59</a> \
          <a href=\"/l/soc/by/%22o%27brien%22%40x.org\">&quot;o'brien&quot;@x.org</a> \
          <a href=\"/l/soc/m/1111111111111111111111111111111111111111111111111111111111111111\">1 &lt; 2 &amp; ??</a> \
          <a href=\"/l/soc/t/1111111111111111111111111111111111111111111111111111111111111111\">thread</a></div>\n\
          <div class=\"d20\"><a href=\"/l/soc/month/1969-12\">1969-12-31 23:59</a> \
          <a href=\"/l/soc/by/a~b-c._d%2Be%40f\">a~b-c._d+e@f</a> \
          <a href=\"/l/soc/m/22222222222222222222222222222222222222222222222222222222222222ff\">(no subject)</a> \
          <a href=\"/l/soc/t/22222222222222222222222222222222222222222222222222222222222222ff\">thread</a></div>\n\
          </body></html>\n",
    ),
    (
        Ask::Month(b"1900-01"),
        &[(0, Some((K2, -2_208_988_800, b"\xff\x7f\x1f", b"a\tb>")))],
        b"<!DOCTYPE html>\n\
          <html><head><title>soc: 1900-01</title></head><body>\n\
          <h1>soc: 1900-01</h1>\n\
          <div class=\"d0\"><a href=\"/l/soc/month/1900-01\">1900-01-01 00:00</a> \
          <a href=\"/l/soc/by/%FF%7F%1F\">???</a> \
          <a href=\"/l/soc/m/22222222222222222222222222222222222222222222222222222222222222ff\">a?b&gt;</a> \
          <a href=\"/l/soc/t/22222222222222222222222222222222222222222222222222222222222222ff\">thread</a></div>\n\
          </body></html>\n",
    ),
    (
        Ask::Month(b"9998-12"),
        &[(0, Some((K1, 253_370_764_799, b"a", b"b")))],
        b"<!DOCTYPE html>\n\
          <html><head><title>soc: 9998-12</title></head><body>\n\
          <h1>soc: 9998-12</h1>\n\
          <div class=\"d0\"><a href=\"/l/soc/month/9998-12\">9998-12-31 23:59</a> \
          <a href=\"/l/soc/by/a\">a</a> \
          <a href=\"/l/soc/m/1111111111111111111111111111111111111111111111111111111111111111\">b</a> \
          <a href=\"/l/soc/t/1111111111111111111111111111111111111111111111111111111111111111\">thread</a></div>\n\
          </body></html>\n",
    ),
    (
        Ask::Author(b"<anna>/\xc3\xa9"),
        &[],
        b"<!DOCTYPE html>\n\
          <html><head><title>soc: by &lt;anna&gt;/??</title></head><body>\n\
          <h1>soc: by &lt;anna&gt;/??</h1>\n\
          </body></html>\n",
    ),
    (
        Ask::Threads,
        &[(0, Some((K1, 1_046_772_000, b"a\"b", b"<script>\"&\xe9")))],
        b"<!DOCTYPE html>\n\
          <html><head><title>soc: threads</title></head><body>\n\
          <h1>soc: threads</h1>\n\
          <div class=\"d0\"><a href=\"/l/soc/month/2003-03\">2003-03-04 10:00</a> \
          <a href=\"/l/soc/by/a%22b\">a&quot;b</a> \
          <a href=\"/l/soc/m/1111111111111111111111111111111111111111111111111111111111111111\">&lt;script&gt;&quot;&amp;?</a> \
          <a href=\"/l/soc/t/1111111111111111111111111111111111111111111111111111111111111111\">thread</a></div>\n\
          </body></html>\n",
    ),
    (
        Ask::Author(b"a/b"),
        &[(0, Some((K1, 0, b"a/b", b" x ")))],
        b"<!DOCTYPE html>\n\
          <html><head><title>soc: by a/b</title></head><body>\n\
          <h1>soc: by a/b</h1>\n\
          <div class=\"d0\"><a href=\"/l/soc/month/1970-01\">1970-01-01 00:00</a> \
          <a href=\"/l/soc/by/a%2Fb\">a/b</a> \
          <a href=\"/l/soc/m/1111111111111111111111111111111111111111111111111111111111111111\"> x </a> \
          <a href=\"/l/soc/t/1111111111111111111111111111111111111111111111111111111111111111\">thread</a></div>\n\
          </body></html>\n",
    ),
];

fn line_of(
    alloc: Global,
    key: &str,
    second: i64,
    author: &[u8],
    subject: &[u8],
) -> Result<Line, Fail> {
    Ok(Line {
        key: Key::read(key).ok_or("a key")?,
        sent: Instant::new(second).ok_or("an instant")?,
        author: author.to_vec(alloc)?,
        subject: subject.to_vec(alloc)?,
    })
}

/// The lines of rows, and the rows with the places of their lines.
#[derive(Drop)]
struct Placed {
    lines: Vec<Line>,
    rows: Vec<PlacedRow>,
}

/// The line of the last row stands first. The row of a message that is missing has this place.
fn placed_of(alloc: Global, rows: &[Row], missing: Option<usize>) -> Result<Placed, Fail> {
    let mut lines = Vec::new(alloc);
    let mut placed = Vec::new(alloc);
    for (depth, message) in rows.iter().rev() {
        let mut place = missing;
        if let Some((key, second, author, subject)) = message {
            place = Some(lines.len());
            lines.push(line_of(alloc, key, *second, author, subject)?)?;
        }
        placed.push(PlacedRow {
            depth: *depth,
            place,
        })?;
    }
    placed.reverse();
    Ok(Placed {
        lines,
        rows: placed,
    })
}

/// The page that is asked for, of these rows.
fn page_of(alloc: Global, ask: Ask, rows: &[Row], missing: Option<usize>) -> Result<Vec<u8>, Fail> {
    let placed = placed_of(alloc, rows, missing)?;
    let texts = RenderedRows::new(alloc, "soc", &placed.lines, &placed.rows)?;
    Ok(match ask {
        Ask::Month(text) => {
            let month = Month::read(text).ok_or("a month")?;
            month_page(alloc, "soc", month, texts.all())?
        }
        Ask::Author(key) => author_page(alloc, "soc", key, texts.all())?,
        Ask::Threads => threads_page(alloc, "soc", texts.all())?,
        Ask::Thread => thread_page(alloc, "soc", texts.run(0, rows.len()))?,
    })
}

#[test]
fn pages_of_a_list_are_these_bytes(rt: HostRuntime) -> Result<(), Fail> {
    for (number, (ask, rows, page)) in PAGES.iter().enumerate() {
        for missing in [None, Some(1000)] {
            let made = page_of(rt.alloc(), *ask, rows, missing)?;
            assert!(rt; made.as_slice() == *page, "page {number}");
        }
    }
    Ok(())
}

static LISTS: [(&[&str], &[u8]); 2] = [
    (
        &[],
        b"<!DOCTYPE html>\n\
          <html><head><title>Lists</title></head><body>\n\
          <h1>Lists</h1>\n\
          </body></html>\n",
    ),
    (
        &["abc", "soc-2"],
        b"<!DOCTYPE html>\n\
          <html><head><title>Lists</title></head><body>\n\
          <h1>Lists</h1>\n\
          <div class=\"d0\"><a href=\"/l/abc/threads\">abc</a> \
          <a href=\"/l/abc/mbox\">mbox</a></div>\n\
          <div class=\"d0\"><a href=\"/l/soc-2/threads\">soc-2</a> \
          <a href=\"/l/soc-2/mbox\">mbox</a></div>\n\
          </body></html>\n",
    ),
];

fn page_of_lists(alloc: Global, names: &[&str]) -> Result<Vec<u8>, Fail> {
    let mut given = Vec::new(alloc);
    for name in names {
        given.push(String::from_str(alloc, name)?)?;
    }
    Ok(lists_page(alloc, &given)?)
}

#[test]
fn lists_are_linked_by_name(rt: HostRuntime) -> Result<(), Fail> {
    for (number, (names, page)) in LISTS.iter().enumerate() {
        let made = page_of_lists(rt.alloc(), names)?;
        assert!(rt; made.as_slice() == *page, "lists {number}");
    }
    Ok(())
}

/// So many messages, each one deeper than the one before.
fn deep_rows(alloc: Global, count: usize) -> Result<Placed, Fail> {
    let mut lines = Vec::new(alloc);
    let mut rows = Vec::new(alloc);
    for depth in 0..count {
        lines.push(line_of(alloc, K1, 0, b"a", b"b")?)?;
        rows.push(PlacedRow {
            depth,
            place: Some(depth),
        })?;
    }
    Ok(Placed { lines, rows })
}

/// How many times this stands between quotes in a page.
fn count_quoted(page: &[u8], word: &[u8]) -> usize {
    page.split(|byte| *byte == b'"')
        .filter(|part| *part == word)
        .count()
}

/// The classes of rows that are asked for, and how many rows of 500, each one deeper, have each.
static CLASSES: [(&[u8], usize); 5] = [
    (b"d0", 1),
    (b"d1", 1),
    (b"d19", 1),
    (b"d20", 480),
    (b"d21", 0),
];

#[test]
fn rows_deeper_than_twenty_have_one_class(rt: HostRuntime) -> Result<(), Fail> {
    let deep = deep_rows(rt.alloc(), 500)?;
    let texts = RenderedRows::new(rt.alloc(), "soc", &deep.lines, &deep.rows)?;
    for (class, count) in &CLASSES {
        assert_eq!(rt; count_quoted(texts.all(), class), *count);
    }
    Ok(())
}

/// Runs of 30 rows, each one deeper: the first row, the end, and how many rows from the first on are there.
static RUNS: [(usize, usize, usize); 8] = [
    (0, 30, 30),
    (0, 1, 1),
    (7, 9, 2),
    (29, 30, 1),
    (30, 30, 0),
    (9, 7, 0),
    (28, 90, 2),
    (90, 91, 0),
];

#[test]
fn a_run_of_rows_is_their_texts(rt: HostRuntime) -> Result<(), Fail> {
    let deep = deep_rows(rt.alloc(), 30)?;
    let texts = RenderedRows::new(rt.alloc(), "soc", &deep.lines, &deep.rows)?;
    for (first, end, count) in &RUNS {
        let mut there = Vec::new(rt.alloc());
        for row in deep.rows.iter().skip(*first).take(*count) {
            let one = RenderedRows::new(rt.alloc(), "soc", &deep.lines, &[*row])?;
            there.extend_from_slice(one.all())?;
        }
        assert!(rt;
            texts.run(*first, *end) == there.as_slice(),
            "{first} to {end}"
        );
    }
    Ok(())
}
