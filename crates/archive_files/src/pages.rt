//! How many pages of a file are kept in memory.
ghost use Rattle.std.specs.Prelude.{◌≤◌};

use std::fs;

/// How many bytes a page of a new file has.
const PAGE_BYTES: u64 = 4096;

/// How many pages are kept where not all can be.
const FEW_PAGES: u64 = 2000;

/// How many pages may be kept at least where they are all of a file's: 256 MB of them.
const MANY_PAGES: u64 = 65_536;

/// How many pages are kept at most: 4 GB of them.
const MOST_PAGES: u64 = 1_048_576;

/// How many bytes of memory the system can give, as it says itself.
fn available_bytes(rt: &HostRuntime) -> Option<u64> {
    let text = fs::read_to_string(rt, "/proc/meminfo").ok()?;
    for line in text.lines() {
        if let Some(amount) = line.strip_prefix("MemAvailable:") {
            let kilobytes: u64 = amount.trim().strip_suffix(" kB")?.parse().ok()?;
            return kilobytes.checked_mul(1024);
        }
    }
    None
}

/// How many pages may be kept where they are all of a file's: those of a quarter of the memory that the system can give.
fn room_for_pages(rt: &HostRuntime) -> u64
    ensures least { MANY_PAGES ≤ result }
    ensures most { result ≤ MOST_PAGES }
{
    let quarter = available_bytes(rt).unwrap_or(0) / 4 / PAGE_BYTES;
    quarter.max(MANY_PAGES).min(MOST_PAGES)
}

/// How many pages of the file are kept in memory: all, and some that may come to it, or few. A file of which all are kept is
/// read twice when it is opened, and then no more. Of another file each test of a table or an index reads all pages again.
pub fn pages_to_keep(rt: &HostRuntime, name: &str) -> usize
    ensures few { FEW_PAGES ≤ result }
    ensures most { result ≤ MOST_PAGES }
{
    let pages = match fs::metadata(rt, name) {
        Ok(found) => found.len() / PAGE_BYTES,
        Err(_) => 0,
    };
    if pages < FEW_PAGES || room_for_pages(rt) - FEW_PAGES < pages {
        FEW_PAGES as usize
    } else {
        (pages + FEW_PAGES) as usize
    }
}
