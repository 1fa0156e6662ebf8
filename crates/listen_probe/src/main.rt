//! A bare loop that takes connections and answers each with the same bytes, for the benchmark `bench/pages.py`.
//!
//! `COUNT BYTES` listens on a free port of 127.0.0.1, prints the port, and answers so many connections with a reply whose body
//! has so many bytes; of a request no more is looked at than its end. Without words it answers none.
#![tactic(auto)]

use anyhow::bail;
use std::alloc::Global;
use std::env;
use std::io::{self, Read, Write};
use std::net::{Ipv4Addr, OpenListener, OpenStream, TcpListener, TcpStream};
use std::time::Duration;

/// A reply whose body has so many bytes.
fn reply_of(alloc: Global, bytes: usize) -> anyhow::Result<Vec<u8>> {
    let head = format!(in alloc;
        "HTTP/1.1 200 OK\r\nContent-Type: text/plain\r\nContent-Length: {bytes}\r\nConnection: close\r\n\r\n"
    )?;
    let mut reply = Vec::new(alloc);
    reply.extend_from_slice(head.as_bytes())?;
    for _ in 0..bytes {
        reply.push(b'x')?;
    }
    Ok(reply)
}

/// Reads to the end of a head, and writes the reply.
fn answer(mut stream: TcpStream, reply: &[u8]) -> io::Result<()> {
    stream.set_read_timeout(Some(Duration::from_secs(2)))?;
    stream.set_write_timeout(Some(Duration::from_secs(30)))?;
    stream.set_nodelay(true)?;
    let mut room = [0; 8192];
    let mut have = 0;
    for _ in 0..8192 {
        if have >= room.len() {
            return Ok(());
        }
        let count = stream.read(&mut room[have..])?;
        if count == 0 {
            return Ok(());
        }
        have += count;
        if room[..have].ends_with(b"\r\n\r\n") {
            return stream.write_all(reply);
        }
    }
    Ok(())
}

/// Answers so many connections, also where one fails.
fn answer_all(listener: &TcpListener, count: u32, reply: &[u8]) -> io::Result<()> {
    for _ in 0..count {
        let (stream, _peer) = listener.accept()?;
        let _done = answer(stream, reply);
    }
    Ok(())
}

fn serve(rt: &HostRuntime, count: u32, bytes: usize) -> anyhow::Result<()> {
    let reply = reply_of(rt.alloc(), bytes)?;
    let listener = TcpListener::bind(rt, (Ipv4Addr::LOCALHOST, 0))?;
    let port = listener.local_addr()?.port();
    println!(rt; "{port}")?;
    answer_all(&listener, count, &reply)?;
    Ok(())
}

fn main(rt: HostRuntime) -> anyhow::Result<()> {
    let words: Vec<String> = env::args(&rt)?.collect(rt.alloc())?;
    let mut words = words.iter().skip(1);
    match (words.next(), words.next()) {
        (Some(count), Some(bytes)) => serve(&rt, count.parse()?, bytes.parse()?),
        (None, None) => Ok(()),
        _ => bail!("words: COUNT BYTES"),
    }
}
