//! Reads the body of a Date field on each line of standard input, and prints when that was, in UTC.
#![tactic(auto)]

ghost use Rattle.std.specs.Prelude.{◌≡◌};
ghost use Rattle.civil_time.specs.Texts.{instant_text};
ghost use Rattle.mail_core.specs.Sent.{sent_date_of_body};

use anyhow::bail;
use civil_time::Instant;
use mail_core::sent;
use mbox_core::device::{Counted, read_all};

/// When a mail was sent, as `yyyy-mm-dd hh:mm` in UTC; when it arrived, where the text is no date.
fn sent_text(date: &[u8], arrival: Instant) -> [u8; 16]
    ensures { result ≡ instant_text (sent_date_of_body date.now arrival) }
{
    sent(date, arrival).text()
}

fn main(rt: HostRuntime) -> anyhow::Result<()> {
    let alloc = rt.alloc();
    let mut input = Counted::new(rt.reader());
    let Ok(text) = read_all(alloc, &mut input) else {
        bail!("the input cannot be read");
    };
    let Some(arrival) = Instant::new(1_046_775_600) else {
        bail!("no instant");
    };
    for line in String::from_utf8(text)?.as_str().lines() {
        let when = sent_text(line.as_bytes(), arrival);
        println!(rt; "{}", String::from_utf8(when.to_vec(alloc)?)?)?;
    }
    Ok(())
}
