//! Sent dates.
ghost use Rattle.std.specs.Prelude.{◌≡◌, ◌≢◌, ◌⊎◌, ◌↔◌, false};
ghost use Rattle.civil_time.specs.Calendar.{is_instant};
ghost use Rattle.mail_core.specs.Headers.{sent_date_of};
ghost use Rattle.luvazhimba_c.specs.Numbers.{luv_done, luv_no_instant, luv_too_long, IsArrayTooLong};

use crate::refusals::{DONE, Refusal, is_too_long};
use civil_time::Instant;
use mail_core::Header;

/// When a message was sent that arrived then, in seconds since 1970-01-01 00:00:00 UTC, by its first Date field (RFC 5322,
/// sections 3.3 and 4.3); where that is no date, the arrival. It refuses just where the arrival lies outside the years 1900 to
/// 9998, and where the message is too long.
#[unsafe(no_mangle)]
pub extern "C" fn luv_sent_date(message: &[u8], arrival: i64, sent: &mut i64) -> u8
    ensures sent { result ≡ luv_done → sent.new ≡ sent_date_of message.now arrival }
    ensures no_instant { (result ≡ luv_no_instant) ↔ (is_instant arrival ≡ false) × ¬ IsArrayTooLong message.now }
    ensures too_long { (result ≡ luv_too_long) ↔ IsArrayTooLong message.now }
    ensures refused { result ≢ luv_done → (result ≡ luv_no_instant) ⊎ (result ≡ luv_too_long) }
{
    if is_too_long(message) {
        return Refusal::TooLong.number();
    }
    let Some(arrival) = Instant::new(arrival) else {
        return Refusal::Arrival.number();
    };
    *sent = Header::of(message).sent(arrival).seconds();
    DONE
}
