//! What answers a command before it is carried out: why it is refused, by what was found of its names, or that a message is known. No
//! call here takes memory.
ghost use Rattle.std.specs.Prelude.{◌≡◌, Some, option_map, length, nat_lt};
ghost use Rattle.std.specs.List.{find};
ghost use Rattle.mbox_items.specs.Division.{whole};
ghost use Rattle.mbox_items.specs.Senders.{sender_text};
ghost use Rattle.archive_model.specs.Addresses.{is_address};
ghost use Rattle.archive_model.specs.BearerTokens.{is_token};
ghost use Rattle.archive_model.specs.Machine.{guarded_replies_of, is_too_large, longest_sender, longest_text};
ghost use Rattle.archive_port.specs.Commands.{spec_command};
ghost use Rattle.archive_memory.specs.Deciding.{first_passing_reply, reply_without_change};

use crate::deciding::Settled::{Known, Refused};
use archive_model::CommandFacts;
use archive_port::Command;
use archive_port::StoreFault::{
    self, AlreadyWithdrawn, BadDays, BadName, BadText, ListExists, ListFull, NoList, NoMessage,
    NoPerson, NotWithdrawn, PersonExists, TokenTaken, TooLarge,
};
use mbox_items::{Item, Sender};
use policy_core::is_name;

/// Bytes of the longest whole text that is taken in.
const LONGEST_TEXT: usize = 16_777_216;

/// Bytes of the longest sender that is taken in.
const LONGEST_SENDER: usize = 900_000_000;

/// What answers a command that changes nothing.
#[derive(Clone, Copy)]
pub(crate) enum Settled {
    Refused(StoreFault),
    /// The list holds the message.
    Known,
}

/// The answer of the first test of its row that is so. `None`: it is carried out.
pub(crate) fn settle(command: &Command<'_>, found: &CommandFacts) -> Option<Settled>
    ensures { option_map reply_without_change result
        ≡ option_map Some (first_passing_reply (guarded_replies_of (spec_command command.now) found.now)) }
{
    match command {
        Command::ListAdd { name } => first_so(&[
            (!is_name(name), Refused(BadName)),
            (found.list, Refused(ListExists)),
        ]),
        Command::MergeSet { .. } => first_so(&[(!found.list, Refused(NoList))]),
        Command::PersonAdd { name, token } => first_so(&[
            (!is_name(name), Refused(BadName)),
            (!is_token(token), Refused(BadText)),
            (found.person, Refused(PersonExists)),
            (found.token, Refused(TokenTaken)),
        ]),
        Command::AddressSet { address, .. } => first_so(&[
            (!found.person, Refused(NoPerson)),
            (!is_address(address), Refused(BadText)),
        ]),
        Command::Grant { from, until, .. } => first_so(&[
            (!found.person, Refused(NoPerson)),
            (!found.list, Refused(NoList)),
            (until < from, Refused(BadDays)),
        ]),
        Command::Revoke { .. } => first_so(&[
            (!found.person, Refused(NoPerson)),
            (!found.list, Refused(NoList)),
        ]),
        Command::Add { item, .. } => first_so(&[
            (!found.list, Refused(NoList)),
            (is_too_large(item), Refused(TooLarge)),
            (found.message, Known),
            (found.full, Refused(ListFull)),
        ]),
        Command::Withdraw { .. } => first_so(&[
            (!found.list, Refused(NoList)),
            (!found.message, Refused(NoMessage)),
            (found.withdrawn, Refused(AlreadyWithdrawn)),
        ]),
        Command::Restore { .. } => first_so(&[
            (!found.list, Refused(NoList)),
            (!found.message, Refused(NoMessage)),
            (!found.withdrawn, Refused(NotWithdrawn)),
        ]),
        Command::Embargo { .. } | Command::Lift { .. } => first_so(&[
            (!found.list, Refused(NoList)),
            (!found.message, Refused(NoMessage)),
        ]),
    }
}

/// Whether a message is too large to be taken in: its whole text is too long, or its sender.
#[tactic(auto, unfolding(archive_model::specs::Machine::is_too_large))]
pub(crate) fn is_too_large(item: &Item<'_>) -> bool
    ensures { result ≡ is_too_large item.now }
{
    has_long_text(item) || is_long_sender(item.envelope.sender)
}

/// Whether the whole text of a message is too long.
fn has_long_text(item: &Item<'_>) -> bool
    ensures { result ≡ nat_lt longest_text (length (whole item.now.text)) }
{
    if item.complete {
        item.text.len() > LONGEST_TEXT
    } else {
        item.text.len() >= LONGEST_TEXT
    }
}

/// Whether a sender is too long, as it is written: two tokens have ` at ` between them.
fn is_long_sender(sender: Sender<'_>) -> bool
    ensures { result ≡ nat_lt longest_sender (length (sender_text sender.entry)) }
{
    match sender {
        Sender::One(token) => token.len() > LONGEST_SENDER,
        Sender::At(left, right) => left.len().saturating_add(4 + right.len()) > LONGEST_SENDER,
    }
}

fn first_so(tests: &[(bool, Settled)]) -> Option<Settled>
    ensures { result ≡ option_map (λ test. test.1) (find (λ test. test.0) tests.now) }
{
    tests.iter().find(|test| test.0).map(|test| test.1)
}

fn is_token(text: &str) -> bool
    ensures { result ≡ is_token text.now }
{
    archive_model::is_token(text.as_bytes())
}

fn is_address(text: &str) -> bool
    ensures { result ≡ is_address text.now }
{
    archive_model::is_address(text.as_bytes())
}
