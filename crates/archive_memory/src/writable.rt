//! What an item is: a message that can be written. Only clauses read what these calls say, and they do nothing.
ghost use Rattle.std.specs.List.{All};
ghost use Rattle.mbox_items.specs.Written.{IsEnvelope, IsItem};
ghost use Rattle.archive_model.specs.Sound.{AddsWritableItem};
ghost use Rattle.archive_port.specs.Commands.{spec_command};

use archive_port::Command;
use mbox_items::{Envelope, Item};

/// What a command adds can be written.
pub(crate) fn command_is_writable(command: &Command<'_>)
    ensures { AddsWritableItem (spec_command command.now) }
{
    match command {
        Command::Add { item, .. } => item_is_writable(item),
        _ => {}
    }
}

/// Each of these items can be written.
pub(crate) fn items_are_writable(items: &[Item<'_>])
    ensures { All IsItem items.now }
{
    for item in items {
        item_is_writable(item);
    }
}

fn item_is_writable(item: &Item<'_>)
    ensures { IsItem item.now }
{
    let _complete = item.complete;
    envelope_is_writable(&item.envelope);
}

fn envelope_is_writable(envelope: &Envelope<'_>)
    ensures { IsEnvelope envelope.now }
{
    let _arrival = envelope.arrival;
}
