//! A message of a list.
use crate::keys::Key;
use civil_time::Day;
use mbox_items::OwnedItem;
use policy_core::Withdrawn;

/// A message of a list. Its item's text is the whole text. What it means is `archived_message`.
#[derive(Drop)]
pub struct Message {
    /// The text's key, under which the list holds it.
    pub key: Key,
    /// The envelope and the text.
    pub item: OwnedItem,
    /// Who withdrew it.
    pub withdrawn: Withdrawn,
    /// The day up to which it is held back.
    pub embargo_until: Option<Day>,
}
