//! All that the messages of an mbox say of themselves, in one reading.
ghost use Rattle.std.specs.Prelude.{◌≡◌, ◌≢◌, ◌<◌, ◌≤◌, ◌⊎◌, ◌↔◌, length, take, map, OnOk, IfOk, IfErr};
ghost use Rattle.mbox_core.specs.Division.{Item as Message, DividesIntoItems, IsPreamble};
ghost use Rattle.luvazhimba_c.specs.declared.refusals.Refusal.TheVariants.{NoRoom};
ghost use Rattle.luvazhimba_c.specs.Fields.{all_field_texts, all_field_text_lengths, field_numbers_of_item, HoldMboxFields, LacksRoomForMboxFields};
ghost use Rattle.luvazhimba_c.specs.Numbers.{luv_done, luv_no_room, luv_no_memory, luv_no_mbox, luv_too_long, refusal_number, IsArrayTooLong};

use crate::cutting::{answer_fault, luv_cut};
use crate::fields::{LuvFields, push_fields};
use crate::ids::Texts;
use crate::messages::LuvMessage;
use crate::outputs::put;
use crate::refusals::{Refusal, is_too_long};
use civil_time::Memory;
use mbox_core::{Messages, cut};
use std::alloc::Global;

/// What all messages of an mbox say of themselves, in numbers.
#[repr(C)]
#[derive(Clone, Copy)]
pub struct LuvTotals {
    /// How many messages there are.
    pub messages: usize,
    /// How many texts they have.
    pub count: usize,
    /// How long these are together, in bytes.
    pub len: usize,
}

/// What messages say of themselves: the texts of all, and of each the rest in numbers.
#[derive(Drop)]
struct Said {
    texts: Texts,
    numbers: Vec<LuvFields>,
}

/// What the messages that are left say of themselves.
fn said_by(alloc: Global, messages: Messages<'_>) -> Result<Said, Memory>
    ensures bytes { IfOk result (λ said. said.texts.bytes.items ≡ all_field_texts messages.entry) }
    ensures lens { IfOk result (λ said. said.texts.lens.items ≡ all_field_text_lengths messages.entry) }
    ensures numbers { IfOk result (λ said. said.numbers.items ≡ map field_numbers_of_item messages.entry) }
{
    let mut texts = Texts::new(alloc);
    let mut numbers = Vec::new(alloc);
    for item in messages {
        numbers.push(push_fields(alloc, &mut texts, item.text, item.envelope.arrival)?)?;
    }
    Ok(Said { texts, numbers })
}

/// Copies what messages say of themselves to the front of arrays.
fn write_said(
    said: &Said,
    fields: &mut [LuvFields],
    texts: &mut [u8],
    lens: &mut [usize],
) -> Result<(), Refusal>
    ensures numbers { OnOk result (take (length said.now.numbers.items) fields.new ≡ said.now.numbers.items) }
    ensures bytes { OnOk result (take (length said.now.texts.bytes.items) texts.new ≡ said.now.texts.bytes.items) }
    ensures lens { OnOk result (take (length said.now.texts.lens.items) lens.new ≡ said.now.texts.lens.items) }
    ensures no_room { IfErr result (λ refusal. (refusal ≡ NoRoom) × ((length fields.old < length said.now.numbers.items)
        ⊎ (length texts.old < length said.now.texts.bytes.items) ⊎ (length lens.old < length said.now.texts.lens.items))) }
{
    put(fields, &said.numbers)?;
    put(texts, &said.texts.bytes)?;
    put(lens, &said.texts.lens)
}

/// All that the messages of an mbox (RFC 4155) say of themselves: where each stands, as `luv_cut` has it, written to the front of
/// `messages`, and of each what `luv_fields` says; its numbers to the front of `fields`, its texts, behind those of the messages before
/// it, to that of `texts`, and how long each is to that of `lens`. `found` is how many messages there are, how many texts, and how long
/// these are together. It refuses where the bytes are no mbox, and then `found.messages` is where the line begins that is no separator
/// line; where an array has no room, and then `found` says how much is wanted; where the mbox is too long, and where a growth of memory
/// is refused.
#[unsafe(no_mangle)]
pub extern "C" fn luv_fields_of_mbox(
    alloc: Global,
    mbox: &[u8],
    messages: &mut [LuvMessage],
    fields: &mut [LuvFields],
    texts: &mut [u8],
    lens: &mut [usize],
    found: &mut LuvTotals,
) -> u8
    ensures fields { result ≡ luv_done → HoldMboxFields mbox.now messages.new fields.new texts.new lens.new found.new }
    ensures no_room { result ≡ luv_no_room → LacksRoomForMboxFields mbox.now messages.old fields.old texts.old lens.old found.new }
    ensures no_mbox { result ≡ luv_no_mbox → IsPreamble mbox.now found.new.messages }
    ensures too_long { (result ≡ luv_too_long) ↔ IsArrayTooLong mbox.now }
    ensures refused { result ≢ luv_done → (result ≡ luv_no_room) ⊎ (result ≡ luv_no_memory) ⊎ (result ≡ luv_no_mbox) ⊎ (result ≡ luv_too_long) }
{
    if is_too_long(mbox) {
        return Refusal::TooLong.number();
    }
    match cut(mbox) {
        Ok(items) => match said_by(alloc, items) {
            Ok(said) => {
                *found = LuvTotals {
                    messages: said.numbers.len(),
                    count: said.texts.lens.len(),
                    len: said.texts.bytes.len(),
                };
                match write_said(&said, fields, texts, lens) {
                    Ok(()) => luv_cut(mbox, messages, &mut found.messages),
                    Err(refusal) => refusal.number(),
                }
            }
            Err(refused) => Refusal::from(refused).number(),
        },
        Err(fault) => answer_fault(fault, &mut found.messages),
    }
}
