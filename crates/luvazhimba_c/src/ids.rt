//! Message ids.
ghost use Rattle.std.specs.Prelude.{◌≡◌, ◌≢◌, ◌⊎◌, ◌↔◌, ◌++◌, ◌∷◌, [], length, map, OnOk, IfOk, IfErr};
ghost use Rattle.std.specs.List.{flat_map};
ghost use Rattle.mail_core.specs.Headers.{own_id_in, own_id_of, id_option_to_list};
ghost use Rattle.luvazhimba_c.specs.Ids.{id_text, id_text_length, ids_of_header, id_texts, id_text_lengths, HoldMessageIds, LacksRoomForIds};
ghost use Rattle.luvazhimba_c.specs.Numbers.{luv_done, luv_no_room, luv_no_memory, luv_too_long, refusal_number, IsArrayTooLong};

use crate::outputs::put;
use crate::refusals::{DONE, Refusal, is_too_long};
use mail_core::{Header, Memory, MsgIdRef, References};
use std::alloc::Global;

/// How many message ids there are.
#[repr(C)]
#[derive(Clone, Copy)]
pub struct LuvIds {
    /// 1 where the message has an id of its own, which then comes first, else 0.
    pub own: usize,
    /// All of them.
    pub count: usize,
    /// How long their texts are together, in bytes.
    pub len: usize,
}

/// Texts, one behind the other, and how long each is.
#[derive(Drop)]
pub(crate) struct Texts {
    pub(crate) bytes: Vec<u8>,
    pub(crate) lens: Vec<usize>,
}

impl Texts {
    /// No text.
    pub(crate) fn new(alloc: Global) -> Texts
        ensures bytes { result.bytes.items ≡ [] }
        ensures lens { result.lens.items ≡ [] }
    {
        Texts {
            bytes: Vec::new(alloc),
            lens: Vec::new(alloc),
        }
    }

    /// Puts a text behind the others.
    pub(crate) fn push_text(&mut self, text: &[u8]) -> Result<(), Memory>
        ensures bytes { OnOk result (self.new.bytes.items ≡ self.old.bytes.items ++ text.now) }
        ensures lens { OnOk result (self.new.lens.items ≡ self.old.lens.items ++ length text.now ∷ []) }
    {
        self.bytes.extend_from_slice(text)?;
        self.lens.push(text.len())?;
        Ok(())
    }

    /// Puts the text of an id behind the others.
    fn push(&mut self, id: &MsgIdRef<'_>) -> Result<(), Memory>
        ensures bytes { OnOk result (self.new.bytes.items ≡ self.old.bytes.items ++ id_text id.now) }
        ensures lens { OnOk result (self.new.lens.items ≡ self.old.lens.items ++ id_text_length id.now ∷ []) }
    {
        self.bytes.extend_from_slice(id.left())?;
        self.bytes.push(b'@')?;
        self.bytes.extend_from_slice(id.right())?;
        self.lens.push(id.left().len() + 1 + id.right().len())?;
        Ok(())
    }

    /// Puts the texts of ids behind the others, in order.
    fn push_all(&mut self, ids: &References) -> Result<(), Memory>
        ensures bytes { OnOk result (self.new.bytes.items ≡ self.old.bytes.items ++ flat_map id_text ids.now) }
        ensures lens { OnOk result (self.new.lens.items ≡ self.old.lens.items ++ map id_text_length ids.now) }
    {
        for at in 0..ids.len() {
            self.push(&ids.get(at))?;
        }
        Ok(())
    }

    /// Puts the text of a message's own id behind the others, where it has one, and says how many that are.
    fn push_own(&mut self, alloc: Global, header: &Header<'_>) -> Result<usize, Memory>
        ensures bytes { OnOk result (self.new.bytes.items ≡ self.old.bytes.items ++ flat_map id_text (id_option_to_list (own_id_in header.now))) }
        ensures lens { OnOk result (self.new.lens.items ≡ self.old.lens.items ++ map id_text_length (id_option_to_list (own_id_in header.now))) }
        ensures own { IfOk result (λ own. own ≡ length (id_option_to_list (own_id_in header.now))) }
    {
        match header.own_id(alloc)? {
            Some(id) => {
                self.push(&id.borrowed())?;
                Ok(1)
            }
            None => Ok(0),
        }
    }

    /// Puts the texts of all ids of a message behind the others, and says how many are its own.
    pub(crate) fn push_ids(&mut self, alloc: Global, header: &Header<'_>) -> Result<usize, Memory>
        ensures bytes { OnOk result (self.new.bytes.items ≡ self.old.bytes.items ++ flat_map id_text (ids_of_header header.now)) }
        ensures lens { OnOk result (self.new.lens.items ≡ self.old.lens.items ++ map id_text_length (ids_of_header header.now)) }
        ensures own { IfOk result (λ own. own ≡ length (id_option_to_list (own_id_in header.now))) }
    {
        let own = self.push_own(alloc, header)?;
        self.push_all(&header.references(alloc)?)?;
        Ok(own)
    }
}

/// The texts of all ids of a message, and how many are its own.
fn texts_of(alloc: Global, message: &[u8]) -> Result<(Texts, usize), Memory>
    ensures bytes { IfOk result (λ found. found.0.bytes.items ≡ id_texts message.now) }
    ensures lens { IfOk result (λ found. found.0.lens.items ≡ id_text_lengths message.now) }
    ensures own { IfOk result (λ found. found.1 ≡ length (id_option_to_list (own_id_of message.now))) }
{
    let mut texts = Texts::new(alloc);
    let own = texts.push_ids(alloc, &Header::of(message))?;
    Ok((texts, own))
}

/// The ids of a message (RFC 5322, section 3.6.4): its own, by its first Message-ID field, and then those that it refers to, as
/// threads ask for them (RFC 5256, section 3): all of its first References field, or where that has none the first of its first
/// In-Reply-To field. The text of each is its left side without quotes, `@` and its right side. The texts are written to the front
/// of `texts`, one behind the other, and to the front of `lens` how long each is. It refuses where one of these has no room, and
/// then `found` says what is wanted, where the message is too long, and where a growth of memory is refused.
#[unsafe(no_mangle)]
pub extern "C" fn luv_message_ids(
    alloc: Global,
    message: &[u8],
    texts: &mut [u8],
    lens: &mut [usize],
    found: &mut LuvIds,
) -> u8
    ensures ids { result ≡ luv_done → HoldMessageIds message.now texts.new lens.new found.new }
    ensures no_room { result ≡ luv_no_room → LacksRoomForIds message.now texts.old lens.old found.new }
    ensures too_long { (result ≡ luv_too_long) ↔ IsArrayTooLong message.now }
    ensures refused { result ≢ luv_done → (result ≡ luv_no_room) ⊎ (result ≡ luv_no_memory) ⊎ (result ≡ luv_too_long) }
{
    match write_ids(alloc, message, texts, lens, found) {
        Ok(()) => DONE,
        Err(refusal) => refusal.number(),
    }
}

fn write_ids(
    alloc: Global,
    message: &[u8],
    texts: &mut [u8],
    lens: &mut [usize],
    found: &mut LuvIds,
) -> Result<(), Refusal>
    ensures ids { OnOk result (HoldMessageIds message.now texts.new lens.new found.new) }
    ensures fits { OnOk result (¬ IsArrayTooLong message.now) }
    ensures no_room { IfErr result (λ e. refusal_number e ≡ luv_no_room → LacksRoomForIds message.now texts.old lens.old found.new) }
    ensures too_long { IfErr result (λ e. (refusal_number e ≡ luv_too_long) ↔ IsArrayTooLong message.now) }
    ensures refused { IfErr result (λ e. (refusal_number e ≡ luv_no_room) ⊎ (refusal_number e ≡ luv_no_memory) ⊎ (refusal_number e ≡ luv_too_long)) }
{
    if is_too_long(message) {
        return Err(Refusal::TooLong);
    }
    let Ok((ids, own)) = texts_of(alloc, message) else {
        return Err(Refusal::Memory);
    };
    *found = LuvIds {
        own,
        count: ids.lens.len(),
        len: ids.bytes.len(),
    };
    put(texts, &ids.bytes)?;
    put(lens, &ids.lens)
}
