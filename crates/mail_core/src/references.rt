//! The message ids of a field, in few growths.
ghost use Rattle.std.specs.Prelude.{◌≡◌, ◌==◌, ◌<◌, ◌++◌, ◌∷◌, [], length, get_or, IfOk, OnOk, OnErr};
ghost use Rattle.mail_core.specs.MsgIds.{MessageId};
ghost use Rattle.mail_core.specs.Places.{id_at_place, IsPlaceWithin, IsPrefixOfBytes};

use crate::msg_id_ref::MsgIdRef;
use civil_time::Memory;
use std::alloc::Global;
use std::marker::Model;

/// Where the sides of an id stand: the left one from `start` to `middle`, the right one from there to `end`.
#[derive(Clone, Copy)]
struct Place {
    start: u32,
    middle: u32,
    end: u32,
}

/// The message ids that a message refers to, in order. Clauses see it as the list of them. They stand in one vector of
/// bytes and one of places, so an id takes the bytes of its sides and twelve more, and no growth of its own.
#[derive(Drop)]
pub struct References {
    bytes: Vec<u8>,
    places: Vec<Place>,
}

impl Model for References {
    ghost use Rattle.std.specs.Prelude.{List, length};
    ghost use Rattle.mail_core.specs.MsgIds.{MessageId};
    ghost use Rattle.mail_core.specs.Places.{ids_at_places, ArePlacesWithin};

    ghost Value = { List MessageId };

    ghost view = { λ s. ids_at_places s.bytes.items s.places.items };

    ghost invariant = { λ s. ArePlacesWithin (length s.bytes.items) s.places.items };
}

/// A length as 32 bits. `Memory` where it takes more.
fn short(length: usize) -> Result<u32, Memory>
    ensures { IfOk result (λ short. short ≡ length) }
{
    if length > u32::MAX as usize {
        return Err(Memory);
    }
    Ok(length as u32)
}

/// Puts the sides of an id behind these bytes.
fn push_sides(bytes: &mut Vec<u8>, left: &[u8], right: &[u8]) -> Result<Place, Memory>
    ensures place { IfOk result (λ place. IsPlaceWithin (length bytes.new.items) place
        × (id_at_place bytes.new.items place ≡ record { left = left.now; right = right.now })) }
    ensures kept { IsPrefixOfBytes bytes.old.items bytes.new.items }
{
    let start = short(bytes.len())?;
    bytes.extend_from_slice(left)?;
    let middle = short(bytes.len())?;
    bytes.extend_from_slice(right)?;
    let end = short(bytes.len())?;
    Ok(Place { start, middle, end })
}

/// The id that stands there.
fn read_rowid<'a>(bytes: &'a [u8], place: &Place) -> MsgIdRef<'a>
    requires { IsPlaceWithin (length bytes.now) place.now }
    ensures { result ≡ id_at_place bytes.entry.now place.now }
{
    let (start, middle, end) = (
        place.start as usize,
        place.middle as usize,
        place.end as usize,
    );
    MsgIdRef::new(&bytes[start..middle], &bytes[middle..end])
}

impl References {
    /// No references, which takes no memory.
    pub fn new(alloc: Global) -> References
        ensures { result ≡ [] }
    {
        References {
            bytes: Vec::new(alloc),
            places: Vec::new(alloc),
        }
    }

    /// How many there are.
    pub fn len(&self) -> usize
        ensures { result ≡ length self.now }
    {
        self.places.len()
    }

    /// Whether there is none.
    pub fn is_empty(&self) -> bool
        ensures { result ≡ (length self.now == 0) }
    {
        self.places.is_empty()
    }

    /// The one at a place, from 0 on.
    pub fn get(&self, at: usize) -> MsgIdRef<'_>
        requires { at < length self.now }
        ensures { (other : MessageId) → result ≡ get_or self.now at other }
    {
        let place = &self.places[at];
        read_rowid(self.bytes.as_slice(), place)
    }

    /// Puts an id behind the others. `Memory` where no memory is left, or where the bytes of all sides would be 4 GB;
    /// the references are then as they were.
    pub fn push(&mut self, id: &MsgIdRef<'_>) -> Result<(), Memory>
        ensures ok { OnOk result (self.new ≡ self.old ++ id.now ∷ []) }
        ensures err { OnErr result (self.new ≡ self.old) }
    {
        let place = push_sides(&mut self.bytes, id.left(), id.right())?;
        self.places.push(place)?;
        Ok(())
    }
}
