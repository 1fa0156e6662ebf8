//! What the settled items of a stream are to the items of what it becomes: each contract is a law over the definitions of
//! `specs/` alone, and no call does anything.
ghost use Rattle.std.specs.Prelude.{◌≡◌, ◌++◌, ◌∷◌, [], ℕ, List};
ghost use Rattle.mbox_core.specs.Division.{Item, DividesIntoItems, IsPreamble};
ghost use Rattle.mbox_stream.specs.Stream.{IsBeginning, settled_bytes, settled_items, IsSettledPreamble};

/// The settled items of a stream are a beginning of the items of every continuation that has a division.
pub fn settled_items_begin_each_division()
    ensures { (stream more : List ℕ) (items : List Item) → DividesIntoItems (stream ++ more) items → IsBeginning (settled_items stream) items }
{}

/// Where some continuation has a line in front that is no separator line, nothing is settled.
pub fn no_item_is_settled_before_a_preamble()
    ensures { (stream more : List ℕ) (offset : ℕ) → IsPreamble (stream ++ more) offset → settled_items stream ≡ [] }
{}

/// Where that line lies in the stream with its LF, every continuation has it, at the same offset.
pub fn a_settled_preamble_stays()
    ensures { (stream more : List ℕ) (offset : ℕ) → IsSettledPreamble stream offset → IsPreamble (stream ++ more) offset }
{}

/// What was settled stays settled as the stream goes on.
pub fn settled_items_only_grow()
    ensures { (stream more : List ℕ) → IsBeginning (settled_items stream) (settled_items (stream ++ more)) }
{}

/// Nothing is held back: of whole lines that have a division, all items but the last are settled.
pub fn whole_lines_settle_all_items_but_the_last()
    ensures { (stream : List ℕ) (items : List Item) (last : Item) → settled_bytes stream ≡ stream → DividesIntoItems stream (items ++ last ∷ []) → settled_items stream ≡ items }
{}
