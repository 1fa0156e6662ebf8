//! What holds of all mbox files: each contract is a law over the definitions of `specs/` alone, and no call does anything.
ghost use Rattle.std.specs.Prelude.{◌≡◌, ◌⊎◌, ℕ, List, map};
ghost use Rattle.std.specs.List.{All};
ghost use Rattle.mbox_items.specs.Division.{Item, DividesIntoItems, IsPreamble};
ghost use Rattle.mbox_items.specs.Written.{IsItem, written, whole_item};

pub use mbox_items::laws::{
    a_whole_text_has_the_same_separators, a_whole_text_is_its_own_whole_text,
    each_line_has_at_most_one_envelope, whole_items_stay_items,
};

/// No bytes have two divisions.
pub fn each_text_has_at_most_one_division()
    ensures { (bytes : List ℕ) (is js : List Item) → DividesIntoItems bytes is → DividesIntoItems bytes js → is ≡ js }
{}

/// Bytes have a division, or their first line that is not empty is no separator line.
pub fn each_text_has_a_division_or_a_preamble()
    ensures { (bytes : List ℕ) → ((is : List Item) × DividesIntoItems bytes is) ⊎ ((offset : ℕ) × IsPreamble bytes offset) }
{}

/// Bytes whose first line that is not empty is no separator line have no division.
pub fn no_text_has_a_division_and_a_preamble()
    ensures { (bytes : List ℕ) (is : List Item) (offset : ℕ) → DividesIntoItems bytes is → ¬ IsPreamble bytes offset }
{}

/// The first line that is not empty has one offset.
pub fn each_text_has_at_most_one_preamble()
    ensures { (bytes : List ℕ) (a b : ℕ) → IsPreamble bytes a → IsPreamble bytes b → a ≡ b }
{}

/// Each message of a division is one that can be written: its sender is a written form, its arrival lies in the years
/// 1900 to 9998, and its whole text holds no separator line that follows an empty line.
pub fn messages_of_a_division_are_items()
    ensures { (bytes : List ℕ) (items : List Item) → DividesIntoItems bytes items → All IsItem items }
{}

/// What is written is cut again: its division has the same envelopes, and the whole texts as its texts.
pub fn written_messages_are_cut_again()
    ensures { (items : List Item) → All IsItem items → DividesIntoItems (written items) (map whole_item items) }
{}
