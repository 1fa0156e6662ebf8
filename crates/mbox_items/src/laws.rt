//! What holds of all separator lines and messages: each contract is a law over the definitions of `specs/` alone, and no call
//! does anything.
ghost use Rattle.std.specs.Prelude.{◌≡◌, ℕ, List, true};
ghost use Rattle.mbox_items.specs.Separator.{Envelope, IsSeparator};
ghost use Rattle.mail_core.specs.Lines.{lines};
ghost use Rattle.mbox_items.specs.Division.{Item, NoneSeparates, is_empty_or_ends_in_lf, whole};
ghost use Rattle.mbox_items.specs.Written.{IsItem, whole_item};

/// No content of a line says two envelopes.
pub fn each_line_has_at_most_one_envelope()
    ensures { (said : List ℕ) (a b : Envelope) → IsSeparator said a → IsSeparator said b → a ≡ b }
{}

/// A whole text is empty or ends in LF, and so it is its own whole text.
pub fn a_whole_text_is_its_own_whole_text()
    ensures whole { (text : List ℕ) → is_empty_or_ends_in_lf (whole text) ≡ true }
    ensures once { (text : List ℕ) → whole (whole text) ≡ whole text }
{}

/// A line of the whole text is a separator line that follows an empty line exactly where one of the text is.
pub fn a_whole_text_has_the_same_separators()
    ensures whole { (text : List ℕ) → NoneSeparates (lines text) → NoneSeparates (lines (whole text)) }
    ensures text { (text : List ℕ) → NoneSeparates (lines (whole text)) → NoneSeparates (lines text) }
{}

/// A message that can be written is one with its whole text in place of its text too.
pub fn whole_items_stay_items()
    ensures { (item : Item) → IsItem item → IsItem (whole_item item) }
{}
