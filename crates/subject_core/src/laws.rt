//! Laws of the definitions: what base subjects are, beside how they are found.
ghost use Rattle.std.specs.Prelude.{◌≡◌, ℕ, ◌<◌, Bool, false, List, ◌++◌, length};
ghost use Rattle.subject_core.specs.Pieces.{ascii_lowercase};
ghost use Rattle.subject_core.specs.BaseSubject.{RemovesOnePiece, HasTrailer, IsBaseSubject, base_subject_of, is_reply};

/// The removals end, and they end at one base with one mark of a reply, whatever they leave open.
pub fn removals_end_at_one_base()
    ensures shortens { (text rest : List ℕ) (reply : Bool) → RemovesOnePiece text reply rest → length rest < length text }
    ensures ends { (subject : List ℕ) → IsBaseSubject subject (base_subject_of subject) (is_reply subject) }
    ensures one { (subject base : List ℕ) (reply : Bool) → IsBaseSubject subject base reply → (base ≡ base_subject_of subject) × (reply ≡ is_reply subject) }
{}

/// A removal at the front uncovers no trailer, so that trailers may go first throughout.
pub fn removing_a_front_uncovers_no_trailer()
    ensures { (front rest : List ℕ) → HasTrailer rest → HasTrailer (front ++ rest) }
{}

/// A base is its own base and marks no reply, and it is in lower case.
pub fn a_base_is_its_own_base()
    ensures base { (subject : List ℕ) → base_subject_of (base_subject_of subject) ≡ base_subject_of subject }
    ensures no_reply { (subject : List ℕ) → is_reply (base_subject_of subject) ≡ false }
    ensures lower_case { (subject : List ℕ) → ascii_lowercase (base_subject_of subject) ≡ base_subject_of subject }
{}

/// The case of ASCII letters makes no difference.
pub fn ascii_case_makes_no_difference()
    ensures base { (subject : List ℕ) → base_subject_of (ascii_lowercase subject) ≡ base_subject_of subject }
    ensures reply { (subject : List ℕ) → is_reply (ascii_lowercase subject) ≡ is_reply subject }
{}
