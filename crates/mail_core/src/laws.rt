//! Laws of the definitions.

ghost use Rattle.std.specs.Prelude.{◌≡◌, ◌++◌, List, ℕ, Some};
ghost use Rattle.mail_core.specs.Comments.{BeginsWithComment, after_comment};
ghost use Rattle.mail_core.specs.MsgIds.{MessageId, IsMsgId};
ghost use Rattle.mail_core.specs.Pieces.{Piece, Pieces, ids_in};
ghost use Rattle.mail_core.specs.MsgIds.{ids_of};

/// A comment begins a text exactly where the count of depth says so, and it ends where the count says.
pub fn depth_count_finds_comments()
    ensures counted { (text rest : List ℕ) → BeginsWithComment text rest → after_comment text ≡ Some rest }
    ensures comment { (text rest : List ℕ) → after_comment text ≡ Some rest → BeginsWithComment text rest }
    ensures one { (text r s : List ℕ) → BeginsWithComment text r → BeginsWithComment text s → r ≡ s }
{}

/// No msg-id has two readings.
pub fn each_msg_id_has_one_reading()
    ensures { (m n : List ℕ) (i j : MessageId) (r s : List ℕ) → IsMsgId m i → IsMsgId n j → m ++ r ≡ n ++ s → i ≡ j }
{}

/// Each text has exactly one division into pieces, and its identities are those of the function.
pub fn each_text_has_one_division()
    ensures some { (text : List ℕ) → (ps : List Piece) × Pieces text ps }
    ensures one { (ps qs : List Piece) (text : List ℕ) → Pieces text ps → Pieces text qs → ps ≡ qs }
    ensures one_list { (ps : List Piece) (text : List ℕ) → Pieces text ps → ids_in ps ≡ ids_of text }
{}
