//! Laws of the tables: each contract is a law over the definitions of `specs/` alone, and no call does anything.
ghost use Rattle.std.specs.Prelude.{◌≡◌, ℕ, ℤ, List, map, Some};
ghost use Rattle.sqlite.specs.Tree.{Trees};
ghost use Rattle.archive_model.specs.Questions.{messages_in};
ghost use Rattle.archive_model.specs.Filing.{indexed_messages, messages_in_month, messages_by_author};
ghost use Rattle.archive_model.specs.Damage.{sort_by_list_name};
ghost use Rattle.archive_tables.specs.Tables.{AreArchiveTables, archive_in_trees};
ghost use Rattle.archive_tables.specs.Rows.{message_rowids_in, month_rowids, author_rowids, message_at};
ghost use Rattle.archive_tables.specs.Listed.{all_rowids, filed_at};

/// The messages of the numbers of a list are the list's messages, in mailbox order.
pub fn a_walk_shows_each_message()
    ensures { (trees : Trees) (list : List ℕ) → AreArchiveTables trees
        → map (message_at trees) (message_rowids_in trees list) ≡ map Some
        (messages_in (archive_in_trees trees) list) }
{}

/// The messages of the numbers that are filed under a month or an author key are those, by the sent date that is filed and then in
/// mailbox order.
pub fn a_walk_shows_each_filed_message()
    ensures month { (trees : Trees) (list : List ℕ) (month : ℤ) → AreArchiveTables trees
        → map (message_at trees) (month_rowids trees list month) ≡ map Some
        (messages_in_month (archive_in_trees trees) list month) }
    ensures author { (trees : Trees) (list key : List ℕ) → AreArchiveTables trees
        → map (message_at trees) (author_rowids trees list key) ≡ map Some
        (messages_by_author (archive_in_trees trees) list key) }
{}

/// The messages of the numbers of all, each with what is filed of it, are those by the names of their lists and then in mailbox
/// order.
pub fn a_walk_shows_each_message_of_all_lists()
    ensures { (trees : Trees) → AreArchiveTables trees
        → map (filed_at trees) (all_rowids trees) ≡ map Some (sort_by_list_name (indexed_messages (archive_in_trees trees))) }
{}
