//! What holds of pages, whatever a mail says: each contract is a law over the definitions of
//! `specs/` alone, and no call does anything.
ghost use Rattle.archive_html.specs.Laws.{EscapedHtmlIsInert, PercentEncodedIsInert, AuthorTargetRoundTrips, MonthTargetRoundTrips};

/// A shown text is printable ASCII without `"`, `<` and `>`, and so is an escaped one: nothing
/// breaks out of its place.
pub fn escaped_texts_are_inert()
    ensures shown { EscapedHtmlIsInert }
    ensures escaped { PercentEncodedIsInert }
{}

/// The target of an author's link, decoded, is the author key.
pub fn author_links_round_trip()
    ensures { AuthorTargetRoundTrips }
{}

/// The target of a message's month link is the month in which it was sent.
pub fn month_links_round_trip()
    ensures { MonthTargetRoundTrips }
{}
