//! What a subject gives: its base, and whether it marks a reply.
use mail_core::Octets;

/// The base of a subject, and whether the subject marks a reply or a forward.
#[derive(Debug, Drop)]
pub struct Base {
    /// The base subject in ASCII lower case.
    pub text: Octets,
    /// Whether a mark of a reply or a forward was removed: `Re:`, `Fw:`, `Fwd:`, `(fwd)` or `[fwd:` with `]`.
    pub reply: bool,
}
