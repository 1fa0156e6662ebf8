//! What threads messages on a system.
use archive_files::HasRandom;
use archive_run::Threaders;
use thread_core::NodeThreader;

/// Threaders that hash identifiers by random bytes of a system.
#[derive(Drop)]
pub struct SystemThreaders<'a, R> {
    /// The system that is asked for the bytes.
    pub rt: &'a R,
}

impl<'a, R: HasRandom> Threaders for SystemThreaders<'a, R> {
    type Threader = NodeThreader;

    // One is made exactly if the system gave random bytes.
    ghost makes = { λ it is_made. R.seeds it.rt.now is_made };

    fn threader(&self) -> Option<NodeThreader> {
        let state = self.rt.random_state()?;
        Some(NodeThreader::new(state))
    }
}
