//! The device that makes what threads messages.
use thread_core::Threader;

/// Whoever makes what threads messages.
pub trait Threaders {
    ghost use Rattle.std.specs.Prelude.{Bool, is_some, ⊤};

    type Threader: Threader + Drop;

    // Holds of whoever makes one, and of whether it was made.
    ghost makes: { Self → Bool → Type 0 } = { λ _ _. ⊤ };

    /// What threads messages. `None`: it cannot be made.
    fn threader(&self) -> Option<Self::Threader>
        ensures { makes self.now (is_some result) };
}
