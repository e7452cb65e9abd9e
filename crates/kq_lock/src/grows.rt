// Values that grow.
ghost use Rattle.std.specs.Prelude.{◌≡◌, List, ℕ, length};

/// A value with a history, which only ever gets longer at its end while it is behind a `Turn`.
pub trait Grows {
    /// What one entry of the history is.
    type Entry;

    ghost history: { Self → List Self.Entry };

    // What never changes.
    ghost fixed: { Self → List ℕ };

    /// The length of the history.
    fn count(&self) -> u64
        ensures { result ≡ length (history self.now) };
}
