ghost use Rattle.std.specs.Prelude.{◌≡◌, ℕ};

/// What can be posted: it knows who sends it.
pub trait Sent: Drop {
    /// The number of its sender.
    ghost sender_of: { Self → ℕ };

    /// The number of its sender.
    fn sender(&self) -> u8
        ensures { result ≡ sender_of self.now };
}
