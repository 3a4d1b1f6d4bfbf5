//! A change of payloads.
ghost use Rattle.std.specs.Prelude.{◌≡◌};

/// What a payload becomes.
pub trait Change<N: Copy> {
    // What a payload becomes.
    ghost changed: { Self → N → N };

    /// What a payload becomes.
    fn changed(&self, payload: N) -> N
        ensures { result ≡ changed self.now payload };
}
