//! What a state behind a gate can do.
ghost use Rattle.std.specs.Prelude.{◌≡◌, ℕ};

/// A state that changes by turns.
pub trait Turned {
    /// What a turn is asked for.
    type Event;

    /// What a turn answers.
    type Outcome;

    // Whether a turn of the first state by the event may answer the outcome and leave the second state.
    ghost turns: { Self → Self.Event → Self.Outcome → Self → Type 0 };

    // The low and the high epoch of a state.
    ghost low: { Self → ℕ };

    ghost high: { Self → ℕ };

    /// Makes one turn. Every turn is answered: a refusal is an outcome.
    fn turn(&mut self, event: Self::Event) -> Self::Outcome
        ensures { turns self.old event result self.new };

    /// The low and the high epoch.
    fn epochs(&self) -> (u32, u32)
        ensures { (result.0 ≡ low self.now) × (result.1 ≡ high self.now) };
}
