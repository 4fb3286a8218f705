//! What a seat was told of a history.

ghost use Rattle.std.specs.Prelude.{ℕ, List};

/// What was told of one history, to which entries are only added. Whatever is of one type is told of the same history.
pub trait ToldHistory {
    /// By what was told, the line tells the entry at this place.
    ghost tells: { Self → ℕ → List ℕ → Type 0 };

    /// Is told all that the other was told.
    fn hear(&mut self, other: &Self)
        ensures same { (place : ℕ) (line : List ℕ) → tells self.old place line → tells self.new place line }
        ensures heard { (place : ℕ) (line : List ℕ) → tells other.now place line → tells self.new place line };
}
