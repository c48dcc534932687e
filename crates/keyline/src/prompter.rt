//! Prompts and columns for lines that are read one after the other.

/// Gives each line its prompt, and the number of columns of the display's rows.
pub trait Prompter {
    ghost use Rattle.std.specs.Prelude.{◌≡◌, ◌≤◌, ℕ, suc};
    ghost use Rattle.keyline.specs.Sessions.{LineGiven};

    ghost lines: { Self → ℕ → LineGiven };

    /// The next line's prompt.
    fn prompt(&self) -> &str
        ensures { result.now ≡ (lines self.now 0).prompt };

    /// The number of columns of the display's rows for the next line, 2 to 1,000.
    fn columns(&self) -> u16
        ensures columns { result ≡ (lines self.now 0).columns }
        ensures drawable { (2 ≤ result) × (result ≤ 1000) };

    /// Goes on to the line after it.
    fn advance(&mut self)
        ensures { lines self.new ≡ (λ line. lines self.old (suc line)) };
}
