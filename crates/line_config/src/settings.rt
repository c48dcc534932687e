//! The values that settings take.
ghost use Rattle.std.specs.Prelude.{◌≡◌};
ghost use Rattle.line_config.specs.Config.{duplicates_of, timeout_of};

/// What a beep does.
#[derive(Clone, Copy, Debug, Default, PartialEq, Eq)]
pub enum BellStyle {
    /// The terminal's bell rings.
    #[default]
    Audible,
    /// Nothing.
    None,
    /// The screen flashes. Sessions don't do this: here it does nothing.
    Visible,
}

/// Which repeated lines a history leaves out.
#[derive(Clone, Copy, Debug, PartialEq, Eq)]
pub enum HistoryDuplicates {
    /// None.
    AlwaysAdd,
    /// A line that equals the last entry.
    IgnoreConsecutive,
}

impl HistoryDuplicates {
    // The value for whether repeated lines are left out.
    pub(crate) fn when(ignored: bool) -> Self
        ensures { result ≡ duplicates_of ignored }
    {
        if ignored {
            HistoryDuplicates::IgnoreConsecutive
        } else {
            HistoryDuplicates::AlwaysAdd
        }
    }
}

/// How several candidates of a completion are shown.
#[derive(Clone, Copy, Debug, PartialEq, Eq)]
pub enum CompletionType {
    /// Each further press of the key shows the next candidate.
    Circular,
    /// The word is completed as far as all candidates agree; then they are listed.
    List,
}

/// A standard keymap.
#[derive(Clone, Copy, Debug, PartialEq, Eq)]
pub enum EditMode {
    /// Emacs's.
    Emacs,
    /// Vi's.
    Vi,
}

impl EditMode {
    // The timeout of key sequences, in milliseconds, that is set with the mode.
    pub(crate) fn keyseq_timeout(self) -> Option<u16>
        ensures { result ≡ timeout_of self }
    {
        match self {
            EditMode::Emacs => None,
            EditMode::Vi => Some(500),
        }
    }
}

/// Whether highlighting is drawn.
#[derive(Clone, Copy, Debug, PartialEq, Eq)]
pub enum ColorMode {
    /// If the terminal supports it.
    Enabled,
    /// Even if the terminal doesn't support it.
    Forced,
    /// Never.
    Disabled,
}

/// Which files an editor works on.
#[derive(Clone, Copy, Debug, Default, PartialEq, Eq)]
pub enum Behavior {
    /// Standard input and output.
    #[default]
    Stdio,
    /// The terminal if there is one, whatever standard input and output are.
    PreferTerm,
}
