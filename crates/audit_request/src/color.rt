ghost use Rattle.std.specs.Prelude.{◌≡◌};
ghost use Rattle.audit_request.specs.CommandLine.{color_of};

/// When what is written for people has colour.
#[derive(Clone, Copy, Debug, PartialEq, Eq)]
pub enum Color {
    /// Where it goes to a terminal.
    Auto,
    Always,
    Never,
}

impl Color {
    /// That which a word names.
    pub(crate) fn of_word(word: &str) -> Option<Color>
        ensures { result ≡ color_of word.now }
    {
        match word {
            "auto" => Some(Color::Auto),
            "always" => Some(Color::Always),
            "never" => Some(Color::Never),
            _ => None,
        }
    }
}
