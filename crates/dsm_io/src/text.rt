//! The words of a command line.

ghost use Rattle.std.specs.Prelude.{◌≡◌, string_bytes};

use std::convert::AsStr;
use std::marker::Model;

/// One word of the command line, which contracts see as its UTF-8 bytes.
#[derive(Drop)]
pub struct Text {
    word: String,
}

impl Model for Text {
    ghost use Rattle.std.specs.Prelude.{List, ℕ, string_bytes};

    ghost Value = { List ℕ };

    ghost view = { λ t. string_bytes t.word };
}

impl Text {
    /// Keeps the word as it is.
    pub fn of(word: String) -> Text
        ensures { result ≡ string_bytes word }
    {
        Text { word }
    }

    /// Lends the word.
    pub fn as_str(&self) -> &str
        ensures { result.now ≡ self.now }
    {
        self.word.as_str()
    }
}

impl AsStr for Text {
    ghost text = { λ word. word };

    fn as_str(&self) -> &str {
        Text::as_str(self)
    }
}
