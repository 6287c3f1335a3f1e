//! Names as HTML text.

ghost use Rattle.std.specs.Prelude.{Some};
ghost use Rattle.ctt_views.specs.Escape.{escaped, escaped_char};

use std::fmt;

/// A character as HTML text. One that has a meaning in HTML becomes a character reference.
#[derive(Clone, Copy)]
struct EscapedChar(char);

impl fmt::Display for EscapedChar {
    ghost output = { λ letter. Some (escaped_char letter.0) };

    fn fmt<W: fmt::Write>(&self, f: &mut fmt::Formatter<W>) -> fmt::Result {
        match self.0 {
            '&' => f.write_str("&amp;"),
            '<' => f.write_str("&lt;"),
            '>' => f.write_str("&gt;"),
            '"' => f.write_str("&quot;"),
            '\'' => f.write_str("&#39;"),
            letter => f.write_char(letter),
        }
    }
}

/// A text as HTML text, in which no character has a meaning in HTML.
#[derive(Clone, Copy)]
pub(crate) struct Escaped<'a>(pub(crate) &'a str);

impl fmt::Display for Escaped<'_> {
    ghost output = { λ text. Some (escaped text.0.now) };

    fn fmt<W: fmt::Write>(&self, f: &mut fmt::Formatter<W>) -> fmt::Result {
        for letter in self.0.chars() {
            EscapedChar(letter).fmt(f)?;
        }
        Ok(())
    }
}
