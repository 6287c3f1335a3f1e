//! A word of a line.

use std::marker::Model;

/// The content of a word.
#[derive(Clone, Copy, Drop)]
pub(crate) enum Form<'a> {
    Text(&'a str),
    Number(u64),
    Amount(i64),
}

/// A word of a line: a text without blanks, or a number in decimal.
#[derive(Drop)]
pub struct Word<'a> {
    form: Form<'a>,
}

impl<'a> Model for Word<'a> {
    ghost use Rattle.std.specs.Prelude.{List, ℕ};
    ghost use Rattle.ctt_line.specs.Words.{bytes_of};

    ghost Value = { List ℕ };

    ghost view = { λ w. bytes_of w.form };
}

impl<'a> Word<'a> {
    ghost use Rattle.std.specs.Prelude.{◌≡◌};
    ghost use Rattle.std.specs.Fmt.{decimal, signed_decimal};
    ghost use Rattle.ctt_line.specs.Words.{bytes_of};

    /// Returns a text as a word, such as a name or a keyword. It should have no blanks.
    pub fn text(text: &'a str) -> Self
        ensures { result ≡ text.now }
    {
        Word {
            form: Form::Text(text),
        }
    }

    /// Returns a number as a word, in decimal.
    pub fn number(number: u64) -> Self
        ensures { result ≡ decimal number }
    {
        Word {
            form: Form::Number(number),
        }
    }

    /// Returns an amount as a word, in decimal, with a leading `-` if it is negative.
    pub fn amount(amount: i64) -> Self
        ensures { result ≡ signed_decimal amount }
    {
        Word {
            form: Form::Amount(amount),
        }
    }

    /// Returns the content of the word.
    pub(crate) fn form(&self) -> Form<'a>
        ensures { bytes_of result ≡ self.now }
    {
        self.form
    }
}

impl<'a> Default for Word<'a> {
    /// Returns the empty word.
    fn default() -> Self {
        Word::text("")
    }
}
