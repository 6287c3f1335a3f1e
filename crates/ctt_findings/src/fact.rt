//! The facts of a finding.

use ctt_line::Word;
use std::marker::Model;

/// A word or a number.
#[derive(Clone, Copy, Drop)]
pub(crate) enum FactValue<'i> {
    /// A name of the instance, or a word of the program's own.
    Text(&'i str),
    /// A number.
    Number(u64),
}

/// A value, with the key of its member in a JSON object.
#[derive(Drop)]
pub(crate) struct Fact<'i> {
    key: &'static str,
    value: FactValue<'i>,
}

impl<'i> Model for Fact<'i> {
    ghost use Rattle.ctt_findings.specs.Lines.{Fact as KeyedValue};
    ghost use Rattle.ctt_findings.specs.FactValues.{content_of};

    ghost Value = { KeyedValue };

    ghost view = { λ f. record { key = f.key.now; value = content_of f.value } };
}

impl<'i> Fact<'i> {
    ghost use Rattle.std.specs.Prelude.{◌≡◌};
    ghost use Rattle.ctt_findings.specs.Lines.{fact, number, text_of, word};
    ghost use Rattle.ctt_findings.specs.FactValues.{content_of};

    /// Creates a fact whose value is a text.
    pub(crate) fn text(key: &'static str, text: &'i str) -> Self
        ensures { result ≡ fact key.now (word text.now) }
    {
        Fact {
            key,
            value: FactValue::Text(text),
        }
    }

    /// Creates a fact whose value is a number.
    pub(crate) fn number(key: &'static str, count: u64) -> Self
        ensures { result ≡ fact key.now (number count) }
    {
        Fact {
            key,
            value: FactValue::Number(count),
        }
    }

    /// Returns the key.
    pub(crate) fn key(&self) -> &'static str
        ensures { result.now ≡ self.now.key }
    {
        self.key
    }

    /// Returns the value.
    pub(crate) fn value(&self) -> FactValue<'i>
        ensures { content_of result ≡ self.now.value }
    {
        self.value
    }

    /// Returns the value as a word of a line.
    pub(crate) fn word(&self) -> Word<'i>
        ensures { result ≡ text_of self.now.value }
    {
        match self.value {
            FactValue::Text(word) => Word::text(word),
            FactValue::Number(number) => Word::number(number),
        }
    }
}

impl<'i> Default for Fact<'i> {
    /// Returns an empty text with an empty key.
    fn default() -> Self {
        Fact::text("", "")
    }
}
