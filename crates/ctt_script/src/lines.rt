//! The lines of a script.

ghost use Rattle.std.specs.Prelude.{◌≡◌, ◌==◌, position};
ghost use Rattle.std.specs.Iterator.{YieldsFirstRef, item_count};
ghost use Rattle.ctt_script.specs.ScriptText.{lines_of};

use memchr::memchr;
use std::marker::Model;

/// An iterator over the lines of a text, split at each newline (byte 10). A text that ends with a
/// newline has an empty last line.
#[derive(Drop)]
pub struct Lines<'a> {
    rest: &'a [u8],
    is_done: bool,
}

impl<'a> Model for Lines<'a> {
    ghost use Rattle.std.specs.Prelude.{List, ℕ, [], cond};
    ghost use Rattle.ctt_script.specs.ScriptText.{lines_of};

    ghost Value = { List (List ℕ) };

    ghost view = { λ l. cond l.is_done [] (lines_of l.rest.now) };
}

/// Returns the index of the first newline.
pub fn line_end(text: &[u8]) -> Option<usize>
    ensures { result ≡ position (λ b. b == 10) text.now }
{
    memchr(b'\n', text)
}

impl<'a> Lines<'a> {
    /// Starts at the first line of a text.
    pub fn new(text: &'a [u8]) -> Self
        ensures { result ≡ lines_of text.now }
    {
        Lines {
            rest: text,
            is_done: false,
        }
    }
}

impl<'a> Iterator for Lines<'a> {
    type Item = &'a [u8];

    ghost next_gives = { YieldsFirstRef (λ left. left) };

    ghost remaining = { item_count (λ left. left) };

    #[tactic(auto, using(crate::proofs::ScriptLaws::first_or_only))]
    fn next(&mut self) -> Option<&'a [u8]> {
        if self.is_done {
            return None;
        }
        match line_end(self.rest) {
            Some(end) => {
                let line = &self.rest[..end];
                self.rest = &self.rest[end + 1..];
                Some(line)
            }
            None => {
                self.is_done = true;
                Some(self.rest)
            }
        }
    }
}
