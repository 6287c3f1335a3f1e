//! The files of a page, by name.

ghost use Rattle.std.specs.Prelude.{◌≡◌, option_map};
ghost use Rattle.ctt_web.specs.Asked.{held_of};

use crate::asked::{Asked, bytes_at};
use ctt_files::{Device, Failed, Files};

/// The files that a page passes. None can be stored.
#[derive(Drop)]
pub(crate) struct PageFiles<'a> {
    bytes: &'a [u8],
    asked: &'a Asked,
}

impl<'a> PageFiles<'a> {
    ghost use Rattle.ctt_web.specs.Asked.{bytes_in, asked_in};

    /// Returns the files among these bytes.
    pub(crate) fn new(bytes: &'a [u8], asked: &'a Asked) -> Self
        ensures bytes { bytes_in result ≡ bytes.now }
        ensures asked { asked_in result ≡ asked.now }
    {
        PageFiles { bytes, asked }
    }
}

/// Returns the text of the file of this name.
#[tactic(auto, unfolding(crate::specs::Asked::text_of))]
fn text_of<'a>(bytes: &'a [u8], asked: &Asked, name: &[u8]) -> Option<&'a [u8]>
    ensures { option_map (λ text. text.now) result ≡ held_of bytes.now asked.now name.now }
{
    if name == bytes_at(bytes, asked.instance.name) {
        Some(bytes_at(bytes, asked.instance.text))
    } else if name == bytes_at(bytes, asked.solution.name) {
        Some(bytes_at(bytes, asked.solution.text))
    } else if name == bytes_at(bytes, asked.barred.name) {
        Some(bytes_at(bytes, asked.barred.text))
    } else if name == bytes_at(bytes, asked.blocked.name) {
        Some(bytes_at(bytes, asked.blocked.text))
    } else {
        None
    }
}

impl<'a> Files for PageFiles<'a> {
    ghost use Rattle.ctt_web.specs.Asked.{held_in};

    type Input = Device<&'a [u8]>;

    ghost held = { held_in };

    fn fetch(&mut self, name: &str) -> Result<Device<&'a [u8]>, Failed> {
        match text_of(self.bytes, self.asked, name.as_bytes()) {
            Some(text) => Ok(Device::new(text)),
            None => Err(Failed),
        }
    }

    fn store(&mut self, _name: &str, _bytes: &[u8]) -> Result<(), Failed> {
        Err(Failed)
    }
}
