//! Names, numbered in the order in which they were added.

ghost use Rattle.std.specs.Prelude.{◌≡◌, ◌<◌, ◌≤◌, ◌++◌, ◌∷◌, [], false, OnOk, OnErr, IfOk, length, IfSome};
ghost use Rattle.std.specs.Str.{bytes_eq};
ghost use Rattle.std.specs.List.{slice_index_or};
ghost use Rattle.ctt_problem.specs.Problem.{is_among, place_of, number_in};
ghost use Rattle.ctt_problem.specs.Lists.{with_new};

use indexmap::IndexSet;
use std::alloc::{AllocError, Global};
use std::marker::Model;

/// A list of distinct names.
pub struct Names {
    names: IndexSet<String>,
}

// A derived `Drop` would be proved again in each dependent crate.
impl Drop for Names {
    fn drop(self) {
        let Names { names: _ } = self;
    }
}

impl Model for Names {
    ghost use Rattle.std.specs.Prelude.{List, ℕ, map};
    ghost use Rattle.std.specs.String.{string_bytes};

    ghost Value = { List (List ℕ) };

    ghost view = { λ n. map string_bytes n.names.keys };
}

impl Names {
    /// Returns an empty list.
    pub fn new(alloc: Global) -> Self
        ensures { result ≡ [] }
    {
        Names {
            names: IndexSet::new(alloc),
        }
    }

    /// Returns the number of names.
    pub fn len(&self) -> usize
        ensures { result ≡ length self.now }
    {
        self.names.len()
    }

    /// Returns whether a name is in the list.
    pub fn contains(&self, name: &str) -> bool
        ensures { result ≡ is_among self.now name.now }
    {
        self.names.contains(name)
    }

    /// Returns the number of a name, if it is in the list.
    pub fn number(&self, name: &str) -> Option<usize>
        ensures number { result ≡ number_in self.now name.now }
        ensures within { IfSome result (λ n. n < length self.now) }
    {
        self.names.get_index_of(name)
    }

    /// Returns the name with a number.
    pub fn name(&self, number: usize) -> &str
        requires { number < length self.now }
        ensures { result.now ≡ slice_index_or self.now number [] }
    {
        self.names.as_slice()[number].as_str()
    }

    /// Returns the number of a name, and appends the name if it is new. Copies the name in either
    /// case.
    fn insert(&mut self, alloc: Global, name: &str) -> Result<usize, AllocError>
        ensures number { IfOk result (λ n. n ≡ place_of self.old name.now) }
        ensures within { IfOk result (λ n. n ≤ length self.old) }
        ensures names { OnOk result (self.new ≡ with_new bytes_eq self.old name.now) }
        ensures kept { OnErr result (self.new ≡ self.old) }
    {
        let (number, _) = self.names.insert_full(String::from_str(alloc, name)?)?;
        Ok(number)
    }

    /// Returns the number of a name, and appends the name if it is new. Copies only a new name. If
    /// memory runs out, the names are unchanged.
    pub fn number_or_add(&mut self, alloc: Global, name: &str) -> Result<usize, AllocError>
        ensures number { IfOk result (λ n. n ≡ place_of self.old name.now) }
        ensures within { IfOk result (λ n. n ≤ length self.old) }
        ensures names { OnOk result (self.new ≡ with_new bytes_eq self.old name.now) }
        ensures kept { OnErr result (self.new ≡ self.old) }
    {
        if let Some(number) = self.number(name) {
            return Ok(number);
        }
        self.insert(alloc, name)
    }

    /// Appends a new name. If memory runs out, the names are unchanged.
    pub fn add(&mut self, alloc: Global, name: &str) -> Result<(), AllocError>
        requires { is_among self.old name.now ≡ false }
        ensures added { OnOk result (self.new ≡ self.old ++ name.now ∷ []) }
        ensures kept { OnErr result (self.new ≡ self.old) }
    {
        self.insert(alloc, name)?;
        Ok(())
    }
}
