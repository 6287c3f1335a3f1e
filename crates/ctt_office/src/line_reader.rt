//! Reading of lines from a source, one at a time.

ghost use Rattle.std.specs.Prelude.{◌≡◌, ◌<◌, ◌≤◌, ◌+◌, ◌-◌, ◌==◌, ℕ, List, [], true, false, length, drop, take, Ok, Some, OnErr, OnOk, OnSome, IfOk, IfSome, IfNone, IsErr, vec_len};
ghost use Rattle.std.specs.Vec.{vec_capacity};
ghost use Rattle.std.specs.Io.KnownBytes.{Keeps, IsAtEnd};
ghost use Rattle.ctt_log.specs.Recovery.{HasNoNewline};
ghost use Rattle.ctt_office.specs.Lines.{GivesNext, HasLine, IsLineThenRest, IsGrown, IsLong, IsReadOnce, FitsBuffer, IsShut, coming};
ghost use Rattle.ctt_office.specs.declared.line_reader.Next.TheVariants.{End, Line, TooLong};

use ctt_files::{Failed, Source};
use ctt_script::line_end;
use ctt_text::{NoMemory, drop_whole};
use std::alloc::Global;
use std::marker::Model;
use std::sync::Wait;

/// The greatest length of a line that is stored, in bytes without its newline.
pub const LINE_LIMIT: usize = 65_536;

/// The most bytes that one read asks for.
const BUFFER_SIZE: usize = 4096;

/// The capacity of the buffer: a line of the greatest length, and one more read.
const CAPACITY: usize = LINE_LIMIT + BUFFER_SIZE;

/// The outcome of a request for the next line.
#[derive(Clone, Copy, PartialEq, Eq)]
pub enum Next {
    /// A line, which `line` returns.
    Line,
    /// A line longer than `LINE_LIMIT`, of which nothing is stored.
    TooLong,
    /// Nothing: all lines have been returned.
    End,
}

/// A reader that returns one line after another. It reads from its source only if its buffer holds
/// no whole line. The buffer is allocated at construction, so that no line can run out of memory.
#[derive(Drop)]
pub struct LineReader<R: Source> {
    source: R,
    held: Vec<u8>,
    /// The current line is `held[start..end]`, and the bytes after it begin at `given`.
    start: usize,
    end: usize,
    given: usize,
    is_at_end: bool,
    /// Whether a read has failed. If so, no further read is tried.
    is_shut: bool,
}

impl<R: Source> Model for LineReader<R> {
    ghost use Rattle.std.specs.Prelude.{◌≡◌, ◌≤◌, ◌-◌, true, drop, take, vec_len};
    ghost use Rattle.std.specs.Vec.{vec_capacity};
    ghost use Rattle.std.specs.Io.KnownBytes.{IsAtEnd};
    ghost use Rattle.ctt_office.specs.Lines.{ReaderValue};

    ghost Value = { ReaderValue };

    ghost view = { λ r. record {
      line = take (r.end - r.start) (drop r.start r.held.items);
      held = drop r.given r.held.items;
      left = R.left r.source;
      pulls = R.pulls r.source;
      has_failed = R.has_failed r.source;
      is_shut = r.is_shut;
    } };

    ghost invariant = { λ r. (r.start ≤ r.end) × (r.end ≤ r.given) × (r.given ≤ vec_len r.held)
        × (69632 ≤ vec_capacity r.held) × (r.is_at_end ≡ true → IsAtEnd (R.left r.source))
        × (r.is_shut ≡ true → R.has_failed r.source ≡ true) };
}

/// Returns the offset of the first newline, if there is one.
#[tactic(auto, using(crate::proofs::LineLemmas::none_ends, crate::proofs::LineLemmas::cut))]
fn first_end(bytes: &[u8]) -> Option<usize>
    ensures some { OnSome result (HasLine bytes.now) }
    ensures cut { IfSome result (λ n.
        IsLineThenRest (take n bytes.now) (drop (n + 1) bytes.now) bytes.now) }
    ensures within { IfSome result (λ n. n < length bytes.now) }
    ensures none { IfNone result (HasNoNewline bytes.now) }
{
    line_end(bytes)
}

/// Removes the first `n` bytes.
fn remove_front(bytes: &mut Vec<u8>, n: usize)
    requires { n ≤ vec_len bytes.old }
    ensures items { bytes.new.items ≡ drop n bytes.old.items }
    ensures capacity { vec_capacity bytes.new ≡ vec_capacity bytes.old }
{
    let len = bytes.len();
    bytes.as_mut_slice().copy_within(n..len, 0);
    bytes.truncate(len - n);
}

impl<R: Source> LineReader<R> {
    /// Creates a reader that has returned no line yet.
    ///
    /// `NoMemory` if the buffer cannot be allocated.
    pub fn new(alloc: Global, source: R) -> Result<Self, NoMemory>
    where
        R: Drop,
        ensures line { IfOk result (λ lines. lines.line ≡ []) }
        ensures held { IfOk result (λ lines. lines.held ≡ []) }
        ensures left { IfOk result (λ lines. lines.left ≡ R.left source) }
        ensures pulls { IfOk result (λ lines. lines.pulls ≡ R.pulls source) }
        ensures failed { IfOk result (λ lines. lines.has_failed ≡ R.has_failed source) }
        ensures open { IfOk result (λ lines. lines.is_shut ≡ false) }
    {
        let Ok(held) = Vec::with_capacity(alloc, CAPACITY) else {
            drop_whole(source);
            return Err(NoMemory);
        };
        Ok(LineReader {
            source,
            held,
            start: 0,
            end: 0,
            given: 0,
            is_at_end: false,
            is_shut: false,
        })
    }

    /// Returns the current line, without its newline.
    pub fn line(&self) -> &[u8]
        ensures { result.now ≡ self.now.line }
    {
        &self.held[self.start..self.end]
    }

    /// Appends the bytes of one more read to those held, and returns whether there were any.
    fn pull(&mut self) -> Result<bool, Failed>
        requires open { HasNoNewline self.old.held }
        requires short { FitsBuffer self.old.held }
        ensures grown { result ≡ Ok true → IsGrown self.old self.new }
        ensures coming { OnOk result (Keeps (coming self.old) (coming self.new)) }
        ensures line { self.old.line ≡ [] → self.new.line ≡ [] }
        ensures end { result ≡ Ok false
            → (self.new.held ≡ self.old.held) × IsAtEnd self.new.left }
        ensures once { IsReadOnce R.left R.has_failed R.pulls self.old self.new.pulls }
        ensures failed { OnErr result (self.new.has_failed ≡ true) }
        ensures unmarked { OnOk result (self.new.has_failed ≡ self.old.has_failed) }
        ensures shut { OnErr result (IsShut self.new) }
    {
        if self.is_at_end {
            return Ok(false);
        }
        remove_front(&mut self.held, self.given);
        self.start = 0;
        self.end = 0;
        self.given = 0;
        let mut buffer = [0u8; BUFFER_SIZE];
        let Ok(n) = self.source.pull(&mut buffer) else {
            self.is_shut = true;
            return Err(Failed);
        };
        if n == 0 {
            self.is_at_end = true;
            return Ok(false);
        }
        self.held.extend_from_slice(&buffer[..n]).unwrap();
        Ok(true)
    }

    /// Takes the first line held, if its newline is held too.
    #[tactic(auto, using(crate::proofs::LineLemmas::cut_behind))]
    fn find(&mut self) -> Option<Next>
        ensures none { IfNone result ((self.new ≡ self.old) × HasNoNewline self.old.held) }
        ensures some { OnSome result (HasLine self.old.held) }
        ensures line { result ≡ Some Line
            → IsLineThenRest self.new.line self.new.held self.old.held × FitsBuffer self.new.line }
        ensures long { result ≡ Some TooLong → (self.new.line ≡ [])
            × ((line : List ℕ) × IsLong line × IsLineThenRest line self.new.held self.old.held) }
        ensures never { result ≡ Some End → ⊥ }
        ensures rest { self.new ≡ record self.old { line = self.new.line; held = self.new.held } }
    {
        let len = first_end(&self.held[self.given..])?;
        let (start, end) = (self.given, self.given + len);
        self.given = end + 1;
        self.end = end;
        if len > LINE_LIMIT {
            self.start = end;
            return Some(Next::TooLong);
        }
        self.start = start;
        Some(Next::Line)
    }

    /// Takes all bytes held as the last line, if there are any.
    fn last(&mut self) -> Next
        requires open { HasNoNewline self.old.held }
        requires short { FitsBuffer self.old.held }
        requires end { IsAtEnd self.old.left }
        ensures next { GivesNext result self.old self.new }
        ensures rest { self.new ≡ record self.old { line = self.new.line; held = self.new.held } }
    {
        if self.given == self.held.len() {
            return Next::End;
        }
        self.start = self.given;
        self.end = self.held.len();
        self.given = self.end;
        Next::Line
    }

    /// Discards all bytes held.
    fn forget(&mut self)
        ensures { self.new ≡ record self.old { line = []; held = [] } }
    {
        self.held.clear();
        self.start = 0;
        self.end = 0;
        self.given = 0;
    }

    /// Reads to the end of a line that is known to be too long, and stores nothing of it.
    fn pass_long<W: Wait>(&mut self, rt: &W) -> Result<Next, Failed>
        requires open { HasNoNewline self.old.held }
        requires long { IsLong self.old.held }
        ensures next { IfOk result (λ next. GivesNext next self.old self.new) }
        ensures long { IfOk result (λ next. next ≡ TooLong) }
        ensures once { IsReadOnce R.left R.has_failed R.pulls self.old self.new.pulls }
        ensures failed { OnErr result (self.new.has_failed ≡ true) }
        ensures unmarked { OnOk result (self.new.has_failed ≡ self.old.has_failed) }
        ensures shut { OnErr result (IsShut self.new) }
    {
        for _ in rt.forever() {
            self.forget();
            if !self.pull()? {
                return Ok(Next::TooLong);
            }
            if let Some(len) = first_end(&self.held[self.given..]) {
                self.given = self.given + len + 1;
                self.start = self.given;
                self.end = self.given;
                return Ok(Next::TooLong);
            }
        }
        unreachable!()
    }

    /// Reads until a whole line is held or the source has ended.
    fn fetch<W: Wait>(&mut self, rt: &W) -> Result<Next, Failed>
        requires { HasNoNewline self.old.held }
        ensures next { IfOk result (λ next. GivesNext next self.old self.new) }
        ensures once { IsReadOnce R.left R.has_failed R.pulls self.old self.new.pulls }
        ensures failed { OnErr result (self.new.has_failed ≡ true) }
        ensures unmarked { OnOk result (self.new.has_failed ≡ self.old.has_failed) }
        ensures shut { OnErr result (IsShut self.new) }
    {
        for _ in rt.forever() {
            if self.held.len() - self.given > LINE_LIMIT {
                return self.pass_long(rt);
            }
            if !self.pull()? {
                return Ok(self.last());
            }
            if let Some(next) = self.find() {
                return Ok(next);
            }
        }
        unreachable!()
    }

    /// Returns the next line. Bytes after the last newline are a line too.
    ///
    /// `Failed` if a read fails, and from then on, without another read, once no whole line is
    /// held. Allocates nothing.
    pub fn next<W: Wait>(&mut self, rt: &W) -> Result<Next, Failed>
        ensures next { IfOk result (λ next. GivesNext next self.old self.new) }
        ensures at_hand { HasLine self.old.held → self.new.pulls ≡ self.old.pulls }
        ensures once { HasNoNewline self.old.held
            → IsReadOnce R.left R.has_failed R.pulls self.old self.new.pulls }
        ensures failed { OnErr result (self.new.has_failed ≡ true) }
        ensures unmarked { OnOk result (self.new.has_failed ≡ self.old.has_failed) }
        ensures shut { OnErr result (IsShut self.new) }
        ensures stays { IsShut self.old → IsErr result × (self.new ≡ self.old) }
    {
        if let Some(held) = self.find() {
            return Ok(held);
        }
        if self.is_shut {
            return Err(Failed);
        }
        self.fetch(rt)
    }
}
