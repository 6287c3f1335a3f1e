//! The writer of minutes: the accepted drafts, in the order of their commits, on a durable writer.

ghost use Rattle.std.specs.Prelude.{◌≡◌, ◌+◌, ◌<◌, ◌≤◌, ◌↔◌, ◌⊎◌, [], length, true, false, IsTrue, OnErr, OnOk};
ghost use Rattle.std.specs.Io.KnownBytes.{Appends};
ghost use Rattle.ctt_files.specs.Output.{AppendsFront};
ghost use mathlib.Core.List.{IsPrefix};
ghost use Rattle.ctt_core.specs.Runs.{Legal};
ghost use Rattle.ctt_log.specs.Minutes.{AreFrontOf, AreMinutesOf, EndsWith, CouldNotEnter, IsEntered, IsInMinutes, IsPartOf, IsSound, Stays, last_history};
ghost use Rattle.ctt_log.specs.declared.log_writer.Attempt.TheVariants.{Entered, Failed as NotEntered, NotYet};

use crate::begun::Begun;
use crate::durable::Durable;
use ctt_board::Timetable;
use ctt_desk::{Closed, Naming, Planner, Receipt};
use ctt_files::{Failed, put_whole};
use ctt_text::drop_whole;
use std::marker::Model;

/// The outcome of an attempt to write an entry.
#[derive(Clone, Copy, PartialEq, Eq)]
pub enum Attempt {
    /// The entry is written and durable.
    Entered,
    /// An earlier entry is still to be written.
    NotYet,
    /// The entry is not written, and no later one will be.
    Failed,
}

/// A durable writer, and the receipt of the last draft whose entry was written. If the entry could
/// not be written, a prefix of it may have been.
#[derive(Drop)]
pub struct LogWriter<W: Durable, J: Naming + Begun> {
    writer: W,
    last: Option<Receipt<J>>,
    /// Whether an entry could not be written. If so, no later one is written.
    failed: bool,
}

impl<W: Durable, J: Naming + Begun> Model for LogWriter<W, J> {
    ghost use Rattle.std.specs.Prelude.{◌≡◌, false, true};
    ghost use Rattle.ctt_log.specs.Minutes.{AreFrontOf, AreMinutesOf, IsOut, LogValue, last_history};

    ghost Value = { LogValue };

    ghost view = { λ p. record {
      taken = W.Sink.taken p.writer;
      kept = W.kept p.writer;
      history = last_history p.last;
      failed = p.failed;
      marked = W.Sink.has_failed p.writer;
    } };

    ghost invariant = { λ p. (p.failed ≡ false
        → AreMinutesOf J.problem (last_history p.last) J.start (W.Sink.taken p.writer))
        × (p.failed ≡ true
        → IsOut W.Sink.taken W.Sink.has_failed J.problem J.start (last_history p.last) p.writer)
        × AreFrontOf J.problem (last_history p.last) J.start (W.Sink.taken p.writer) };
}

/// Writes an entry and makes it durable.
#[tactic(auto, using(crate::proofs::MinutesLemmas::all_kept))]
fn write<W: Durable>(writer: &mut W, entry: &[u8]) -> Result<(), Failed>
    ensures taken { OnOk result
        (Appends (W.Sink.taken writer.old) (W.Sink.taken writer.new) entry.now) }
    ensures front { OnErr result
        (AppendsFront (W.Sink.taken writer.old) (W.Sink.taken writer.new) entry.now) }
    ensures kept { OnOk result (Stays (W.kept writer.new) (W.Sink.taken writer.new)) }
    ensures marked { OnErr result (W.Sink.has_failed writer.new ≡ true) }
{
    put_whole(writer, entry)?;
    writer.sync()
}

/// Returns the number of drafts in the history of a receipt, or 0 if there is none.
fn count<J: Naming>(last: &Option<Receipt<J>>) -> u64
    ensures number { result ≡ length (last_history last.now) }
    ensures legal { Legal J.problem J.opening (last_history last.now) }
{
    match last {
        Some(receipt) => receipt.number(),
        None => 0,
    }
}

/// Returns whether the history of `receipt` begins with that of `last`, which is empty if there is
/// none.
fn begins<J: Naming>(last: &Option<Receipt<J>>, receipt: &Receipt<J>) -> bool
    ensures begins { IsTrue result → IsPrefix (last_history last.now) receipt.now }
    ensures shorter { IsTrue result ↔ (length (last_history last.now) ≤ length receipt.now) }
{
    match last {
        Some(last) => last.begins(receipt),
        None => true,
    }
}

impl<W: Durable, J: Naming + Begun> LogWriter<W, J> {
    /// Creates a log in which nothing is written.
    pub fn new(writer: W) -> Self
        requires { J.start ≡ W.Sink.taken writer }
        ensures { result ≡ record {
          taken = W.Sink.taken writer;
          kept = W.kept writer;
          history = [];
          failed = false;
          marked = W.Sink.has_failed writer;
        } }
    {
        LogWriter {
            writer,
            last: None,
            failed: false,
        }
    }

    /// Returns whether an entry could not be written.
    pub fn has_failed(&self) -> bool
        ensures failed { result ≡ self.now.failed }
        ensures minutes { result ≡ false
            → AreMinutesOf J.problem self.now.history J.start self.now.taken }
        ensures sound { result ≡ false → IsSound W.Sink.taken J.problem J.start }
        ensures cause { result ≡ true
            → CouldNotEnter W.Sink.taken W.Sink.has_failed J.problem J.start }
    {
        self.failed
    }

    /// Lets a planner see the drafts up to the last one whose entry was to be written.
    pub fn show<S: Timetable>(&self, planner: &mut Planner<S, J>)
        ensures { IsPrefix self.now.history planner.new.front }
    {
        match &self.last {
            Some(receipt) => planner.learn(receipt),
            None => {}
        }
    }

    /// Returns the writer when the desk is closed, and whether it has the entry of each draft of
    /// the journal. `is_seen` says that the journal begins with the drafts that the log shows.
    pub fn end<S: Timetable>(self, closed: &Closed<S, J>, is_seen: bool) -> (W, bool)
        requires { is_seen ≡ true → IsPrefix self.history closed.now }
        ensures whole { result.1 ≡ true
            → AreMinutesOf J.problem closed.now J.start (W.Sink.taken result.0) }
        ensures part { IsPartOf W.Sink.taken J.problem J.opening J.start result.0 }
    {
        let LogWriter {
            writer,
            last,
            failed,
        } = self;
        let written = count(&last);
        drop_whole(last);
        if failed || !is_seen || written != closed.accepted() {
            return (writer, false);
        }
        (writer, true)
    }

    /// Writes the entry of the last draft in the history of a receipt, if it is the next one.
    #[tactic(auto, using(crate::proofs::MinutesLemmas::nothing_of))]
    pub fn enter(&mut self, receipt: &Receipt<J>, entry: &[u8]) -> Attempt
        requires { EndsWith J.problem receipt.now entry.now }
        ensures entered { result ≡ Entered → IsEntered receipt.now entry.now self.old self.new }
        ensures not_yet { result ≡ NotYet
            → (self.new ≡ self.old) × (length self.old.history + 1 < length receipt.now) }
        ensures kept { result ≡ Entered
            → IsInMinutes W.Sink.taken W.kept J.problem J.start receipt.now }
        ensures failed { result ≡ NotEntered → self.new.failed ≡ true }
        ensures out { result ≡ NotEntered
            → CouldNotEnter W.Sink.taken W.Sink.has_failed J.problem J.start }
        ensures cause { result ≡ NotEntered → (self.old.failed ≡ true)
            ⊎ (length receipt.now ≤ length self.old.history) ⊎ (self.new.marked ≡ true) }
        ensures front { result ≡ NotEntered
            → AppendsFront self.old.taken self.new.taken entry.now }
        ensures shut { self.old.failed ≡ true → (result ≡ NotEntered) × (self.new ≡ self.old) }
    {
        let (written, number) = (count(&self.last), receipt.number());
        if self.failed || number <= written || !begins(&self.last, receipt) {
            self.failed = true;
            return Attempt::Failed;
        }
        if number - written > 1 {
            return Attempt::NotYet;
        }
        let written = write(&mut self.writer, entry);
        self.last = Some(receipt.again());
        match written {
            Ok(()) => Attempt::Entered,
            Err(_) => {
                self.failed = true;
                Attempt::Failed
            }
        }
    }
}
