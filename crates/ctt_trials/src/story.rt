//! The transcript of the trials, and how many calls were repeated and how many cases run anew.

ghost use Rattle.std.specs.Prelude.{◌↔◌, IsTrue, None};
ghost use Rattle.ctt_script.specs.Entries.{AnswerFits, RowFits};

use ctt_core::{Answer, JournalEntry};
use ctt_edits::{EditFault, Lectures, Reply, Row};
use ctt_files::{Count, Failed, Sink, put_all};
use ctt_rules::Cost;
use ctt_script::{write_answer, write_entry};
use ctt_text::{Instance, NoMemory, Placed};
use std::alloc::Global;

/// Makes a call, and makes it again on the same values if it wants memory. The values must be left
/// as they were.
macro_rules! repeated {
    ($story:expr, $want:pat, $call:expr) => {
        match $call {
            Err($want) => {
                $story.call_again();
                $call
            }
            told => told,
        }
    };
}

pub(crate) use repeated;

/// The capacity of the transcript, in bytes.
const ROOM: usize = 65_536;

/// The capacity of a line, in bytes.
const LINE: usize = 4_096;

/// A transcript with all its capacity reserved, so that recording allocates nothing.
#[derive(Drop)]
pub(crate) struct Story {
    text: Vec<u8>,
    line: String,
    again: u64,
    anew: u64,
    is_wanting: bool,
    is_lost: bool,
    /// Whether it refuses to flush, as a writer.
    pub(crate) is_deaf: bool,
    /// How many more bytes it takes, as a writer.
    pub(crate) room: usize,
    failed: bool,
    unflushed: Count,
}

/// Returns whether the number of a row is one of the instance.
fn row_fits(instance: &Instance, row: &Row) -> bool
    ensures { IsTrue result ↔ RowFits instance.now row.now }
{
    match row {
        Row::Course(course) => course.fits(instance),
        Row::Slot(slot) => slot.fits(instance),
    }
}

/// Returns whether an answer can be written.
fn answer_fits(instance: &Instance, answer: &Answer) -> bool
    ensures { IsTrue result ↔ AnswerFits instance.now answer.now }
{
    match answer {
        Answer::Replied(reply) => reply.fits(instance),
        Answer::Draft(standing) => match &standing.stale {
            Some(row) => row_fits(instance, row),
            None => true,
        },
        Answer::Stale(row) => row_fits(instance, row),
        Answer::Opened
        | Answer::AlreadyOpen
        | Answer::NoDraft
        | Answer::Committed(_)
        | Answer::Refreshed
        | Answer::Abandoned
        | Answer::NoMemory => true,
    }
}

impl Story {
    /// Creates an empty transcript, if there is memory.
    pub(crate) fn new(alloc: Global) -> Option<Story> {
        let text = Vec::with_capacity(alloc, ROOM).ok()?;
        let line = String::with_capacity(alloc, LINE).ok()?;
        Some(Story {
            text,
            line,
            again: 0,
            anew: 0,
            is_wanting: false,
            is_lost: false,
            is_deaf: false,
            room: usize::MAX,
            failed: false,
            unflushed: Count::new(),
        })
    }

    pub(crate) fn alloc(&self) -> Global {
        *self.text.allocator()
    }

    /// Returns the number of bytes recorded.
    pub(crate) fn len(&self) -> usize {
        self.text.len()
    }

    /// Counts a call that is repeated.
    pub(crate) fn call_again(&mut self) {
        self.again = self.again.saturating_add(1);
    }

    /// Notes that memory ran out for a call that did not leave its values as they were, so that the
    /// case is run anew.
    pub(crate) fn no_memory(&mut self) {
        self.is_wanting = true;
    }

    /// Appends an element to a list. If memory runs out, the case is run anew.
    pub(crate) fn add<T: Drop>(&mut self, list: &mut Vec<T>, one: T) {
        match list.push(one) {
            Ok(()) => {}
            Err(_refused) => self.no_memory(),
        }
    }

    /// Returns whether memory ran out for a call. If so, discards what was recorded from this
    /// offset on.
    pub(crate) fn takes_back(&mut self, from: usize) -> bool {
        if !self.is_wanting {
            return false;
        }
        self.is_wanting = false;
        self.text.truncate(from);
        self.anew = self.anew.saturating_add(1);
        true
    }

    /// Records bytes.
    pub(crate) fn bytes(&mut self, bytes: &[u8]) {
        if self.text.extend_from_slice(bytes).is_err() {
            self.is_lost = true;
        }
    }

    /// Records a line.
    pub(crate) fn say(&mut self, words: &str) {
        self.bytes(words.as_bytes());
        self.bytes(b"\n");
    }

    /// Records that a line is bad, unless it is empty.
    pub(crate) fn bad_line(&mut self, line: &[u8]) {
        if !line.is_empty() {
            self.say("bad line");
        }
    }

    /// Records the line that was written, if writing it succeeded.
    fn end_line(&mut self, is_written: bool) {
        if !is_written || self.text.extend_from_slice(self.line.as_bytes()).is_err() {
            self.is_lost = true;
        }
        self.line.clear();
    }

    /// Records a word with a number, without ending the line.
    pub(crate) fn pair(&mut self, word: &str, number: u64) {
        let is_written = write!(self.line, "{word} {number}").is_ok();
        self.end_line(is_written);
    }

    /// Records a line of a word and a number.
    pub(crate) fn count(&mut self, word: &str, number: u64) {
        self.pair(word, number);
        self.bytes(b"\n");
    }

    /// Records a line of a word and a difference.
    pub(crate) fn difference(&mut self, word: &str, number: i64) {
        let is_written = writeln!(self.line, "{word} {number}").is_ok();
        self.end_line(is_written);
    }

    /// Replaces what was recorded from this offset on by its length.
    pub(crate) fn measure(&mut self, from: usize) {
        let told = self.text.len().saturating_sub(from);
        self.text.truncate(from);
        self.count("bytes", told as u64);
    }

    /// Records the lecture at which an opening is refused, and why.
    pub(crate) fn unlawful(&mut self, instance: &Instance, at: u64, fault: EditFault) {
        self.pair("opening", at);
        self.bytes(b" ");
        self.add_refusal(instance, fault);
    }

    /// Records an answer other than `NoMemory`, and returns whether it was recorded.
    pub(crate) fn tells(&mut self, instance: &Instance, answer: Answer) -> bool {
        if matches!(answer, Answer::NoMemory) {
            return false;
        }
        let is_written = answer_fits(instance, &answer)
            && write_answer(&mut self.line, instance, &answer).is_ok();
        self.end_line(is_written);
        true
    }

    /// Records an answer. If it is `NoMemory`, the case is run anew instead.
    pub(crate) fn answer(&mut self, instance: &Instance, answer: Answer) {
        if !self.tells(instance, answer) {
            self.no_memory();
        }
    }

    /// Records answers.
    pub(crate) fn answers(&mut self, instance: &Instance, answers: Vec<Answer>) {
        for answer in answers {
            self.answer(instance, answer);
        }
    }

    /// Records an entry of a journal.
    pub(crate) fn entry(&mut self, instance: &Instance, entry: &JournalEntry) {
        let is_written = entry.asked.fits(instance)
            && write_entry(
                &mut self.line,
                instance,
                entry.planner,
                entry.asked.as_slice(),
            )
            .is_ok();
        self.end_line(is_written);
    }

    /// Records a reply.
    fn add_reply(&mut self, instance: &Instance, reply: Reply) {
        self.answer(instance, Answer::Replied(reply));
    }

    /// Records a fault.
    pub(crate) fn add_refusal(&mut self, instance: &Instance, fault: EditFault) {
        self.add_reply(instance, Reply::Refused(fault));
    }

    /// Records the reply of a call, or notes that memory ran out.
    pub(crate) fn reply(&mut self, instance: &Instance, told: Result<Reply, NoMemory>) {
        match told {
            Ok(reply) => self.add_reply(instance, reply),
            Err(NoMemory) => self.no_memory(),
        }
    }

    /// Records the lectures of a call, or notes that memory ran out.
    pub(crate) fn lectures(&mut self, instance: &Instance, told: Result<Vec<Placed>, NoMemory>) {
        match told {
            Ok(list) => self.add_reply(instance, Reply::Lectures(Lectures::new(list))),
            Err(NoMemory) => self.no_memory(),
        }
    }

    /// Records the lectures of a timetable and its cost.
    pub(crate) fn timetable(
        &mut self,
        instance: &Instance,
        told: Result<Vec<Placed>, NoMemory>,
        cost: Cost,
    ) {
        self.lectures(instance, told);
        self.add_reply(instance, Reply::Costs(cost));
    }

    /// Records the text of a call, or notes that memory ran out.
    pub(crate) fn text(&mut self, told: Result<Vec<u8>, NoMemory>) {
        match told {
            Ok(text) => self.bytes(&text),
            Err(NoMemory) => self.no_memory(),
        }
    }

    /// Compares what was recorded from `here` on with what was recorded from `from` to `to`. If it
    /// is the same, replaces it by a line that says so.
    pub(crate) fn compare(&mut self, from: usize, to: usize, here: usize, way: &str) {
        let is_same = match self.text.get(from..to) {
            Some(before) => self.text.get(here..) == Some(before),
            None => false,
        };
        if is_same {
            self.text.truncate(here);
            self.bytes(way.as_bytes());
            self.say(": the same");
        }
    }

    /// Writes the transcript and the numbers of calls that were repeated and of cases that were run
    /// anew, and returns whether nothing was lost.
    pub(crate) fn write<W: Sink>(&mut self, writer: &mut W) -> bool {
        self.pair("again", self.again);
        self.count(" anew", self.anew);
        !self.is_lost && put_all(writer, &self.text).is_ok() && writer.flush().is_ok()
    }
}

impl Sink for Story {
    ghost has_failed = { λ story. story.failed };

    ghost taken = { λ story. None };

    ghost unflushed = { λ story. story.unflushed.number };

    fn put(&mut self, bytes: &[u8]) -> Result<usize, Failed> {
        let taken = bytes.len().min(self.room);
        if taken == 0 {
            if bytes.is_empty() {
                return Ok(0);
            }
            self.failed = true;
            return Err(Failed);
        }
        let failed = self.failed;
        let room = self.room - taken;
        let unflushed = self.unflushed.next();
        self.bytes(&bytes[..taken]);
        self.failed = failed;
        self.room = room;
        self.unflushed = unflushed;
        Ok(taken)
    }

    fn flush(&mut self) -> Result<(), Failed> {
        if self.is_deaf {
            self.failed = true;
            return Err(Failed);
        }
        self.unflushed = Count::new();
        Ok(())
    }
}
