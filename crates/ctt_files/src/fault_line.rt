//! The lines of faults on standard error.

ghost use Rattle.std.specs.Prelude.{◌≡◌, ◌∷◌, [], IfOk, codes};
ghost use Rattle.std.specs.Fmt.{decimal};
ghost use Rattle.std.specs.String.{string_bytes};
ghost use Rattle.ctt_line.specs.Lines.{line};
ghost use Rattle.ctt_files.specs.Faults.{contents_line, journal_line, line_of, machine_line, pairs_line, usage_line};

use crate::fault::{ContentsFault, Fault, MachineFault, UsageFault};
use ctt_line::{Word, push_line};
use std::alloc::{AllocError, Global};

/// The line of `NoMemory`. It is a constant, since it has to be reported without allocating.
pub const NO_MEMORY: &str = "timedesk: no memory\n";

/// Returns a line of what is refused, the code of the fault, and the word or byte.
fn place_line(alloc: Global, what: &str, code: &str, at: u64) -> Result<String, AllocError>
    ensures { IfOk result (λ text.
        string_bytes text ≡ line (what.now ∷ code.now ∷ decimal at ∷ [])) }
{
    let mut text = String::new(alloc);
    push_line(
        &mut text,
        &[Word::text(what), Word::text(code), Word::number(at)],
    )?;
    Ok(text)
}

/// Returns a line that ends with a name.
fn name_line(alloc: Global, what: &str, name: &str) -> Result<String, AllocError>
    ensures { IfOk result (λ text. string_bytes text ≡ line (what.now ∷ name.now ∷ [])) }
{
    let mut text = String::new(alloc);
    push_line(&mut text, &[Word::text(what), Word::text(name)])?;
    Ok(text)
}

/// Returns the line for a word or a byte that a file does not have.
fn lack_line(alloc: Global, what: &str, number: &str, file: &str) -> Result<String, AllocError>
    ensures { IfOk result (λ text. string_bytes text
        ≡ line (what.now ∷ number.now ∷ codes "in" ∷ file.now ∷ [])) }
{
    let mut text = String::new(alloc);
    push_line(
        &mut text,
        &[
            Word::text(what),
            Word::text(number),
            Word::text("in"),
            Word::text(file),
        ],
    )?;
    Ok(text)
}

/// Returns the line for a journal that is refused.
fn journal_line(alloc: Global, number: u8, at: u64) -> Result<String, AllocError>
    ensures { IfOk result (λ text. string_bytes text ≡ journal_line number at) }
{
    format!(in alloc; "timedesk: journal J{number} {at}\n")
}

/// Returns the line for a list of pairs that is refused.
fn pairs_line(alloc: Global, number: u8, line: u64) -> Result<String, AllocError>
    ensures { IfOk result (λ text. string_bytes text ≡ pairs_line number line) }
{
    format!(in alloc; "timedesk: pairs P{number} {line}\n")
}

impl ContentsFault {
    /// Returns the line of the fault.
    fn line(&self, alloc: Global) -> Result<String, AllocError>
        ensures { IfOk result (λ line. string_bytes line ≡ contents_line self.now) }
    {
        match self {
            ContentsFault::Instance { met, .. } => {
                place_line(alloc, "timedesk: instance", met.code(), met.at())
            }
            ContentsFault::Solution { met, .. } => {
                place_line(alloc, "timedesk: solution", met.code(), met.at())
            }
            ContentsFault::Barred { met, .. } => {
                place_line(alloc, "timedesk: barred", met.code(), met.at())
            }
            ContentsFault::Blocked { met, .. } => {
                place_line(alloc, "timedesk: blocked", met.code(), met.at())
            }
            ContentsFault::Journal { number, at, .. } => journal_line(alloc, *number, *at),
            ContentsFault::Pairs { number, at, .. } => pairs_line(alloc, *number, *at),
            ContentsFault::Opening(text) => text.clone(),
            ContentsFault::NoCurriculum(name) => {
                name_line(alloc, "timedesk: no curriculum", name)
            }
            ContentsFault::NoTeacher(name) => name_line(alloc, "timedesk: no teacher", name),
            ContentsFault::NoCourse(name) => name_line(alloc, "timedesk: no course", name),
            ContentsFault::NoRoom(name) => name_line(alloc, "timedesk: no room", name),
            ContentsFault::NoWord { word, file } => {
                lack_line(alloc, "timedesk: no word", word, file)
            }
            ContentsFault::NoByte { byte, file } => {
                lack_line(alloc, "timedesk: no byte", byte, file)
            }
            ContentsFault::Ends(text) => text.clone(),
        }
    }
}

impl UsageFault {
    /// Returns the line of the fault, or the lines if `clap` says why.
    fn line(&self, alloc: Global) -> Result<String, AllocError>
        ensures { IfOk result (λ line. string_bytes line ≡ usage_line self.now) }
    {
        match self {
            UsageFault::Words(text) => text.clone(),
            UsageFault::WordsNotText => {
                String::from_str(alloc, "timedesk: words that are not text\n")
            }
            UsageFault::TooManyScripts => String::from_str(alloc, "timedesk: too many scripts\n"),
            UsageFault::BadSeats => {
                String::from_str(alloc, "timedesk: at most 64 seats, each once\n")
            }
        }
    }
}

impl MachineFault {
    /// Returns the line of the fault.
    fn line(&self, alloc: Global) -> Result<String, AllocError>
        ensures { IfOk result (λ line. string_bytes line ≡ machine_line self.now) }
    {
        match self {
            MachineFault::CannotRead(name) => name_line(alloc, "timedesk: cannot read", name),
            MachineFault::TooLong(name) => name_line(alloc, "timedesk: too long", name),
            MachineFault::CannotWrite => String::from_str(alloc, "timedesk: cannot write\n"),
            MachineFault::NoMemory => String::from_str(alloc, NO_MEMORY),
            MachineFault::NoThread => String::from_str(alloc, "timedesk: no thread\n"),
            MachineFault::NoPlace => String::from_str(alloc, "timedesk: no place\n"),
            MachineFault::MinutesExist(name) => name_line(alloc, "timedesk: minutes exist", name),
        }
    }
}

impl Fault {
    /// Returns what is reported on standard error, including the line feed.
    pub fn line(&self, alloc: Global) -> Result<String, AllocError>
        ensures { IfOk result (λ line. string_bytes line ≡ line_of self.now) }
    {
        match self {
            Fault::Contents(met) => met.line(alloc),
            Fault::Usage(met) => met.line(alloc),
            Fault::Machine(met) => met.line(alloc),
        }
    }
}
