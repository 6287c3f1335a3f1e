//! Pairs of an instance and a solution, by the names of their files.

ghost use Rattle.std.specs.Prelude.{◌≡◌, ◌∷◌, ◌++◌, ◌⊎◌, [], List, Ok, IfErr, IfNone, IfOk, IfSome, OnOk, false, map, string_bytes, true};
ghost use Rattle.std.specs.List.{list_any};
ghost use Rattle.std.specs.Str.{bytes_eq, is_utf8};
ghost use Rattle.ctt_files.specs.declared.fault.Fault.TheVariants.{Machine};
ghost use Rattle.ctt_files.specs.declared.fault.MachineFault.TheVariants.{NoMemory as OutOfMemory};
ghost use Rattle.ctt_text.specs.Words.{words};
ghost use Rattle.ctt_commands.specs.Pairs.{IsFaultOfLine, IsFaultOfLines, IsNoPairs, IsPairsFault, NamePair, by_instance, firsts, line_value, lines_in, name_pair, pair_in, pairs_from, pairs_in, pairs_point, pairs_sentence, solutions_of, wanted_of, with_name};

use ctt_files::{ContentsFault, Fault};
use ctt_text::{Words, encoding_said};
use std::alloc::{AllocError, Global};

/// An instance and a solution, by the names of their files.
#[derive(Drop)]
pub(crate) struct Pair {
    pub(crate) instance: String,
    pub(crate) solution: String,
}

/// An instance and its solutions, by the names of their files.
#[derive(Drop)]
pub(crate) struct Wanted {
    pub(crate) instance: String,
    pub(crate) solutions: Vec<String>,
}

/// The name of standard input, which no pair can have.
const STANDARD: &str = "-";

/// What a line has.
#[derive(Drop)]
enum Line {
    /// No word.
    Blank,
    /// A pair.
    Pair(Pair),
    /// What the fault of this number says.
    Fault(u8),
}

/// Returns bytes as text, if they are UTF-8.
fn text_of(bytes: &[u8]) -> Option<&str>
    ensures text { IfSome result (λ text.
        (text.now ≡ bytes.now) × (is_utf8 bytes.now ≡ true)) }
    ensures none { IfNone result (is_utf8 bytes.now ≡ false) }
{
    match str::from_utf8(bytes) {
        Ok(text) => Some(text),
        Err(_) => None,
    }
}

/// Returns the pair of two words.
fn read_pair(alloc: Global, instance: &[u8], solution: &[u8]) -> Result<Line, AllocError>
    ensures { IfOk result (λ line. line_value line
        ≡ pair_in (instance.now ∷ solution.now ∷ [])) }
{
    let Some(instance) = text_of(instance) else {
        return Ok(Line::Fault(1));
    };
    let Some(solution) = text_of(solution) else {
        return Ok(Line::Fault(1));
    };
    if instance == STANDARD || solution == STANDARD {
        return Ok(Line::Fault(3));
    }
    Ok(Line::Pair(Pair {
        instance: String::from_str(alloc, instance)?,
        solution: String::from_str(alloc, solution)?,
    }))
}

/// Returns what a line has.
fn read_line(alloc: Global, line: &[u8]) -> Result<Line, AllocError>
    ensures { IfOk result (λ found. line_value found ≡ pair_in (words line.now)) }
{
    let mut words = Words::new(line);
    let Some(instance) = words.next() else {
        return Ok(Line::Blank);
    };
    let Some(solution) = words.next() else {
        return Ok(Line::Fault(2));
    };
    if words.next().is_some() {
        return Ok(Line::Fault(2));
    }
    read_pair(alloc, instance, solution)
}

/// Returns the lines of a text.
fn lines(alloc: Global, text: &[u8]) -> Result<Vec<&[u8]>, AllocError>
    ensures { IfOk result (λ lines.
        map (λ line. line.now) lines.items ≡ lines_in text.now) }
{
    text.split(|byte| *byte == b'\n').collect(alloc)
}

/// Returns what is wrong with a line, by the number of the fault.
fn pairs_sentence(number: u8) -> &'static str
    ensures { result.now ≡ pairs_sentence number }
{
    match number {
        1 => "a name that is not UTF-8",
        2 => "expected two words, an instance and a solution of it",
        _ => "a name is that of a file, not of standard input",
    }
}

/// Returns the line that says where the text of the file of this name is refused, and why.
fn pairs_point(
    alloc: Global,
    file: &str,
    number: u8,
    at: u64,
    sentence: &str,
) -> Result<String, AllocError>
    ensures { IfOk result (λ text. string_bytes text
        ≡ pairs_point file.now number at sentence.now) }
{
    format!(in alloc; "{file}:{at}:1: P{number}: {sentence}\n")
}

/// Returns the fault of this number in a line of the file of this name.
fn refuse_line(
    alloc: Global,
    file: &str,
    number: u8,
    at: u64,
    sentence: &str,
) -> Result<Fault, AllocError>
    ensures { IfOk result (IsPairsFault file.now number at sentence.now) }
{
    let point = pairs_point(alloc, file, number, at, sentence)?;
    Ok(Fault::Contents(ContentsFault::Pairs { number, at, point }))
}

/// Adds the pair of a line with this number.
fn push_line(
    alloc: Global,
    file: &str,
    pairs: &mut Vec<Pair>,
    number: u64,
    line: &[u8],
) -> Result<(), Fault>
    ensures pushed { OnOk result ((more : List NamePair) × (pair_in (words line.now) ≡ Ok more)
        × (map name_pair pairs.new.items ≡ map name_pair pairs.old.items ++ more)) }
    ensures cause { IfErr result (λ fault. (fault ≡ Machine OutOfMemory)
        ⊎ IsFaultOfLine file.now number line.now fault) }
{
    match read_line(alloc, line)? {
        Line::Blank => Ok(()),
        Line::Pair(pair) => Ok(pairs.push(pair)?),
        Line::Fault(code) => {
            let sentence = pairs_sentence(code);
            Err(refuse_line(alloc, file, code, number, sentence)?)
        }
    }
}

/// Parses the lines of a list of pairs.
fn read_lines(alloc: Global, file: &str, lines: &[&[u8]]) -> Result<Vec<Pair>, Fault>
    ensures pairs { IfOk result (λ pairs.
        pairs_from 1 (map (λ line. line.now) lines.now) ≡ Ok (map name_pair pairs.items)) }
    ensures cause { IfErr result (λ fault. (fault ≡ Machine OutOfMemory)
        ⊎ IsFaultOfLines file.now (map (λ line. line.now) lines.now) fault) }
{
    let mut pairs = Vec::new(alloc);
    let mut number = 0;
    for line in lines {
        number += 1;
        push_line(alloc, file, &mut pairs, number, line)?;
    }
    Ok(pairs)
}

/// Parses the list of pairs in the file of this name.
#[tactic(auto, unfolding(crate::specs::Pairs::pairs_in))]
pub(crate) fn read_pairs(alloc: Global, file: &str, text: &[u8]) -> Result<Vec<Pair>, Fault>
    ensures pairs { IfOk result (λ pairs. pairs_in text.now ≡ Ok (map name_pair pairs.items)) }
    ensures cause { IfErr result (λ fault. (fault ≡ Machine OutOfMemory)
        ⊎ IsNoPairs file.now text.now fault) }
{
    if let Some(said) = encoding_said(text) {
        return Err(refuse_line(alloc, file, 4, 1, said)?);
    }
    read_lines(alloc, file, &lines(alloc, text)?)
}

/// Returns whether a name is among names.
fn has_name(names: &[String], name: &str) -> bool
    ensures { result ≡ list_any (λ other. bytes_eq (string_bytes other) name.now) names.now }
{
    names.iter().any(|other| other.as_str() == name)
}

/// Adds a name, unless it is among the names.
fn add_name(alloc: Global, names: &mut Vec<String>, name: &str) -> Result<(), AllocError>
    ensures { OnOk result (map string_bytes names.new.items
        ≡ with_name name.now (map string_bytes names.old.items)) }
{
    if has_name(names, name) {
        return Ok(());
    }
    Ok(names.push(String::from_str(alloc, name)?)?)
}

/// Returns the names of the instances, each once, where it comes first.
fn instances(alloc: Global, pairs: &[Pair]) -> Result<Vec<String>, AllocError>
    ensures { IfOk result (λ names. map string_bytes names.items
        ≡ firsts (map (λ pair. pair.0) (map name_pair pairs.now))) }
{
    let mut names = Vec::new(alloc);
    for pair in pairs {
        add_name(alloc, &mut names, &pair.instance)?;
    }
    Ok(names)
}

/// Returns the solutions of an instance.
fn solutions_of(alloc: Global, pairs: &[Pair], name: &str) -> Result<Vec<String>, AllocError>
    ensures { IfOk result (λ solutions. map string_bytes solutions.items
        ≡ solutions_of (map name_pair pairs.now) name.now) }
{
    let mut solutions = Vec::new(alloc);
    for pair in pairs {
        if pair.instance.as_str() == name {
            solutions.push(pair.solution.clone()?)?;
        }
    }
    Ok(solutions)
}

/// Returns each instance once, in the order in which they are first named, with its solutions.
pub(crate) fn by_instance(alloc: Global, pairs: &[Pair]) -> Result<Vec<Wanted>, AllocError>
    ensures { IfOk result (λ wanted. map wanted_of wanted.items
        ≡ by_instance (map name_pair pairs.now)) }
{
    let mut wanted = Vec::new(alloc);
    for instance in instances(alloc, pairs)? {
        let solutions = solutions_of(alloc, pairs, &instance)?;
        wanted.push(Wanted {
            instance,
            solutions,
        })?;
    }
    Ok(wanted)
}
