//! Files by name.

ghost use Rattle.std.specs.Prelude.{◌≡◌, ◌≢◌, ◌≤◌, ◌↔◌, codes, length, map, false, true, Some, None, Err, OnOk, IfOk, IfErr, IfSome, vec_len};
ghost use Rattle.std.specs.Str.{bytes_eq};
ghost use Rattle.std.specs.String.{string_bytes};
ghost use Rattle.ctt_files.specs.Faults.{fault_of_input};
ghost use Rattle.ctt_files.specs.Files.{is_standard};
ghost use Rattle.ctt_files.specs.Refusals.{IsOfFile, IsOfFiles, IsOfInput};
ghost use Rattle.ctt_files.specs.Texts.{HoldInTurn};
ghost use Rattle.ctt_files.specs.declared.fault.Fault.TheVariants.{Machine};
ghost use Rattle.ctt_files.specs.declared.fault.MachineFault.TheVariants.{CannotRead};

use crate::device::Device;
use crate::fault::{Fault, MachineFault};
use crate::input::{INPUT_LIMIT, InputFault, read_all};
use crate::sink::put_whole;
use crate::source::{Failed, Source};
use std::alloc::Global;
use std::io::Read;
use std::rt::Stdin;
use std::{fs, io, rt};

/// Files that are read and written by name.
pub trait Files {
    ghost use Rattle.std.specs.Prelude.{ℕ, List, Option};

    /// A file opened for reading.
    type Input: Source + Drop;

    /// The bytes of the file with a name, if they are known.
    ghost held: { Self → List ℕ → Option (List ℕ) };

    /// Opens a file for reading from its beginning.
    fn fetch(&mut self, name: &str) -> Result<Self::Input, Failed>
        ensures unmarked { IfOk result (λ input. Self.Input.has_failed input ≡ false) }
        ensures whole { IfOk result (λ input.
            IfSome (held self.old name.now) (λ bytes. Self.Input.left input ≡ Some bytes)) }
        ensures kept { held self.new ≡ held self.old };

    /// Writes a whole file, which replaces its contents. The files with other names are unchanged,
    /// even if it fails.
    fn store(&mut self, name: &str, bytes: &[u8]) -> Result<(), Failed>
        ensures stored { OnOk result
            (IfSome (held self.new name.now) (λ stored. stored ≡ bytes.now)) }
        ensures others { (other : List ℕ) → other ≢ name.now
            → held self.new other ≡ held self.old other };
}

/// The name under which standard input is read.
const STANDARD: &str = "-";

/// A file of the system opened for reading, or standard input.
#[derive(Drop)]
pub enum FileInput<T> {
    Standard(Stdin),
    File(T),
}

impl<T: Read> Read for FileInput<T> {
    ghost use Rattle.ctt_files.specs.Files.{input_left};

    ghost remaining = { λ input. input_left T.remaining input };

    fn read(&mut self, buffer: &mut [u8]) -> io::Result<usize> {
        match self {
            FileInput::Standard(input) => input.read(buffer),
            FileInput::File(file) => file.read(buffer),
        }
    }
}

/// The files of the system. The name `-` is that of standard input if it is read.
#[derive(Drop)]
pub struct SystemFiles<'r, R> {
    rt: &'r R,
    input: Stdin,
}

impl<'r, R: rt::Files> SystemFiles<'r, R> {
    ghost use Rattle.ctt_files.specs.Files.{runtime_of};

    /// Returns the files that the runtime can access, and standard input.
    pub fn new(rt: &'r R, input: Stdin) -> Self
        ensures { runtime_of result ≡ rt.now }
    {
        SystemFiles { rt, input }
    }
}

/// Opens the file of this name, or standard input.
fn open_input<R: rt::Files>(
    rt: &R,
    standard: Stdin,
    name: &str,
) -> Result<FileInput<R::File>, Failed>
    ensures { IfOk result (λ input. is_standard input ≡ bytes_eq name.now (codes "-")) }
{
    if name == STANDARD {
        return Ok(FileInput::Standard(standard));
    }
    match fs::open(rt, name) {
        Ok(file) => Ok(FileInput::File(file)),
        Err(_) => Err(Failed),
    }
}

impl<'r, R: rt::Files> Files for SystemFiles<'r, R> {
    type Input = Device<FileInput<R::File>>;

    ghost held = { λ _ _. None };

    fn fetch(&mut self, name: &str) -> Result<Self::Input, Failed> {
        Ok(Device::new(open_input(self.rt, self.input, name)?))
    }

    fn store(&mut self, name: &str, bytes: &[u8]) -> Result<(), Failed> {
        let Ok(file) = fs::create(self.rt, name) else {
            return Err(Failed);
        };
        put_whole(&mut Device::new(file), bytes)
    }
}

/// Returns the fault of the program for a file of this name that could not be read.
fn fault_of(name: String, met: InputFault) -> Fault
    ensures { result ≡ fault_of_input name met }
{
    match met {
        InputFault::Read => Fault::Machine(MachineFault::CannotRead(name)),
        InputFault::TooLong => Fault::Machine(MachineFault::TooLong(name)),
        InputFault::NoMemory => Fault::Machine(MachineFault::NoMemory),
    }
}

/// Reads all remaining bytes of the file of this name. No read is tried again.
fn read_input<R: Source>(alloc: Global, input: &mut R, name: String) -> Result<Vec<u8>, Fault>
    requires { R.has_failed input.old ≡ false }

    ensures all { IfOk result (λ bytes. IfSome (R.left input.old) (λ left. bytes.items ≡ left)) }
    ensures short { IfOk result (λ bytes. vec_len bytes ≤ 67108864) }
    ensures unread { (result ≡ Err (Machine (CannotRead name))) ↔ (R.has_failed input.new ≡ true) }
    ensures cause { IfErr result (IsOfInput (R.left input.old) name) }
{
    match read_all(alloc, input, INPUT_LIMIT) {
        Ok(bytes) => Ok(bytes),
        Err(met) => Err(fault_of(name, met)),
    }
}

/// Reads all bytes of a file, at most 64 MiB.
pub fn read_file<F: Files>(alloc: Global, files: &mut F, name: String) -> Result<Vec<u8>, Fault>
    ensures all { IfOk result (λ bytes.
        IfSome (F.held files.old (string_bytes name)) (λ held. bytes.items ≡ held)) }
    ensures kept { F.held files.new ≡ F.held files.old }
    ensures short { IfOk result (λ bytes. vec_len bytes ≤ 67108864) }
    ensures cause { IfErr result (IsOfFile (F.held files.old) name) }
{
    match files.fetch(&name) {
        Ok(mut input) => read_input(alloc, &mut input, name),
        Err(_) => Err(fault_of(name, InputFault::Read)),
    }
}

/// Reads all bytes of each of these files, in order, up to the first file that cannot be read.
pub fn read_files<F: Files>(
    alloc: Global,
    files: &mut F,
    names: Vec<String>,
) -> Result<Vec<Vec<u8>>, Fault>
    ensures all { IfOk result (λ texts.
        HoldInTurn (F.held files.old) names.items (map (λ text. text.items) texts.items)) }
    ensures each { IfOk result (λ texts. length texts.items ≡ length names.items) }
    ensures kept { F.held files.new ≡ F.held files.old }
    ensures cause { IfErr result (IsOfFiles names.items (F.held files.old)) }
{
    let mut texts = Vec::with_capacity(alloc, names.len())?;
    for name in names {
        let text = read_file(alloc, files, name)?;
        texts.push(text)?;
    }
    Ok(texts)
}
