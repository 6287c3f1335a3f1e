//! Seats and minutes in files.

use ctt_files::{Device, Failed, Leaving};
use ctt_log::Durable;
use ctt_office::Doors;
use std::alloc::Global;
use std::fs::{File, OpenOptions};
use std::io::{Read, Write};
use std::marker::{Send, Sync};
use std::rt::{Stdin, Stdout};
use std::{fs, io, rt};

/// The devices of seats and the files of minutes, by their names.
pub trait Office: Doors {
    /// The writer of minutes.
    type Minutes: Durable + Drop + Send;

    /// Returns whether there is a file of this name that is not empty.
    fn has_bytes(&self, name: &str) -> bool;

    /// Opens the file of this name for appending, and creates it if there is none.
    fn open_minutes(&self, name: &str) -> Result<Self::Minutes, Failed>;
}

/// The name of the seat at standard input and standard output.
pub const STANDARD: &str = "-";

/// The device from which the lines of a seat are read.
#[derive(Drop)]
pub enum SeatInput<F> {
    Standard(Stdin),
    File(F),
}

impl<F: Read> Read for SeatInput<F> {
    fn read(&mut self, buffer: &mut [u8]) -> io::Result<usize> {
        match self {
            SeatInput::Standard(input) => input.read(buffer),
            SeatInput::File(file) => file.read(buffer),
        }
    }
}

/// The device to which the answers of a seat are written. If nobody reads standard output any more,
/// the lines that were typed are still done, and their answers are dropped; a seat with files of its
/// own ends there.
#[derive(Drop)]
pub enum SeatOutput<F> {
    Standard(Leaving<Stdout>),
    File(F),
}

impl<F: Write> Write for SeatOutput<F> {
    fn write(&mut self, bytes: &[u8]) -> io::Result<usize> {
        match self {
            SeatOutput::Standard(out) => out.write(bytes),
            SeatOutput::File(file) => file.write(bytes),
        }
    }

    fn flush(&mut self) -> io::Result<()> {
        match self {
            SeatOutput::Standard(out) => out.flush(),
            SeatOutput::File(file) => file.flush(),
        }
    }
}

/// Seats and minutes in files of the system.
#[derive(Drop)]
pub struct SystemOffice<'r, R> {
    rt: &'r R,
    alloc: Global,
    input: Stdin,
    out: Stdout,
}

impl<'r, R: rt::Files> SystemOffice<'r, R> {
    /// Creates an office over the runtime's files.
    pub fn new(rt: &'r R, alloc: Global, input: Stdin, out: Stdout) -> Self {
        SystemOffice {
            rt,
            alloc,
            input,
            out,
        }
    }

    /// Returns the name of a seat's file.
    fn file_name(&self, seat: &str, end: &str) -> Result<String, Failed> {
        let Ok(mut name) = String::from_str(self.alloc, seat) else {
            return Err(Failed);
        };
        match name.push_str(end) {
            Ok(()) => Ok(name),
            Err(_) => Err(Failed),
        }
    }
}

impl<'r, R: rt::Files + Sync> Doors for SystemOffice<'r, R>
where
    R::File: Send,
{
    type Input = Device<SeatInput<R::File>>;

    type Output = Device<SeatOutput<R::File>>;

    fn open_input(&self, seat: &str) -> Result<Self::Input, Failed> {
        if seat == STANDARD {
            return Ok(Device::new(SeatInput::Standard(self.input)));
        }
        let name = self.file_name(seat, ".in")?;
        match fs::open(self.rt, name.as_str()) {
            Ok(file) => Ok(Device::new(SeatInput::File(file))),
            Err(_) => Err(Failed),
        }
    }

    fn open_output(&self, seat: &str) -> Result<Self::Output, Failed> {
        if seat == STANDARD {
            return Ok(Device::new(SeatOutput::Standard(Leaving(self.out))));
        }
        let name = self.file_name(seat, ".out")?;
        match fs::create(self.rt, name.as_str()) {
            Ok(file) => Ok(Device::new(SeatOutput::File(file))),
            Err(_) => Err(Failed),
        }
    }
}

impl<'r, R: rt::Files + Sync> Office for SystemOffice<'r, R>
where
    R::File: Send,
{
    type Minutes = Device<R::File>;

    fn has_bytes(&self, name: &str) -> bool {
        match fs::metadata(self.rt, name) {
            Ok(found) => found.len() > 0,
            Err(_) => false,
        }
    }

    fn open_minutes(&self, name: &str) -> Result<Device<R::File>, Failed> {
        match OpenOptions::new()
            .append(true)
            .create(true)
            .open(self.rt, name)
        {
            Ok(file) => Ok(Device::new(file)),
            Err(_) => Err(Failed),
        }
    }
}
