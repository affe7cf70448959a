//! The file of a journal: made or read, and appended to.

use crate::trouble::Trouble;
use journal::{finished, limits_in, put_first_line};
use layout::Limits;
use std::fs::{File, OpenOptions, TryLockError};
use std::io;
use std::io::{Read, Write};
use std::os::fd::AsRawFd;

/// The file of a journal, which this program alone writes.
#[derive(Drop)]
pub struct JournalFile {
    file: File,
    // how many bytes its finished lines have
    length: u64,
}

/// A journal that was opened: its finished lines, the limits that the first of them names, and how many bytes stand behind them.
#[derive(Drop)]
pub struct Opened {
    pub file: JournalFile,
    pub lines: Vec<u8>,
    pub limits: Limits,
    pub torn: usize,
}

// Whether a file is no standard stream: it is given the number of one that was closed, and would be written or read as that.
fn apart(file: &File) -> Result<(), Trouble> {
    if file.as_raw_fd() < 3 {
        return Err(Trouble::StreamClosed);
    }
    Ok(())
}

// Takes the file for this program, which a lock by its name alone would leave to a program that knows it by another.
fn take(file: &File) -> Result<(), Trouble> {
    match file.try_lock() {
        Ok(()) => Ok(()),
        Err(TryLockError::WouldBlock) => Err(Trouble::Locked),
        Err(TryLockError::Error(e)) => Err(Trouble::System(e)),
    }
}

// The folder that a file lies in, by its name.
fn folder_of(name: &str) -> &str {
    match name.rsplit_once('/') {
        Some(("", _)) => "/",
        Some((folder, _)) => folder,
        None => ".",
    }
}

// A new journal: its first line is on disk, and its name in its folder is.
fn begin(
    rt: &HostRuntime,
    name: &str,
    mut file: File,
    line: Vec<u8>,
    limits: Limits,
) -> Result<Opened, Trouble> {
    file.set_len(0)?;
    file.write_all(line.as_slice())?;
    file.sync_all()?;
    File::open(rt, folder_of(name))?.sync_all()?;
    let length = line.len() as u64;
    Ok(Opened {
        file: JournalFile { file, length },
        lines: line,
        limits,
        torn: 0,
    })
}

impl Opened {
    /// Opens the file of a journal. One that is not there is made for books of these limits, and so is one whose first line was not finished.
    pub fn open(rt: &HostRuntime, name: &str, limits: Limits) -> Result<Opened, Trouble> {
        let mut file = OpenOptions::new()
            .read(true)
            .append(true)
            .create(true)
            .open(rt, name)?;
        apart(&file)?;
        take(&file)?;
        let mut text = Vec::new(rt.alloc());
        file.read_to_end(&mut text)?;
        let mut line = Vec::new(rt.alloc());
        put_first_line(&mut line, limits)?;
        if text.len() < line.len() && line.starts_with(text.as_slice()) {
            return begin(rt, name, file, line, limits);
        }
        Opened::from_text(file, text)
    }

    /// Opens the file of a journal that is only read, and has to be there.
    pub fn read(rt: &HostRuntime, name: &str) -> Result<Opened, Trouble> {
        let mut file = File::open(rt, name)?;
        apart(&file)?;
        take(&file)?;
        let mut text = Vec::new(rt.alloc());
        file.read_to_end(&mut text)?;
        Opened::from_text(file, text)
    }

    // By what a file has.
    fn from_text(file: File, mut text: Vec<u8>) -> Result<Opened, Trouble> {
        let length = finished(text.as_slice()).len();
        let torn = text.len() - length;
        text.truncate(length);
        let limits = limits_in(text.as_slice()).ok_or(Trouble::NoJournal)?;
        Ok(Opened {
            file: JournalFile {
                file,
                length: length as u64,
            },
            lines: text,
            limits,
            torn,
        })
    }
}

impl JournalFile {
    /// Cuts off what stands behind the finished lines, and makes sure that these are on disk.
    pub fn cut(&self) -> io::Result<()> {
        self.file.set_len(self.length)?;
        self.file.sync_data()
    }

    /// Appends lines: they are on disk when this returns. Where that fails, the file is cut back to what it was.
    pub fn append(&mut self, lines: &[u8]) -> io::Result<()> {
        if lines.is_empty() {
            return Ok(());
        }
        if let Err(e) = self.put(lines) {
            let _ = self.cut();
            return Err(e);
        }
        self.length = self.length.saturating_add(lines.len() as u64);
        Ok(())
    }

    fn put(&mut self, lines: &[u8]) -> io::Result<()> {
        self.file.write_all(lines)?;
        self.file.sync_data()
    }
}
