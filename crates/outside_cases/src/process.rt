// A writer as a sink, and the words of a process.

use case_lines::{as_text, bytes, number, or_else, push_part, told_quoted};
use platform::{WriterSink, read_words};
use sso_base::{NoMemory, Text, write_whole};
use std::alloc::Global;
use std::env::{Env, FillError};
use std::io;
use std::io::{ErrorKind, Write};

// A writer that takes one byte at a call. Every other call is interrupted, and the call with one number fails.
#[derive(Drop)]
struct SlowWriter {
    taken: Vec<u8>,
    calls: u64,
    failing: u64,
}

impl Write for SlowWriter {
    fn write(&mut self, buf: &[u8]) -> io::Result<usize> {
        self.calls = self.calls.saturating_add(1);
        if self.calls == self.failing {
            return Err(io::Error::from(ErrorKind::BrokenPipe));
        }
        if self.calls % 2 == 1 {
            return Err(io::Error::from(ErrorKind::Interrupted));
        }
        let count = buf.len().min(1);
        self.taken.extend_from_slice(&buf[..count])?;
        Ok(count)
    }

    fn flush(&mut self) -> io::Result<()> {
        Ok(())
    }
}

/// `writer|CALL`: the bytes of `words` that a writer takes as a sink, and whether they are all. It takes one byte at a call,
/// every other call is interrupted, and the call with this number fails.
pub fn writer(alloc: Global, failing: &str) -> Result<String, NoMemory> {
    let mut writer = SlowWriter {
        taken: Vec::new(alloc),
        calls: 0,
        failing: u64::from(number(failing)),
    };
    let mut out = WriterSink::new(&mut writer);
    let end = match write_whole(&mut out, b"words") {
        Ok(()) => "all",
        Err(_) => "a fault",
    };
    let taken = as_text(writer.taken.as_slice());
    Ok(format!(in alloc; "{taken:?}, {end}")?)
}

// A process that was started with these words.
#[derive(Drop)]
struct Process<'a> {
    words: &'a [Vec<u8>],
}

impl<'a> Env for Process<'a> {
    fn arg(&self, i: usize, buf: &mut [u8]) -> Result<usize, FillError> {
        match self.words.get(i) {
            None => Err(FillError::NotPresent),
            Some(word) if word.len() > buf.len() => Err(FillError::TooLong),
            Some(word) => {
                buf[..word.len()].copy_from_slice(word.as_slice());
                Ok(word.len())
            }
        }
    }

    fn var(&self, _name: &str, _buf: &mut [u8]) -> Result<usize, FillError> {
        Err(FillError::NotPresent)
    }

    fn var_at(&self, _i: usize, _buf: &mut [u8]) -> Result<usize, FillError> {
        Err(FillError::NotPresent)
    }
}

fn words_in(alloc: Global, fields: &[&str]) -> Result<Vec<Vec<u8>>, NoMemory> {
    let mut words = Vec::new(alloc);
    for field in fields {
        words.push(bytes(alloc, field)?)?;
    }
    Ok(words)
}

fn told_words(alloc: Global, words: &[Text]) -> Result<String, NoMemory> {
    let mut out = String::new(alloc);
    for word in words {
        let text = told_quoted(alloc, word.as_str())?;
        push_part(&mut out, ", ", text.as_str())?;
    }
    or_else(out, "-")
}

/// `words|NAME|WORD|..`: the words of a process that was started with these, after its name.
pub fn words(alloc: Global, fields: &[&str]) -> Result<String, NoMemory> {
    let given = words_in(alloc, fields)?;
    let process = Process {
        words: given.as_slice(),
    };
    let words = read_words(alloc, &process)?;
    told_words(alloc, words.as_slice())
}
