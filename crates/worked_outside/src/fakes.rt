//! Readers and writers that are interrupted, or take nothing.
use std::io;
use std::io::{ErrorKind, Read, Write};

/// A reader of endless sevens, one at a read, that is interrupted so often before the first.
#[derive(Drop)]
pub struct FlakyReader {
    pub interrupts: u32,
}

impl Read for FlakyReader {
    fn read(&mut self, buf: &mut [u8]) -> io::Result<usize> {
        if self.interrupts > 0 {
            self.interrupts -= 1;
            return Err(io::Error::from(ErrorKind::Interrupted));
        }
        if buf.is_empty() {
            return Ok(0);
        }
        buf[0] = 7;
        Ok(1)
    }
}

/// A writer that takes one byte at a write, and is interrupted so often before each call.
#[derive(Drop)]
pub struct SlowWriter {
    pub taken: Vec<u8>,
    pub flushed: usize,
    pub write_interrupts: u32,
    pub flush_interrupts: u32,
    pub waited: u32,
}

impl Write for SlowWriter {
    fn write(&mut self, buf: &[u8]) -> io::Result<usize> {
        if self.waited < self.write_interrupts {
            self.waited += 1;
            return Err(io::Error::from(ErrorKind::Interrupted));
        }
        self.waited = 0;
        let Some(byte) = buf.first() else {
            return Ok(0);
        };
        self.taken.push(*byte)?;
        Ok(1)
    }

    fn flush(&mut self) -> io::Result<()> {
        if self.waited < self.flush_interrupts {
            self.waited += 1;
            return Err(io::Error::from(ErrorKind::Interrupted));
        }
        self.waited = 0;
        self.flushed = self.taken.len();
        Ok(())
    }
}

/// A writer that takes nothing.
#[derive(Drop)]
pub struct FullWriter;

impl Write for FullWriter {
    fn write(&mut self, _buf: &[u8]) -> io::Result<usize> {
        Ok(0)
    }

    fn flush(&mut self) -> io::Result<()> {
        Ok(())
    }
}
