//! A reader and a writer that follow a text, and octets in hexadecimal digits.
use std::io::{self, Error, ErrorKind, Read, Write};

/// The most octets in a text.
const SPELLED: usize = 20;

/// The octets in words of two hexadecimal digits.
#[derive(Clone, Copy)]
pub struct Octets {
    octets: [u8; SPELLED],
    len: usize,
}

impl Octets {
    /// The octets in a text.
    pub fn of(text: &str) -> Octets {
        let mut found = Octets {
            octets: [0; SPELLED],
            len: 0,
        };
        for word in text.split_whitespace() {
            if found.len < SPELLED {
                found.octets[found.len] = u8::from_str_radix(word, 16).unwrap_or(0);
                found.len += 1;
            }
        }
        found
    }

    /// All of them.
    pub fn all(&self) -> &[u8] {
        if self.len <= SPELLED {
            &self.octets[..self.len]
        } else {
            &[]
        }
    }
}

/// A reader that does these steps, separated by commas, one for each read, and then is at its end. A step gives
/// octets, is interrupted by a signal (`interrupted`), or fails (`fails`).
#[derive(Clone, Copy)]
pub struct FakeReader<'a> {
    steps: &'a str,
    is_read: bool,
}

impl<'a> FakeReader<'a> {
    /// A reader that does these steps.
    pub fn new(steps: &'a str) -> Self {
        FakeReader {
            steps,
            is_read: false,
        }
    }

    /// Whether it was never read.
    pub fn is_unread(&self) -> bool {
        !self.is_read
    }
}

impl<'a> Read for FakeReader<'a> {
    fn read(&mut self, buf: &mut [u8]) -> io::Result<usize> {
        self.is_read = true;
        let (step, others) = self.steps.split_once(',').unwrap_or((self.steps, ""));
        self.steps = others;
        match step.trim() {
            "interrupted" => Err(Error::from(ErrorKind::Interrupted)),
            "fails" => Err(Error::from(ErrorKind::Other)),
            text => {
                let octets = Octets::of(text);
                let octets = octets.all();
                let count = octets.len().min(buf.len());
                buf[..count].copy_from_slice(&octets[..count]);
                Ok(count)
            }
        }
    }
}

/// The number of octets that a fake writer stores.
const ROOM: usize = 64;

/// A writer that stores the first octets, and may fail.
#[derive(Clone, Copy)]
pub struct FakeWriter {
    kept: [u8; ROOM],
    len: usize,
    /// The maximum number of octets that one write accepts.
    write_size: usize,
    /// The number of writes that succeed.
    writes_left: u32,
    /// Whether a flush succeeds.
    can_flush: bool,
    /// Whether everything written has been flushed.
    pub is_flushed: bool,
}

impl FakeWriter {
    /// A writer that does not fail.
    pub fn new() -> Self {
        FakeWriter {
            kept: [0; ROOM],
            len: 0,
            write_size: ROOM,
            writes_left: u32::MAX,
            can_flush: true,
            is_flushed: true,
        }
    }

    /// A writer that accepts a number of writes, of one octet each, and then fails. With another word, a flush fails.
    /// With an empty text, it does not fail.
    pub fn failing(text: &str) -> Self {
        let mut writer = FakeWriter::new();
        for word in text.split_whitespace() {
            match word.parse::<u32>() {
                Ok(count) => {
                    writer.write_size = 1;
                    writer.writes_left = count;
                }
                Err(_) => writer.can_flush = false,
            }
        }
        writer
    }

    /// The first octets that were written, as far as they are stored.
    pub fn octets(&self) -> &[u8] {
        &self.kept[..self.len.min(ROOM)]
    }

    /// Whether exactly these octets were written.
    pub fn holds(&self, octets: &[u8]) -> bool {
        self.octets() == octets
    }
}

impl Write for FakeWriter {
    fn write(&mut self, octets: &[u8]) -> io::Result<usize> {
        if self.writes_left == 0 {
            return Err(Error::from(ErrorKind::Other));
        }
        self.writes_left -= 1;
        self.is_flushed = false;
        let count = octets.len().min(self.write_size);
        for octet in &octets[..count] {
            if self.len < ROOM {
                self.kept[self.len] = *octet;
                self.len += 1;
            }
        }
        Ok(count)
    }

    fn flush(&mut self) -> io::Result<()> {
        if !self.can_flush {
            return Err(Error::from(ErrorKind::Other));
        }
        self.is_flushed = true;
        Ok(())
    }
}
