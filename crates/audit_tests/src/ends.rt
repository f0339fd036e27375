//! Ends of std that fail on purpose, and count how often they were called.

use std::alloc::Global;
use std::io;
use std::io::{ErrorKind, Read, Write};

/// A reader that gives at most so many bytes a call, and fails in this way at one call alone, from 1 (0 for none).
#[derive(Clone, Copy)]
pub struct Pieces<'a> {
    bytes: &'a [u8],
    piece: usize,
    fails_at: u64,
    kind: ErrorKind,
    pub calls: u64,
}

impl<'a> Pieces<'a> {
    pub fn new(bytes: &'a [u8], piece: usize, fails_at: u64, kind: ErrorKind) -> Pieces<'a> {
        Pieces {
            bytes,
            piece,
            fails_at,
            kind,
            calls: 0,
        }
    }
}

/// An input that comes in pieces of so many bytes.
pub fn in_pieces(bytes: &[u8], piece: usize) -> Pieces<'_> {
    Pieces::new(bytes, piece, 0, ErrorKind::Other)
}

/// An input that comes at once.
pub fn whole(bytes: &[u8]) -> Pieces<'_> {
    in_pieces(bytes, usize::MAX)
}

impl Read for Pieces<'_> {
    fn read(&mut self, buf: &mut [u8]) -> io::Result<usize> {
        self.calls = self.calls.saturating_add(1);
        if self.calls == self.fails_at {
            return Err(io::Error::from(self.kind));
        }
        let count = self.piece.min(buf.len()).min(self.bytes.len());
        let (front, rest) = self.bytes.split_at(count);
        buf[..count].copy_from_slice(front);
        self.bytes = rest;
        Ok(count)
    }
}

/// What an end does at the call that it fails at.
#[derive(Clone, Copy, Debug)]
pub enum Failing {
    Fails(ErrorKind),
    TakesNone,
}

/// How an output takes bytes: at most so many a call, and at one call alone, from 1 (0 for none), it fails in this way.
#[derive(Clone, Copy)]
pub struct Room {
    pub piece: usize,
    pub fails_at: u64,
    pub failing: Failing,
}

/// An output that takes so many bytes a call.
pub fn room_by(piece: usize) -> Room {
    Room {
        piece,
        fails_at: 0,
        failing: Failing::TakesNone,
    }
}

/// An output that takes all at once.
pub fn ample() -> Room {
    room_by(usize::MAX)
}

/// A writer of that sort.
#[derive(Drop)]
pub struct Narrow {
    pub taken: Vec<u8>,
    room: Room,
    pub calls: u64,
}

impl Narrow {
    pub fn new(alloc: Global, room: Room) -> Narrow {
        Narrow {
            taken: Vec::new(alloc),
            room,
            calls: 0,
        }
    }
}

impl Write for Narrow {
    fn write(&mut self, buf: &[u8]) -> io::Result<usize> {
        self.calls = self.calls.saturating_add(1);
        if self.calls == self.room.fails_at {
            return match self.room.failing {
                Failing::Fails(kind) => Err(io::Error::from(kind)),
                Failing::TakesNone => Ok(0),
            };
        }
        let count = self.room.piece.min(buf.len());
        self.taken.extend_from_slice(&buf[..count])?;
        Ok(count)
    }

    fn flush(&mut self) -> io::Result<()> {
        Ok(())
    }
}
