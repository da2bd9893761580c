// The piece of a text that is not yet handed to the sink.
ghost use Rattle.std.specs.Prelude.{◌≡◌, ◌+◌, ◌++◌, ◌≤◌, [], Ok, length, replicate};
ghost use Rattle.glsl_grammar.specs.Layout.{indent_text};
ghost use Rattle.glsl_grammar.specs.Marks.{mark_text};
ghost use Rattle.glsl_print.specs.Printed.{Goes};

use crate::PrintEnd;
use cc_outside::{Sink, WriteEnd, write_all};
use glsl_grammar::Mark;
use std::marker::Model;

/// The number of bytes that the sink is handed at once.
const PIECE: usize = 4096;

/// The bytes that the sink was not handed yet, and how the printing stands. After an end it hands the sink nothing.
#[derive(Drop)]
pub struct Page {
    bytes: [u8; PIECE],
    len: usize,
    status: Status,
}

type Status = Result<(), PrintEnd>;

// Hands the sink bytes, unless the printing has ended.
fn hand<K: Sink>(bytes: &[u8], sink: &mut K, status: Status) -> Status
    ensures { Goes K.written K.faults K.wants sink.old (record { held = bytes.now; status = status }) [] sink.new (record { held = []; status = result }) }
{
    status?;
    match write_all(sink, bytes) {
        Ok(()) => Ok(()),
        Err(WriteEnd::Fault) => Err(PrintEnd::Fault),
        Err(WriteEnd::Memory) => Err(PrintEnd::Memory),
    }
}

impl Model for Page {
    ghost use Rattle.std.specs.Prelude.{◌≤◌, take};
    ghost use Rattle.glsl_print.specs.Printed.{PageState};

    ghost Value = { PageState };

    ghost view = { λ p. record { held = take p.len p.bytes; status = p.status } };

    ghost invariant = { λ p. p.len ≤ 4096 };
}

impl Page {
    pub fn new() -> Page
        ensures { result ≡ record { held = []; status = Ok tt } }
    {
        Page {
            bytes: [0; PIECE],
            len: 0,
            status: Ok(()),
        }
    }

    pub fn status(&self) -> Status
        ensures { result ≡ self.now.status }
    {
        self.status
    }

    fn room(&self) -> usize
        ensures { result + length self.now.held ≡ 4096 }
    {
        PIECE - self.len
    }

    // Holds these bytes too.
    fn hold(&mut self, bytes: &[u8])
        requires { length self.old.held + length bytes.now ≤ 4096 }
        ensures { self.new ≡ record { held = self.old.held ++ bytes.now; status = self.old.status } }
    {
        let end = self.len + bytes.len();
        self.bytes[self.len..end].copy_from_slice(bytes);
        self.len = end;
    }

    // Holds so many blanks too.
    fn hold_blanks(&mut self, count: usize)
        requires { length self.old.held + count ≤ 4096 }
        ensures { self.new ≡ record { held = self.old.held ++ replicate count 32; status = self.old.status } }
    {
        let end = self.len + count;
        self.bytes[self.len..end].fill(b' ');
        self.len = end;
    }

    /// Hands the sink what is held.
    pub fn hand_on<K: Sink>(&mut self, sink: &mut K)
        ensures empty { self.new.held ≡ [] }
        ensures goes { Goes K.written K.faults K.wants sink.old self.old [] sink.new self.new }
    {
        self.status = hand(&self.bytes[..self.len], sink, self.status);
        self.len = 0;
    }

    /// Prints bytes.
    #[inline(always)]
    pub fn put<K: Sink>(&mut self, bytes: &[u8], sink: &mut K)
        ensures { Goes K.written K.faults K.wants sink.old self.old bytes.now sink.new self.new }
    {
        if bytes.len() <= self.room() {
            self.hold(bytes);
        } else {
            self.put_across(bytes, sink);
        }
    }

    // Prints bytes for which the page has no room.
    #[cold]
    #[inline(never)]
    fn put_across<K: Sink>(&mut self, bytes: &[u8], sink: &mut K)
        ensures { Goes K.written K.faults K.wants sink.old self.old bytes.now sink.new self.new }
    {
        let mut rest = bytes;
        while rest.len() > self.room() {
            let (front, after) = rest.split_at(self.room());
            self.hold(front);
            self.hand_on(sink);
            rest = after;
        }
        self.hold(rest);
    }

    /// Prints a fixed piece.
    #[inline(always)]
    pub fn put_mark<K: Sink>(&mut self, mark: Mark, sink: &mut K)
        ensures { Goes K.written K.faults K.wants sink.old self.old (mark_text mark) sink.new self.new }
    {
        self.put(mark.bytes(), sink);
    }

    // Prints so many blanks.
    #[inline(always)]
    fn put_blanks<K: Sink>(&mut self, count: usize, sink: &mut K)
        requires { count ≤ 4096 }
        ensures { Goes K.written K.faults K.wants sink.old self.old (replicate count 32) sink.new self.new }
    {
        let room = self.room();
        if count <= room {
            self.hold_blanks(count);
        } else {
            self.hold_blanks(room);
            self.hand_on(sink);
            self.hold_blanks(count - room);
        }
    }

    /// Prints four blanks for each level.
    #[inline]
    pub fn put_levels<K: Sink>(&mut self, levels: u8, sink: &mut K)
        ensures { Goes K.written K.faults K.wants sink.old self.old (indent_text levels) sink.new self.new }
    {
        self.put_blanks(4 * levels as usize, sink);
    }
}
