//! The room in which lines come to be whole.
ghost use Rattle.std.specs.Prelude.{◌≡◌, ◌+◌, ◌<◌, ◌≤◌, [], length, IfOk, OnOk, OnErr};
ghost use Rattle.span_io.specs.Causes.{HasCause, CountsGiven};
ghost use Rattle.input_lines.specs.Buffer.{unread, IsBuffer, FindsFeed, IsGrown, Gives};

use memchr::memchr;
use node_grid::NoMemory;
use span_io::{Failed, Source};
use std::alloc::Global;

/// How many bytes there is room for at first.
const FIRST_ROOM: usize = 65_536;

/// What was read, of which a front was taken.
#[derive(Drop)]
pub(crate) struct Buffer {
    /// What was read, and room for more.
    pub(crate) bytes: Vec<u8>,
    /// The place of the first byte that was not taken.
    pub(crate) next: usize,
    /// Up to this place no line feed stands from the next byte on.
    pub(crate) seen: usize,
    /// The place behind the last byte that was read.
    pub(crate) end: usize,
}

impl Buffer {
    /// Room in which nothing was read.
    ///
    /// # Errors
    /// `NoMemory` where there is none.
    pub(crate) fn open(alloc: Global) -> Result<Buffer, NoMemory>
        ensures buffer { IfOk result IsBuffer }
        ensures nothing { IfOk result (λ buffer. unread buffer ≡ []) }
        ensures room { IfOk result (λ buffer. length buffer.bytes.items ≡ 65536) }
    {
        let Ok(bytes) = vec![in alloc; 0u8; FIRST_ROOM] else {
            return Err(NoMemory);
        };
        Ok(Buffer {
            bytes,
            next: 0,
            seen: 0,
            end: 0,
        })
    }

    /// The place of the next line feed that was not taken.
    pub(crate) fn find(&mut self) -> Option<usize>
        requires { IsBuffer self.old }
        ensures buffer { IsBuffer self.new }
        ensures bytes { self.new.bytes ≡ self.old.bytes }
        ensures next { self.new.next ≡ self.old.next }
        ensures end { self.new.end ≡ self.old.end }
        ensures found { FindsFeed self.old result }
    {
        let feed = memchr(b'\n', &self.bytes[self.seen..self.end]);
        match feed {
            Some(place) => {
                self.seen += place;
                Some(self.seen)
            }
            None => {
                self.seen = self.end;
                None
            }
        }
    }

    /// Takes all before a place.
    pub(crate) fn pass(&mut self, place: usize)
        requires buffer { IsBuffer self.old }
        requires within { place ≤ self.old.end }
        ensures { self.new ≡ record self.old { next = place; seen = place } }
    {
        self.next = place;
        self.seen = place;
    }

    /// Moves what was not taken to the front.
    fn move_up(&mut self)
        requires { IsBuffer self.old }
        ensures buffer { IsBuffer self.new }
        ensures same { unread self.new ≡ unread self.old }
        ensures end { self.new.end + self.old.next ≡ self.old.end }
        ensures room { length self.new.bytes.items ≡ length self.old.bytes.items }
    {
        let start = self.next;
        self.bytes.as_mut_slice().copy_within(start..self.end, 0);
        self.next = 0;
        self.seen -= start;
        self.end -= start;
    }

    /// Makes room for so many bytes in all.
    ///
    /// # Errors
    /// `NoMemory` where there is none.
    pub(crate) fn grow(&mut self, room: usize) -> Result<(), NoMemory>
        requires { IsBuffer self.old }
        ensures buffer { IsBuffer self.new }
        ensures grown { IsGrown self.old self.new }
        ensures ok { OnOk result (room ≤ length self.new.bytes.items) }
        ensures err { OnErr result (self.new.bytes.items ≡ self.old.bytes.items) }
    {
        if room <= self.bytes.len() {
            return Ok(());
        }
        let Ok(()) = self.bytes.resize(room, 0) else {
            return Err(NoMemory);
        };
        Ok(())
    }

    /// Makes room for a byte more, where there is none.
    ///
    /// # Errors
    /// `NoMemory` where there is none.
    pub(crate) fn make_room(&mut self) -> Result<(), NoMemory>
        requires { IsBuffer self.old }
        ensures buffer { IsBuffer self.new }
        ensures same { unread self.new ≡ unread self.old }
        ensures more { OnOk result (self.new.end < length self.new.bytes.items) }
        ensures kept { length self.old.bytes.items ≤ length self.new.bytes.items }
        ensures full { OnErr result (length self.old.bytes.items ≤ length (unread self.old)) }
    {
        if self.end < self.bytes.len() {
            return Ok(());
        }
        if self.next > 0 {
            self.move_up();
            return Ok(());
        }
        let room = 2 * self.bytes.len();
        self.grow(room)
    }

    /// Reads more behind what was read, and tells how many bytes were given.
    ///
    /// # Errors
    /// `Failed` where the source failed.
    pub(crate) fn read<S: Source>(&mut self, source: &mut S) -> Result<usize, Failed>
        requires buffer { IsBuffer self.old }
        requires room { self.old.end < length self.old.bytes.items }
        ensures buffer { IsBuffer self.new }
        ensures bytes { Gives (unread self.old) (unread self.new)
            (S.left source.old) (S.left source.new) result }
        ensures given { CountsGiven (S.given source.old) (S.given source.new) result }
        ensures cause { HasCause (S.faults source.old) (S.faults source.new) result }
        ensures room { length self.new.bytes.items ≡ length self.old.bytes.items }
    {
        let end = self.end;
        let Ok(count) = source.read(&mut self.bytes.as_mut_slice()[end..]) else {
            return Err(Failed);
        };
        self.end += count;
        Ok(count)
    }
}
