//! A buffer before a stream, which takes pieces of text of any length.
ghost use Rattle.std.specs.Prelude.{◌≡◌, [], false, if◌then◌else◌};

use xt_base::{Sink, Wrote};

/// How many bytes a pen holds before it hands them over.
pub const ROOM: usize = 65_536;

/// A stream with a buffer before it. Once a write has failed nothing more is written.
///
/// It holds no memory of its own, so that what it leaves on the stream is known when it is let go.
#[derive(Drop)]
pub struct Pen<'a, S: Sink> {
    out: &'a mut S,
    buffer: &'a mut Vec<u8>,
    failed: bool,
}

impl<'a, S: Sink> Pen<'a, S> {
    ghost use Rattle.nt_write.specs.Pen.{Takes, stand, fresh};

    /// A pen that has taken nothing yet, over an empty buffer.
    pub fn new(buffer: &'a mut Vec<u8>, out: &'a mut S) -> Pen<'a, S>
        requires { buffer.old.items ≡ [] }
        ensures same { result.out.ghost_name ≡ out.entry.ghost_name }
        ensures fresh { stand S.written S.faults result ≡ fresh (S.written out.old) (S.faults out.old) }
    {
        Pen {
            out,
            buffer,
            failed: false,
        }
    }

    /// Whether a write failed.
    pub fn has_failed(&self) -> bool
        ensures { result ≡ self.now.failed }
    {
        self.failed
    }

    /// Takes a piece of text.
    pub fn put(&mut self, piece: &[u8])
        ensures { Takes S.written S.faults self.old self.new piece.now }
    {
        if !self.keep(piece) {
            self.flush();
            if !self.keep(piece) {
                self.send(piece);
            }
        }
    }

    /// Puts a piece into the buffer, if there is room for it.
    fn keep(&mut self, piece: &[u8]) -> bool
        ensures takes { Takes S.written S.faults self.old self.new (if result then piece.now else []) }
        ensures held { result ≡ false → self.new.buffer.now.items ≡ self.old.buffer.now.items }
    {
        piece.len() <= ROOM.saturating_sub(self.buffer.len())
            && self.buffer.extend_from_slice(piece).is_ok()
    }

    /// Hands a piece to the stream past the buffer, unless a write has failed before.
    fn send(&mut self, piece: &[u8])
        requires { self.old.buffer.now.items ≡ [] }
        ensures { Takes S.written S.faults self.old self.new piece.now }
    {
        if !self.failed {
            match self.out.write(piece) {
                Wrote::All => {}
                Wrote::Failed => self.failed = true,
            }
        }
    }

    /// Hands the buffer to the stream, unless a write has failed before.
    pub fn flush(&mut self)
        ensures same { self.new.out.ghost_name ≡ self.old.out.ghost_name }
        ensures takes { Takes S.written S.faults self.old self.new [] }
        ensures empty { self.new.buffer.now.items ≡ [] }
    {
        if !self.failed {
            match self.out.write(self.buffer.as_slice()) {
                Wrote::All => {}
                Wrote::Failed => self.failed = true,
            }
        }
        self.buffer.clear();
    }
}
