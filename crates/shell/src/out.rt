// What is written waits in a buffer, and goes out where the buffer is full, before the log's own bytes and after them, after a line that is `what?`,
// after each line at a terminal, and at the end. (std's BufWriter has its buffer on the heap, and writes what a failed write left once more when it is
// let go.)
ghost use Rattle.std.specs.Prelude.{◌+◌, ◌<◌, ◌≤◌, length};

use std::io;
use std::io::Write;

const ROOM: usize = 4096;

#[derive(Drop)]
pub(crate) struct Out<'a, R> {
    rt: &'a R,
    bytes: [u8; ROOM],
    // How many bytes wait.
    waiting: usize,

    ghost room: { waiting < 4096 },
}

impl<'a, R> Out<'a, R> {
    pub(crate) fn new(rt: &'a R) -> Out<'a, R> {
        Out {
            rt,
            bytes: [0; ROOM],
            waiting: 0,
        }
    }
}

impl<R: Print> Out<'_, R> {
    // Bytes for which there is no room. As many as the buffer holds, or more, go out at once, after what waits; fewer fill it up, and what is left of them waits.
    #[cold]
    #[inline(never)]
    fn send(&mut self, buf: &[u8]) -> io::Result<()>
        requires { 4096 ≤ self.old.waiting + length buf.now }
    {
        if ROOM <= buf.len() {
            self.flush()?;
            return self.rt.write_all(buf);
        }
        let at = self.waiting;
        let room = ROOM - at;
        self.bytes[at..ROOM].copy_from_slice(&buf[..room]);
        self.waiting = 0;
        self.rt.write_all(&self.bytes)?;
        let rest = &buf[room..];
        let n = rest.len();
        self.bytes[0..n].copy_from_slice(rest);
        self.waiting = n;
        Ok(())
    }
}

impl<R: Print> Write for Out<'_, R> {
    fn write(&mut self, buf: &[u8]) -> io::Result<usize> {
        self.write_all(buf)?;
        Ok(buf.len())
    }

    // (std's own `write_all` calls `write` in a loop that counts its tries; each piece of an answer would take three times as long.)
    fn write_all(&mut self, buf: &[u8]) -> io::Result<()> {
        let at = self.waiting;
        let end = at + buf.len();
        if end < ROOM {
            self.bytes[at..end].copy_from_slice(buf);
            self.waiting = end;
            return Ok(());
        }
        self.send(buf)
    }

    // Writes what waits.
    fn flush(&mut self) -> io::Result<()> {
        let n = self.waiting;
        self.waiting = 0;
        self.rt.write_all(&self.bytes[..n])
    }
}
