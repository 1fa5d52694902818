// Reading that tells a failed read from the end of the input, over a reader of std. What an answer of `read` makes of the bytes read so far is
// specs/Input.antt's `after_of`, and what a reading that stops has come to its `outcome`; proofs/Answers.antt has the law over any answers: one that
// fails before the end makes the whole fail by its error, and else the bytes are counted. A reader's contract knows no history, but what it says of
// the bytes that are known to come holds of the whole reading: where none failed they stand in the lent bytes, as many as there is room for.
#![tactic(auto)]

mod failure;

ghost use Rattle.std.specs.Prelude.{◌≡◌, ◌+◌, ◌<◌, ◌^◌, IfOk, length, take};
ghost use Rattle.input.specs.Input.{after_of, outcome, Stands, Takes, Filled, TakesAll};

pub use failure::fail;
use std::io;
use std::io::Read;

// What an answer of `read` makes of `done` bytes read so far: so many, or the end of the input.
fn after(done: usize, answer: io::Result<usize>) -> io::Result<Option<usize>>
    requires { IfOk answer (λ k. done + k < 2 ^ 64) }
    ensures { result ≡ after_of done answer }
{
    match answer? {
        0 => Ok(None),
        k => Ok(Some(done + k)),
    }
}

// What a reading of `done` bytes that stops here has come to.
fn outcome(done: usize, got: io::Result<Option<usize>>) -> io::Result<usize>
    ensures { result ≡ outcome done got }
{
    match got {
        Ok(Some(n)) => Ok(n),
        Ok(None) => Ok(done),
        Err(e) => Err(e),
    }
}

// One read into the buffer after the bytes that stand there: how many stand there now, or none where the input has ended. Where no room is left nothing
// is asked for, and that is the end.
pub fn read_more<R: Read>(reader: &mut R, buf: &mut [u8], done: usize) -> io::Result<Option<usize>>
    ensures stands { Stands done (length buf.new) result }
    ensures kept { take done buf.new ≡ take done buf.old }
    ensures known { Takes (R.remaining reader.old) (R.remaining reader.new) done result buf.new }
{
    if done >= buf.len() {
        return Ok(None);
    }
    after(done, reader.read(&mut buf[done..]))
}

// Reads to the end of the input, or until the buffer is full. (No `for`: where the next read starts is known once this one is answered.)
pub fn read_all<R: Read>(reader: &mut R, buf: &mut [u8]) -> io::Result<usize>
    ensures filled { Filled result buf.new }
    ensures known { TakesAll (R.remaining reader.old) (R.remaining reader.new) result buf.new }
{
    let mut done = 0;
    loop {
        let got = read_more(reader, buf, done);
        let Ok(more) = got else {
            return outcome(done, got);
        };
        let Some(n) = more else {
            return outcome(done, got);
        };
        done = n;
    }
}
