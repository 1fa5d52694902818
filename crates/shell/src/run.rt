// The script, line by line.
ghost use Rattle.std.specs.Prelude.{◌≡◌, length};
ghost use Rattle.desk.specs.Desk.{Lent};
ghost use Rattle.shell.specs.Feed.{room};

use crate::feed::Feed;
use crate::out::Out;
use crate::say::say;
use crate::start::begin;
use crate::status::Status;
use desk::{Desk, Response, step};
use image::WORDS;
use kinds::Operation;
use scripts::command::parse;
use scripts::order::{Order, order_of};
use std::env::Env;
use std::io;
use std::io::{IsTerminal, Read, Write};
use std::rt::Files;

// What a line asks for.
fn asked(line: &[u8]) -> Order {
    order_of(parse(line))
}

// A waiting operation is kept, in an array (there is no heap), where those before it are counted; those past the last are counted and not kept.
fn keep(ops: &mut [Operation; Operation::LIMIT], o: Order, waits: usize) {
    if let Order::Wait(x) = o
        && let Some(place) = ops.get_mut(waits)
    {
        *place = x;
    }
}

// A line's answer. At a terminal it goes out before the prompt, and `what?` before the line's number.
fn answer<W: Write>(
    out: &mut W,
    said: Response,
    d: Desk,
    img: &[u32; WORDS],
    log: &[u8; 65536],
    prompted: bool,
) -> io::Result<()>
    requires { Lent d img.now log.now }
{
    say(out, said, d, img, log)?;
    if prompted || matches!(said, Response::What) {
        out.flush()?;
    }
    Ok(())
}

// The same, and the status after it. (Not built into `lines`: most lines of a script may have no answer.)
#[inline(never)]
fn told<R: Print + Eprint>(
    rt: &R,
    out: &mut Out<'_, R>,
    said: Response,
    d: Desk,
    img: &[u32; WORDS],
    log: &[u8; 65536],
    prompted: bool,
) -> Status
    requires { Lent d img.now log.now }
{
    Status::of(rt, answer(out, said, d, img, log, prompted))
}

// The number of a line that is `what?` goes to standard error.
fn noted<R: Eprint>(rt: &R, said: Response, number: usize) -> Status {
    if !matches!(said, Response::What) {
        return Status::Fine;
    }
    let _ = eprintln!(rt; "what? {number}");
    Status::Odd
}

// Every line of the script. Once a write failed, nothing is written any more. (No `for`: an iterator would hold the script, which each turn reads. The
// operations that wait stand in an array, and their number in the desk: there is no heap.)
fn lines<R: Print + Eprint + Env + Files, S: Read + IsTerminal>(
    rt: &R,
    source: &mut S,
    script: &mut [u8],
    out: &mut Out<'_, R>,
) -> Status
    requires { room ≡ length script.old }
{
    let mut img = [0u32; WORDS];
    let mut log = [0u8; 65536];
    let mut ops = [Operation::Root(0, None); Operation::LIMIT];
    let mut d = match begin(rt, &mut log) {
        Ok(d) => d,
        Err(e) => return e.tell(rt),
    };
    let mut number = 0;
    let mut status = Status::Fine;
    let mut feed = Feed::new(rt, source, &mut *script);
    while let Some(line) = feed.next(rt, source, &mut *script) {
        let text = &script[line.start..line.end];
        let o = asked(text);
        let turn = step(o, text, d, &ops, &mut img, &mut log);
        keep(&mut ops, o, d.waits);
        d = turn.desk;
        number += 1;
        if status != Status::Failed && !matches!(turn.said, Response::Nothing) {
            status = status.max(told(rt, out, turn.said, d, &img, &log, feed.more));
        }
        status = status.max(noted(rt, turn.said, number));
    }
    if status != Status::Failed {
        status = status.max(Status::of(rt, out.flush()));
    }
    status.max(feed.status)
}

// The whole script, and all that it writes.
pub(crate) fn run<R: Print + Eprint + Env + Files, S: Read + IsTerminal>(
    rt: &R,
    source: &mut S,
    script: &mut [u8],
) -> Status
    requires { room ≡ length script.old }
{
    let mut out = Out::new(rt);
    lines(rt, source, script, &mut out)
}
