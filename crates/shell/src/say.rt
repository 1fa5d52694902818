// What a line is answered, as text. Nothing here can change what is lent: it is shared.
ghost use Rattle.desk.specs.Desk.{Lent};

use crate::answer::{answered, asked, closed, found, freed, listed, recovered};
use crate::digest::digest;
use crate::help::help;
use crate::show::show;
use desk::{Desk, Response};
use image::WORDS;
use kinds::Partition;
use scripts::order::Look;
use std::io;
use std::io::Write;

// The first n bytes of the lent buffer, as they are: after what waits, and at once.
fn front<W: Write>(out: &mut W, n: usize, log: &[u8]) -> io::Result<()> {
    out.flush()?;
    out.write_all(&log[..n.min(log.len())])?;
    out.flush()
}

// (Not built into `seen`, since a function clears at entry what is built into it: here an outlist's two kilobytes.)
#[inline(never)]
fn outlist<W: Write>(out: &mut W, img: &[u32], p: Partition) -> io::Result<()> {
    listed(out, catalogue::outlist(img, p))
}

fn seen<W: Write>(out: &mut W, l: Look, img: &[u32], log: &[u8]) -> io::Result<()> {
    match l {
        Look::Read(n) => found(out, catalogue::read(img, n)),
        Look::Ask(n) => asked(out, catalogue::ask(img, n)),
        Look::Outlist(p) => outlist(out, img, p),
        Look::Digest => digest(out, img, log),
        Look::Show => show(out, img),
        Look::Log(n) => front(out, n, log),
        Look::Help => help(out),
    }
}

// The same of the words and bytes that are lent. (Nor is this built into `say`.)
#[inline(never)]
fn seen_on<W: Write>(out: &mut W, l: Look, d: Desk, img: &[u32], log: &[u8]) -> io::Result<()>
    requires { Lent d img.now log.now }
{
    seen(out, l, &img[..d.words], &log[..d.bytes])
}

// (A function and no Display: what is said needs what is lent.)
pub(crate) fn say<W: Write>(
    out: &mut W,
    said: Response,
    d: Desk,
    img: &[u32; WORDS],
    log: &[u8; 65536],
) -> io::Result<()>
    requires { Lent d img.now log.now }
{
    match said {
        Response::Nothing => Ok(()),
        Response::What => out.write_all(b"what?\n"),
        Response::Ok => out.write_all(b"ok\n"),
        Response::Waits(n) => writeln!(out, "waits {n}"),
        Response::Done(a) => answered(out, a),
        Response::Closed(c) => closed(out, c),
        Response::Freed(f) => freed(out, f),
        Response::Recovered(r) => recovered(out, r),
        Response::Look(l) => seen_on(out, l, d, img, log),
    }
}
