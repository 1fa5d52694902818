// Runs the bodies on standard input through the cursor, at every edge of the paper's rules for a line, and prints for each where it starts and what
// line it is; last the tail. The stored answers (stdout) were made by answers.py from the paper's rules alone. Proved: no index out of range, and it ends.
#![tactic(auto)]

use kinds::{Name, Operation, Single};
use lines::cursor::{Cursor, Step, limit_of};
use lines::line::Line;
use std::io::{BufWriter, Read, Write};
use std::{fmt, io};

// The most bytes that are read.
const MOST: u64 = 65536;

// An object's name, as its partition and its slot.
#[derive(Clone, Copy)]
struct Place(Name);

impl fmt::Display for Place {
    fn fmt<W: fmt::Write>(&self, f: &mut fmt::Formatter<W>) -> fmt::Result {
        write!(f, "{} {}", self.0.partition.0, self.0.slot.0)
    }
}

// (These are functions: a Display of another crate's type would need a struct around it, and be no shorter.)
fn show_operation<W: Write>(out: &mut W, o: Operation) -> io::Result<()> {
    match o {
        Operation::New(n, v) => write!(out, " new {} {v}", Place(n)),
        Operation::Set(n, f, None) => write!(out, " clr {} {f}", Place(n)),
        Operation::Set(n, f, Some(q)) => write!(out, " set {} {f} {}", Place(n), Place(q)),
        Operation::Val(n, v) => write!(out, " val {} {v}", Place(n)),
        Operation::Root(r, None) => write!(out, " unroot {r}"),
        Operation::Root(r, Some(q)) => write!(out, " root {r} {}", Place(q)),
    }
}

fn show_single<W: Write>(out: &mut W, a: Single) -> io::Result<()> {
    match a {
        Single::Open => write!(out, " open"),
        Single::Trace(p) => write!(out, " trace {}", p.0),
        Single::Close => write!(out, " close"),
        Single::Local(p) => write!(out, " local {}", p.0),
        Single::Hold(h, n) => write!(out, " hold {} {}", h.0, Place(n)),
        Single::Drop(h) => write!(out, " drop {}", h.0),
    }
}

fn show<W: Write>(out: &mut W, l: Line) -> io::Result<()> {
    match l {
        Line::Heading(e, p, s) => write!(out, " heap {e} {p} {s}")?,
        Line::Operation(o) => show_operation(out, o)?,
        Line::End(n) => write!(out, " end {n}")?,
        Line::Single(a) => show_single(out, a)?,
        Line::Bad => write!(out, " bad")?,
    }
    writeln!(out)
}

// (No `for`: a cursor is no iterator, since with a tail it also says how long that is.)
#[tactic(auto, using(lines::proofs::Bodies::step_on))]
fn walk<W: Write>(out: &mut W, log: &[u8]) -> io::Result<()> {
    let limit = limit_of(log);
    let mut c = Cursor::new();
    loop {
        write!(out, "{}", c.at)?;
        match c.next(log, limit) {
            Step::Line(l, next) => {
                show(out, l)?;
                c = next;
            }
            Step::Tail(n) => return writeln!(out, " tail {n}"),
        }
    }
}

fn main(rt: HostRuntime) -> io::Result<()> {
    let mut log = Vec::new(rt.alloc());
    rt.stdin().take(MOST).read_to_end(&mut log)?;
    let mut out = BufWriter::new(rt.alloc(), io::writer(&rt))?;
    walk(&mut out, &log)?;
    out.flush()
}
