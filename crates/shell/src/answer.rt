// Each call's answer as a line.
use catalogue::{Closed, Freed};
use kinds::{Outlist, Record, Refusal, Target, target_of};
use recovery::Fault;
use std::io::Write;
use std::{fmt, io};

// What a field, a root or a handle holds: an object's name, as p.s, or `-` for nothing.
#[derive(Clone, Copy)]
pub(crate) struct Held(pub(crate) Target);

impl fmt::Display for Held {
    fn fmt<W: fmt::Write>(&self, f: &mut fmt::Formatter<W>) -> fmt::Result {
        match self.0 {
            None => write!(f, "-"),
            Some(n) => write!(f, "{}.{}", n.partition.0, n.slot.0),
        }
    }
}

// A refusal's number and its extra answer.
fn refused<W: Write>(out: &mut W, r: Refusal) -> io::Result<()> {
    writeln!(out, "refused {} {}", r.number, r.extra)
}

pub(crate) fn answered<W: Write>(out: &mut W, a: Result<usize, Refusal>) -> io::Result<()> {
    match a {
        Ok(n) => writeln!(out, "done {n}"),
        Err(r) => refused(out, r),
    }
}

pub(crate) fn closed<W: Write>(out: &mut W, c: Result<Closed, Refusal>) -> io::Result<()> {
    match c {
        Ok(c) => writeln!(out, "done {} {} {}", c.length, c.count, c.freed),
        Err(r) => refused(out, r),
    }
}

pub(crate) fn freed<W: Write>(out: &mut W, f: Result<Freed, Refusal>) -> io::Result<()> {
    match f {
        Ok(f) => writeln!(out, "done {} {}", f.length, f.freed),
        Err(r) => refused(out, r),
    }
}

// A refused recovery's extra answer is the line; the byte within it stands behind.
pub(crate) fn recovered<W: Write>(out: &mut W, r: Result<usize, Fault>) -> io::Result<()> {
    match r {
        Ok(n) => writeln!(out, "kept {n}"),
        Err(f) => writeln!(
            out,
            "refused {} {} {}",
            f.refusal.number, f.refusal.extra, f.byte
        ),
    }
}

pub(crate) fn asked<W: Write>(out: &mut W, a: Result<bool, Refusal>) -> io::Result<()> {
    match a {
        Ok(true) => out.write_all(b"yes\n"),
        Ok(false) => out.write_all(b"no\n"),
        Err(r) => refused(out, r),
    }
}

fn record<W: Write>(out: &mut W, r: Record) -> io::Result<()> {
    let [a, b, c, d] = r.fields.map(|f| Held(f.target));
    writeln!(out, "record {} {a} {b} {c} {d}", r.payload)
}

pub(crate) fn found<W: Write>(out: &mut W, r: Result<Record, Refusal>) -> io::Result<()> {
    match r {
        Ok(object) => record(out, object),
        Err(r) => refused(out, r),
    }
}

// Unused names are 0, and stand behind the others.
fn names<W: Write>(out: &mut W, o: Outlist) -> io::Result<()> {
    write!(out, "outlist {}", o.number)?;
    for w in &o.names {
        if *w != 0 {
            write!(out, " {}", Held(target_of(*w)))?;
        }
    }
    writeln!(out)
}

pub(crate) fn listed<W: Write>(out: &mut W, l: Result<Outlist, Refusal>) -> io::Result<()> {
    match l {
        Ok(o) => names(out, o),
        Err(r) => refused(out, r),
    }
}
