// The script as it comes: all of it before the first line or, at a terminal, line by line.
ghost use Rattle.std.specs.Prelude.{◌≡◌, ◌+◌, ◌<◌, ◌≤◌, IfSome, length};
ghost use Rattle.input.specs.Input.{Stands};
ghost use Rattle.shell.specs.Feed.{room, most};

use crate::status::Status;
use input::fail;
use scripts::run::{Run, bare, end_of};
use std::io;
use std::io::{IsTerminal, Read};

// The most bytes that a script has.
const SCRIPT: usize = 1048576;

// Where a line stands in the script, without what ends it.
#[derive(Clone, Copy)]
pub(crate) struct Line {
    pub start: usize,
    pub end: usize,

    ghost forth: { start ≤ end },
    ghost within: { end ≤ room },
}

// How far the script is read and played. The lines are handed out as places, since the script grows in its buffer while they are.
#[derive(Drop)]
pub(crate) struct Feed {
    // Where the next line starts.
    pub at: usize,
    // How many bytes of the script are read.
    pub have: usize,
    // More may come: a terminal, whose input has not ended.
    pub more: bool,
    // How reading went so far.
    pub status: Status,

    // A last line that lacks its end is followed by one that would start behind it.
    ghost after: { at ≤ have + 1 },
    ghost read: { have ≤ most },
}

fn unread<R: Eprint>(rt: &R, error: io::Error) -> Status {
    fail(rt, "shell: the script cannot be read", error);
    Status::Failed
}

fn too_long<R: Print + Eprint>(rt: &R) -> Status {
    Status::of(rt, rt.write_all(b"toolong\n")).max(Status::Odd)
}

// Where the line that starts at a place ends.
fn line_end(script: &[u8], at: usize) -> usize
    requires { at ≤ length script.now }
    ensures { (at ≤ result) × (result ≤ length script.now) }
{
    end_of(script, at, Run::Line)
}

// One read more, after the prompt.
fn ask<R: Eprint, S: Read>(
    rt: &R,
    source: &mut S,
    script: &mut [u8],
    have: usize,
) -> io::Result<Option<usize>>
    ensures { Stands have (length script.new) result }
{
    let _ = eprint!(rt; "> ");
    input::read_more(source, script, have)
}

impl Feed {
    // Nothing is played yet. Where the source is no terminal, all of it is read.
    pub(crate) fn new<R: Print + Eprint, S: Read + IsTerminal>(
        rt: &R,
        source: &mut S,
        script: &mut [u8],
    ) -> Feed
        requires { room ≡ length script.old }
        ensures { result.at ≡ 0 }
    {
        if source.is_terminal() {
            return Feed {
                at: 0,
                have: 0,
                more: true,
                status: Status::Fine,
            };
        }
        let (have, status) = match input::read_all(source, script) {
            Ok(n) if n <= SCRIPT => (n, Status::Fine),
            Ok(_) => (0, too_long(rt)),
            Err(e) => (0, unread(rt, e)),
        };
        Feed {
            at: 0,
            have,
            more: false,
            status,
        }
    }

    // The line from here to its end, where a byte 13 is blank.
    fn line(&mut self, script: &[u8], end: usize) -> Line
        requires { (self.old.at ≤ end) × (end ≤ self.old.have) × (self.old.have ≤ length script.now) }
        ensures { (result.start ≡ self.old.at) × (self.old.at < self.new.at) }
    {
        let start = self.at;
        self.at = end + 1;
        let n = bare(&script[start..end]);
        Line {
            start,
            end: start + n,
        }
    }

    // The last line, which may lack its end.
    fn last(&mut self, script: &[u8]) -> Option<Line>
        requires { self.old.have ≤ length script.now }
        ensures { IfSome result (λ l. (l.start ≡ self.old.at) × (self.old.at < self.new.at)) }
    {
        let end = self.have;
        if self.at < end {
            Some(self.line(script, end))
        } else {
            None
        }
    }

    // The next line. Where it is not complete and more may come, more is read. (No `for`: how much there is to search is known once it is read.)
    pub(crate) fn next<R: Print + Eprint, S: Read>(
        &mut self,
        rt: &R,
        source: &mut S,
        script: &mut [u8],
    ) -> Option<Line>
        requires { room ≡ length script.old }
        ensures { IfSome result (λ l. (l.start ≡ self.old.at) × (self.old.at < self.new.at)) }
    {
        if self.have < self.at {
            return None;
        }
        loop {
            let have = self.have;
            let end = line_end(&script[..have], self.at);
            if end < have {
                return Some(self.line(&*script, end));
            }
            if !self.more {
                return self.last(&*script);
            }
            match ask(rt, source, &mut *script, have) {
                Ok(Some(n)) if n <= SCRIPT => self.have = n,
                Ok(Some(_)) => {
                    self.status = too_long(rt);
                    return None;
                }
                Ok(None) => {
                    let _ = eprintln!(rt);
                    self.more = false;
                    return self.last(&*script);
                }
                Err(e) => {
                    self.status = unread(rt, e);
                    return None;
                }
            }
        }
    }
}
