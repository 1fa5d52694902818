// What is lent before the first line: nothing, or, where the program has two arguments, the log on descriptor 4 and an image for it.
ghost use Rattle.std.specs.Prelude.{◌≡◌, ◌≤◌, IfOk, length};
ghost use Rattle.shell.specs.Feed.{Begun};

use crate::status::Status;
use desk::Desk;
use input::fail;
use reporting::asked::asked_of;
use std::env::{Env, FillError};
use std::fs::File;
use std::io;
use std::io::Read;
use std::rt::Files;

// Where a log that is lent stands.
const LOG: &str = "/dev/fd/4";

// The most bytes of a log buffer.
const MOST: usize = 65536;

// Why a log is not lent.
#[derive(Drop)]
pub(crate) enum Unlent {
    Unread(io::Error),
    TooLong,
}

impl From<io::Error> for Unlent {
    fn from(error: io::Error) -> Unlent {
        Unlent::Unread(error)
    }
}

impl Unlent {
    // Says so on standard error.
    pub(crate) fn tell<R: Eprint>(self, rt: &R) -> Status {
        match self {
            Unlent::Unread(error) => fail(rt, "shell: the log cannot be read", error),
            Unlent::TooLong => {
                let _ = eprintln!(rt; "shell: the log has over 65536 bytes");
            }
        }
        Status::Failed
    }
}

// A log is lent, and an image of as many words as its heading asks for.
fn lend<R: Eprint>(rt: &R, bytes: &[u8], log: &mut [u8]) -> Desk
    requires { (length bytes.now ≤ 65536) × (65536 ≡ length log.old) }
    ensures { Begun result }
{
    let n = bytes.len();
    log[..n].copy_from_slice(bytes);
    let words = asked_of(bytes).map_or(0, |a| a.words);
    let _ = eprintln!(rt; "lent {n} bytes, {words} words");
    Desk::lent(words, n)
}

fn load<R: Eprint, S: Read>(rt: &R, source: &mut S, log: &mut [u8]) -> Result<Desk, Unlent>
    requires { 65536 ≡ length log.old }
    ensures { IfOk result Begun }
{
    // Room for the bytes of a log, and one more.
    let mut space = [0u8; 65537];
    let n = input::read_all(source, &mut space)?;
    if MOST < n {
        return Err(Unlent::TooLong);
    }
    Ok(lend(rt, &space[..n], log))
}

// Whether the program was started with an argument of this number; 0 is its own name.
pub(crate) fn has_argument<R: Env>(rt: &R, number: usize) -> bool {
    let mut start = [0u8; 1];
    !matches!(rt.arg(number, &mut start), Err(FillError::NotPresent))
}

pub(crate) fn begin<R: Env + Files + Eprint>(rt: &R, log: &mut [u8]) -> Result<Desk, Unlent>
    requires { 65536 ≡ length log.old }
    ensures { IfOk result Begun }
{
    if !has_argument(rt, 2) {
        return Ok(Desk::new());
    }
    let mut file = File::open(rt, LOG)?;
    load(rt, &mut file, log)
}
