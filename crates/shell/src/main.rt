// The shell: plays a script from standard input, makes the catalogue's calls that it names, and writes each answer (docs/SHELL.md has every
// command, the statuses, and what goes to standard error). What a line asks for is the proved library scripts; what it leaves of the image,
// the log buffer and the waiting transaction that are lent, and what it is answered, is the proved library desk (`turn_of`), and from the first
// line on the one call of `desk::step` alone is lent them to change. Here every function is proved to be safe and to end.
#![tactic(auto)]

mod answer;
mod digest;
mod feed;
mod help;
mod out;
mod run;
mod say;
mod show;
mod start;
mod status;

ghost use Rattle.std.specs.Prelude.{◌≡◌, length};

use crate::run::run;
use crate::start::has_argument;
use crate::status::Status;
use std::env::Env;
use std::fs::OpenOptions;
use std::io;
use std::io::Write;
use std::rt::Files;

// Where whoever started the program reads its status.
const STATUS: &str = "/dev/fd/3";

// A function of its own: at the literal [0; 1048577] the check runs out of stack.
fn zeros<const N: usize>() -> [u8; N]
    ensures { N ≡ length result }
{
    [0; N]
}

// Writes the status as a line on descriptor 3.
fn write_status<R: Files>(rt: &R, status: Status) -> io::Result<()> {
    let mut to = OpenOptions::new().append(true).open(rt, STATUS)?;
    writeln!(to, "{status}")
}

// The program's exit status is 0 in any case: with an argument it writes its status on descriptor 3, for whoever started it.
fn tell<R: Env + Files>(rt: &R, status: Status) {
    if has_argument(rt, 1) {
        let _ = write_status(rt, status);
    }
}

fn main(rt: HostRuntime) {
    // A script has at most 1,048,576 bytes, and one byte more tells a longer one.
    let mut script = zeros::<1048577>();
    let mut source = rt.stdin();
    let status = run(&rt, &mut source, &mut script);
    tell(&rt, status);
}
