// How a script was played, from best to worst.
use input::fail;
use std::{fmt, io};

#[derive(Clone, Copy, PartialEq, Eq, PartialOrd, Ord)]
pub(crate) enum Status {
    // Every line was a command, a remark or empty.
    Fine,
    // A line was `what?`, or the script is too long.
    Odd,
    // The script or a log cannot be read, or an answer cannot be written.
    Failed,
}

impl Status {
    // The status after a write. Why one failed goes to standard error.
    pub(crate) fn of<R: Eprint>(rt: &R, written: io::Result<()>) -> Status {
        match written {
            Ok(()) => Status::Fine,
            Err(e) => {
                fail(rt, "shell: the answers cannot be written", e);
                Status::Failed
            }
        }
    }
}

impl fmt::Display for Status {
    fn fmt<W: fmt::Write>(&self, f: &mut fmt::Formatter<W>) -> fmt::Result {
        f.write_str(match self {
            Status::Fine => "0",
            Status::Odd => "1",
            Status::Failed => "2",
        })
    }
}
