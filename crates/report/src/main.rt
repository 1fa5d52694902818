// The report program: a log on standard input, its report on standard output. It reads at most one byte more than a log may have, which is
// enough to say `toolong`. A log that cannot be read to its end has no report: nothing goes to standard output, and the reason to standard error,
// as it does where the report cannot be written. The program's exit status is 0 in any case: who starts it tells a failure by standard error, and
// then an accepted log by the first line of standard output, `answer 0` (that line alone is not enough: it may begin a report that was written in
// part). What is written is proved of `reporting::report`; here, that it ends and reads and writes within its spaces.
#![tactic(auto)]

use input::fail;
use reporting::ROOM;

// Writes the report of a log to standard output.
fn tell<R: Print + Eprint>(rt: &R, log: &[u8]) {
    let mut text = [0u8; ROOM];
    if let Some(k) = reporting::report(log, &mut text)
        && let Err(e) = rt.write_all(&text[..k])
    {
        fail(rt, "report: the report cannot be written", e);
    }
}

fn main(rt: HostRuntime) {
    // One byte more than reporting::MOST.
    let mut log = [0u8; 32769];
    match input::read_all(&mut rt.stdin(), &mut log) {
        Ok(n) => tell(&rt, &log[..n]),
        Err(e) => fail(&rt, "report: the log cannot be read", e),
    }
}
