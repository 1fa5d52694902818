// The script's keywords, as numbers: their bytes read as digits in base 256; and how many numbers follow each. Those of operations and
// of acts that are a single line are the log's.
ghost use Rattle.std.specs.Prelude.{◌≡◌};
ghost use Rattle.scripts.specs.Table.{takes};

use lines::words::{CLOSE, CLR, DROP, HOLD, LOCAL, NEW, OPEN, ROOT, SET, TRACE, UNROOT, VAL};

pub(crate) const IMAGE: u64 = 452806666085;

pub(crate) const WORD: u64 = 2003792484;

pub(crate) const BUFFER: u64 = 108256368682354;

pub(crate) const BYTES: u64 = 422944466291;

pub(crate) const FORMAT: u64 = 112628847174004;

pub(crate) const COMMIT: u64 = 109330228406644;

pub(crate) const READ: u64 = 1919246692;

pub(crate) const ASK: u64 = 6386539;

pub(crate) const OUTLIST: u64 = 31372865310389108;

pub(crate) const RECOVER: u64 = 32199625091212658;

pub(crate) const DIGEST: u64 = 110403869045620;

pub(crate) const SHOW: u64 = 1936224119;

pub(crate) const LOG: u64 = 7106407;

pub(crate) const HELP: u64 = 1751477360;

// How many numbers follow a keyword that a command has; None of any other. So of `bytes`, since any number may follow it.
pub(crate) fn takes(w: u64) -> Option<usize>
    ensures { result ≡ takes w }
{
    match w {
        DIGEST | SHOW | HELP => Some(0),
        IMAGE | BUFFER | UNROOT | COMMIT | OPEN | CLOSE | OUTLIST | RECOVER | LOG => Some(1),
        WORD | TRACE | LOCAL | READ | ASK | DROP => Some(2),
        FORMAT | NEW | CLR | VAL | ROOT => Some(3),
        HOLD => Some(4),
        SET => Some(5),
        _ => None,
    }
}
