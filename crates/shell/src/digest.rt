// The digest of the lent words and bytes: h becomes 31 h + x + 1 modulo 4,294,967,291 at each x, from 7.
ghost use Rattle.std.specs.Prelude.{◌<◌};

use std::io;
use std::io::Write;

const MODULUS: u64 = 4294967291;

// The digest of what came so far.
#[derive(Clone, Copy)]
struct Sum {
    h: u64,

    ghost small: { h < 4294967291 },
}

impl Sum {
    // One word or byte more.
    fn with(self, x: u32) -> Sum {
        Sum {
            h: (31 * self.h + u64::from(x) + 1) % MODULUS,
        }
    }
}

fn total<T: Copy + Into<u32>>(items: &[T]) -> u64 {
    items
        .iter()
        .fold(Sum { h: 7 }, |s, x| s.with((*x).into()))
        .h
}

pub(crate) fn digest<W: Write>(out: &mut W, words: &[u32], bytes: &[u8]) -> io::Result<()> {
    writeln!(out, "digest {} {}", total(words), total(bytes))
}
