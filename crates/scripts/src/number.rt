// Numbers and keywords.
ghost use Rattle.std.specs.Prelude.{◌≡◌};
ghost use Rattle.scripts.specs.Numbers.{number_of, keyword_of, after_end};

use lines::line::{Line, finish};
use lines::machine::{Read, Rows, Scan};
use lines::words::END;

// The most bytes of a word that is read as a number. A line has room for them behind `end` and a tab, and the largest number has ten.
const ROOM: usize = 16;

// The machine of the log's lines after `end`, a tab and a word. Of a word longer than `ROOM` it reads nothing.
fn scanned(word: &[u8]) -> Scan
    ensures { result ≡ after_end word.now }
{
    if word.len() > ROOM {
        return Scan::Dead;
    }
    let mut room = ROOM;
    let mut s = Scan::Start(Read {
        word: END,
        left: 0,
        a: 0,
        b: 0,
        c: 0,
        d: 0,
    });
    for b in word {
        room -= 1;
        s = s.advance(Rows::All, *b).within(room);
    }
    s
}

// The number that a word is: decimal, at most 4,294,967,295, no sign, no leading zero. It is read as the number of the log's line `end` is.
pub(crate) fn number(word: &[u8]) -> Option<u32>
    ensures { result ≡ number_of word.now }
{
    match finish(scanned(word)) {
        Line::End(v) => Some(v),
        _ => None,
    }
}

// The number that a word of at most eight small letters is, its bytes read as digits in base 256.
pub(crate) fn keyword(word: &[u8]) -> Option<u64>
    ensures { result ≡ keyword_of word.now }
{
    let mut k = 0;
    for b in word {
        if !b.is_ascii_lowercase() {
            return None;
        }
        if k >= 72057594037927936 {
            return None;
        }
        k = k * 256 + u64::from(*b);
    }
    Some(k)
}
