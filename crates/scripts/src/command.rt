// The command that a line of the script is.
ghost use Rattle.std.specs.Prelude.{◌≡◌, ◌≤◌};
ghost use Rattle.scripts.specs.Commands.{pushed, complete, most_numbers, begun, next_number, numbers_from, command_of, line_of, shorter_of};

use crate::number::{keyword, number};
use crate::run::{Span, word_at};
use crate::table::{BYTES, takes};
use lines::line::{Line, finish};
use lines::machine::{Read, Scan};

// A keyword, how many numbers follow it, and the last five of them: e is the last. (Fields and no array, as `lines::machine::Read`.)
#[derive(Clone, Copy)]
pub struct Call {
    pub word: u64,
    pub count: usize,
    pub a: u32,
    pub b: u32,
    pub c: u32,
    pub d: u32,
    pub e: u32,
}

// What a line is.
#[derive(Clone, Copy)]
pub enum Command {
    // No word, or a remark.
    Nothing,
    // `bytes`, and the place after that word.
    Bytes(usize),
    // Any other command, with as many numbers as it takes.
    Call(Call),
    What,
}

// What a next word is. (No Result of an Option: each of the three has an arm where it is asked for, and nobody hands `Bad` on.)
#[derive(Clone, Copy)]
pub enum Next {
    // A number, and the place after it.
    Number(u32, usize),
    Nothing,
    Bad,
}

impl Call {
    // The most numbers that a command has.
    pub const LIMIT: usize = 5;

    // A keyword with no number yet.
    fn new(word: u64) -> Call
        ensures { result ≡ begun word }
    {
        Call {
            word,
            count: 0,
            a: 0,
            b: 0,
            c: 0,
            d: 0,
            e: 0,
        }
    }

    // One number more.
    fn with(self, v: u32) -> Call
        requires { self.count ≤ most_numbers }
        ensures { result ≡ pushed self v }
    {
        Call {
            word: self.word,
            count: self.count + 1,
            a: self.b,
            b: self.c,
            c: self.d,
            d: self.e,
            e: v,
        }
    }

    // A command, where the keyword takes as many numbers as there are.
    #[tactic(auto, unfolding(crate::specs::Commands::complete))]
    fn complete(self) -> Command
        ensures { result ≡ complete self }
    {
        match takes(self.word) {
            Some(n) if n == self.count => Command::Call(self),
            _ => Command::What,
        }
    }

    // The log's line of the same words.
    #[tactic(auto, unfolding(crate::specs::Commands::line_of))]
    pub(crate) fn line(self) -> Line
        ensures { result ≡ line_of self }
    {
        let r = Read {
            word: self.word,
            left: 0,
            a: self.a,
            b: self.b,
            c: self.c,
            d: self.d,
        };
        finish(Scan::Number(r, self.e))
    }

    // The log's line of the same words less the last number.
    #[tactic(auto, unfolding(crate::specs::Commands::shorter_of))]
    pub(crate) fn shorter(self) -> Line
        ensures { result ≡ shorter_of self }
    {
        if self.count == 1 {
            return finish(Scan::Word(self.word));
        }
        let r = Read {
            word: self.word,
            left: 0,
            a: 0,
            b: self.a,
            c: self.b,
            d: self.c,
        };
        finish(Scan::Number(r, self.d))
    }
}

// The next word of a line as a number.
#[tactic(auto, unfolding(crate::specs::Commands::next_number))]
pub fn next_number(line: &[u8], at: usize) -> Next
    ensures { result ≡ next_number line.now at }
{
    let Some(Span { from, to }) = word_at(line, at) else {
        return Next::Nothing;
    };
    match number(&line[from..to]) {
        Some(v) => Next::Number(v, to),
        None => Next::Bad,
    }
}

// The command whose numbers stand from a place of the line on. (No `for`: where a word stands is known once the one before it is read.)
fn numbers(line: &[u8], at: usize, word: u64) -> Command
    ensures { result ≡ numbers_from most_numbers line.now at (begun word) }
{
    let mut k = Call::new(word);
    let mut i = at;
    loop {
        match next_number(line, i) {
            Next::Nothing => return k.complete(),
            Next::Bad => return Command::What,
            Next::Number(v, to) => {
                if k.count == Call::LIMIT {
                    return Command::What;
                }
                k = k.with(v);
                i = to;
            }
        }
    }
}

// The command that a line is; its bytes are given without the line end.
#[tactic(auto, unfolding(crate::specs::Commands::command_of))]
pub fn parse(line: &[u8]) -> Command
    ensures { result ≡ command_of line.now }
{
    let Some(Span { from, to }) = word_at(line, 0) else {
        return Command::Nothing;
    };
    if line[from] == b'#' {
        return Command::Nothing;
    }
    match keyword(&line[from..to]) {
        None => Command::What,
        Some(BYTES) => Command::Bytes(to),
        Some(k) => numbers(line, to, k),
    }
}
