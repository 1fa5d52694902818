// The desk on which a script works: a lent image, a lent log buffer and a waiting transaction; what each line leaves of them, and what it is
// answered. `step` is proved equal to `turn_of` (specs/Desk.antt): the catalogue's calls, recovery and the commands image, word, buffer and
// bytes change the image and the log buffer, each as its definition says, and nothing else does; what is not lent stays as it is.
#![tactic(auto)]

mod deed;
mod lend;

ghost use Rattle.std.specs.Prelude.{◌+◌, ◌≤◌, ◌<◌, ◌^◌, ◌≡◌, length};
ghost use Rattle.catalogue.specs.Call.{outcome};
ghost use Rattle.desk.specs.declared.Response.TheVariants.{Waits};
ghost use Rattle.desk.specs.Desk.{Lent, desk, turn, on_lent, deed_of, put, put_on, is_commit, after_deed, handed, turn_of};

use crate::deed::deed;
use crate::lend::{lend_bytes, lend_words, put_bytes};
use catalogue::{Closed, Freed};
use kinds::{Operation, Refusal};
use recovery::Fault;
use scripts::order::{Deed, Look, Order};

// How many words and bytes are lent, and how many operations wait.
#[derive(Clone, Copy)]
pub struct Desk {
    pub words: usize,
    pub bytes: usize,
    pub waits: usize,
}

// What a line is answered.
#[derive(Clone, Copy)]
pub enum Response {
    // No line is written.
    Nothing,
    What,
    Ok,
    Waits(usize),
    Done(Result<usize, Refusal>),
    Closed(Result<Closed, Refusal>),
    Freed(Result<Freed, Refusal>),
    Recovered(Result<usize, Fault>),
    // What is seen there.
    Look(Look),
}

// The desk after a line, and the answer.
#[derive(Clone, Copy)]
pub struct Turn {
    pub desk: Desk,
    pub said: Response,
}

impl Desk {
    // Nothing is lent, and nothing waits.
    pub fn new() -> Desk
        ensures { result ≡ desk 0 0 0 }
    {
        Desk::lent(0, 0)
    }

    // So many words and bytes are lent, and nothing waits.
    pub fn lent(words: usize, bytes: usize) -> Desk
        ensures { result ≡ desk words bytes 0 }
    {
        Desk {
            words,
            bytes,
            waits: 0,
        }
    }

    // After a commit nothing waits.
    fn after(self, x: Deed) -> Desk
        ensures { result ≡ after_deed x self }
    {
        if is_commit(x) {
            return Desk { waits: 0, ..self };
        }
        self
    }

    // One operation more waits.
    fn waiting(self) -> Turn
        requires { self.waits + 1 < 2 ^ 64 }
        ensures { result ≡ turn (desk self.words self.bytes (self.waits + 1)) (Waits (self.waits + 1)) }
    {
        let waits = self.waits + 1;
        Desk { waits, ..self }.says(Response::Waits(waits))
    }

    // The desk as it is, and an answer.
    pub(crate) fn says(self, said: Response) -> Turn
        ensures { result ≡ turn self said }
    {
        Turn { desk: self, said }
    }
}

fn is_commit(x: Deed) -> bool
    ensures { result ≡ is_commit x }
{
    matches!(x, Deed::Commit(_))
}

// The operations that are handed over: the first, as many as wait. Where more wait than there are, none: a commit is refused for no operation as for too many.
fn handed(ops: &[Operation], waits: usize) -> &[Operation]
    ensures { result.now ≡ handed waits ops.now }
{
    if ops.len() < waits {
        return &ops[..0];
    }
    &ops[..waits]
}

// A deed on what is lent, with the operations that are handed over.
fn deed_on(x: Deed, d: Desk, ops: &[Operation], img: &mut [u32], log: &mut [u8]) -> Response
    requires { Lent d img.old log.old }
    ensures { outcome result img.new log.new ≡ on_lent d (deed_of x (handed d.waits ops.now)) img.old log.old }
{
    let m = d.words;
    let n = d.bytes;
    deed(x, handed(ops, d.waits), &mut img[..m], &mut log[..n])
}

// `bytes` on what is lent.
fn bytes_on(line: &[u8], from: usize, n: usize, log: &mut [u8]) -> Response
    requires { n ≤ length log.old }
    ensures { put result log.new ≡ put_on n line.now from log.old }
{
    put_bytes(line, from, &mut log[..n])
}

// One line of the script: what it asks for, and its bytes. Of the operations the first are those that wait.
pub fn step(
    o: Order,
    line: &[u8],
    d: Desk,
    ops: &[Operation],
    img: &mut [u32],
    log: &mut [u8],
) -> Turn
    requires lent { Lent d img.old log.old }
    requires waits_bound { d.waits + 1 < 2 ^ 64 }
    ensures { outcome result img.new log.new ≡ turn_of o line.now d ops.now img.old log.old }
{
    match o {
        Order::Nothing => d.says(Response::Nothing),
        Order::What => d.says(Response::What),
        Order::Image(n) => lend_words(n, d, img),
        Order::Buffer(n) => lend_bytes(n, d, log),
        Order::Bytes(from) => d.says(bytes_on(line, from, d.bytes, log)),
        Order::Wait(_) => d.waiting(),
        Order::Deed(x) => d.after(x).says(deed_on(x, d, ops, img, log)),
    }
}
