// What a line of the script asks for.
ghost use Rattle.std.specs.Prelude.{◌≡◌};
ghost use Rattle.scripts.specs.Commands.{shorter_of};
ghost use Rattle.scripts.specs.Orders.{keyed, acted, called, order_of};

use crate::command::{Call, Command};
use crate::table::{
    ASK, BUFFER, COMMIT, DIGEST, FORMAT, HELP, IMAGE, LOG, OUTLIST, READ, RECOVER, SHOW, WORD,
};
use kinds::{Name, Operation, Partition, Single, named};
use lines::line::Line;

// What looks at the lent image and log buffer, and changes neither.
#[derive(Clone, Copy)]
pub enum Look {
    Read(Name),
    Ask(Name),
    Outlist(Partition),
    Digest,
    Show,
    Log(usize),
    Help,
}

// What is done on the lent image and log buffer.
#[derive(Clone, Copy)]
pub enum Deed {
    Word(usize, u32),
    Format(u32, u32, usize),
    Commit(usize),
    // An act whose record is a single line, at a place of the log.
    Single(Single, usize),
    Recover(usize),
    Look(Look),
}

// What a line asks for: to lend so many words or bytes, to put the bytes that stand from a place of the line on, to let an operation wait, or
// a deed.
#[derive(Clone, Copy)]
pub enum Order {
    Nothing,
    What,
    Image(usize),
    Buffer(usize),
    Bytes(usize),
    Wait(Operation),
    Deed(Deed),
}

// What a keyword that is none of the log's asks for. The numbers of a call end in e.
#[tactic(auto, unfolding(crate::specs::Orders::keyed, crate::specs::Table::rows))]
fn keyed(k: Call) -> Order
    ensures { result ≡ keyed k }
{
    let w = k.word;
    let to = k.e as usize;
    match w {
        IMAGE => Order::Image(to),
        WORD => Order::Deed(Deed::Word(k.d as usize, k.e)),
        BUFFER => Order::Buffer(to),
        FORMAT => Order::Deed(Deed::Format(k.c, k.d, to)),
        COMMIT => Order::Deed(Deed::Commit(to)),
        READ => Order::Deed(Deed::Look(Look::Read(named(k.d, k.e)))),
        ASK => Order::Deed(Deed::Look(Look::Ask(named(k.d, k.e)))),
        OUTLIST => Order::Deed(Deed::Look(Look::Outlist(Partition(k.e)))),
        RECOVER => Order::Deed(Deed::Recover(to)),
        DIGEST => Order::Deed(Deed::Look(Look::Digest)),
        SHOW => Order::Deed(Deed::Look(Look::Show)),
        LOG => Order::Deed(Deed::Look(Look::Log(to))),
        HELP => Order::Deed(Deed::Look(Look::Help)),
        _ => Order::What,
    }
}

// What a keyword that is no operation asks for: an act whose record is a single line has its place behind that line's words.
fn acted(k: Call) -> Order
    ensures { result ≡ acted k (shorter_of k) }
{
    match k.shorter() {
        Line::Single(a) => Order::Deed(Deed::Single(a, k.e as usize)),
        _ => keyed(k),
    }
}

// What a keyword asks for, with its numbers.
#[tactic(auto, unfolding(crate::specs::Orders::called))]
fn called(k: Call) -> Order
    ensures { result ≡ called k }
{
    match k.line() {
        Line::Operation(o) => Order::Wait(o),
        _ => acted(k),
    }
}

// What a line asks for.
#[tactic(auto, unfolding(crate::specs::Orders::order_of))]
pub fn order_of(c: Command) -> Order
    ensures { result ≡ order_of c }
{
    match c {
        Command::Nothing => Order::Nothing,
        Command::What => Order::What,
        Command::Bytes(from) => Order::Bytes(from),
        Command::Call(k) => called(k),
    }
}
