// The catalogue's thirteen calls for C and Rust: `rt lib` proves this crate and writes out/libheidrunok.a
// (bindings/README.md). A slice is a pointer and a length. Each call returns the paper's number, 0 where it is accepted, and writes what it
// answers through its last pointers: zeros where it is refused, but for the extra answer and recovery's byte. None has a `requires`; each has
// one `ensures`, an equation with the definition that the same call's contract cites in `catalogue` or `recovery`, its answer said in numbers
// (specs/Face.antt). That these numbers lose nothing is proved in proofs/Back.antt, that an operation of no kind is refused with 7 in
// proofs/Unknown.antt, and that no second outcome meets a contract in proofs/Unique.antt.
#![tactic(auto)]

ghost use Rattle.std.specs.Prelude.{◌≡◌, ℕ, length, min};
ghost use Rattle.kinds.specs.Names.{partition, named, session, word_of, Named};
ghost use Rattle.catalogue.specs.Answers.{totals, yield, said, said_closing, said_freeing, said_reading, said_asked, said_listing, chained, chained_from, said_reason};
ghost use Rattle.catalogue.specs.Call.{outcome, format_of, open_of, trace_of, close_of, local_of, hold_of, drop_of, reading_of, asked_of, listing_of, why_of};
ghost use Rattle.holding.specs.Finding.{explained};
ghost use Rattle.journal.specs.Recover.{recover_of};
ghost use Rattle.heidrunok.specs.Face.{told, seen, seen_words, restored, said_recovered, operation_of, commit_by, record_of, outlist_of};

use kinds::{Field, Handle, Operation, Outlist, Partition, Refusal, Slot, Start, named};

// How many words an operation takes: its kind, and up to five numbers.
const WORDS: usize = 6;

// An answer said in numbers: the paper's, the length and the extra answer.
fn tell(a: Result<usize, Refusal>, length: &mut usize, extra: &mut usize) -> u32
    ensures { told result extra.new length.new ≡ said a }
{
    match a {
        Ok(n) => {
            *length = n;
            *extra = 0;
            0
        }
        Err(r) => {
            *length = 0;
            *extra = r.extra;
            r.number
        }
    }
}

#[unsafe(no_mangle)]
pub extern "C" fn heidrunok_format(
    img: &mut [u32],
    p: u32,
    s: u32,
    log: &mut [u8],
    at: usize,
    length: &mut usize,
    extra: &mut usize,
) -> u32
    ensures { outcome (told result extra.new length.new) img.new log.new ≡ seen said (format_of img.old p s log.old at) }
{
    tell(catalogue::format(img, p, s, log, at), length, extra)
}

// The operation of a kind and its numbers, in the order of the log's line. There is no root 16: any other kind, 0 among them, is refused with 7. (C says
// the kind as a number.)
fn operation(w: [u32; WORDS]) -> Operation
    ensures { result ≡ operation_of w }
{
    match w[0] {
        1 => Operation::New(named(w[1], w[2]), w[3]),
        2 => Operation::Set(named(w[1], w[2]), w[3], Some(named(w[4], w[5]))),
        3 => Operation::Set(named(w[1], w[2]), w[3], None),
        4 => Operation::Val(named(w[1], w[2]), w[3]),
        5 => Operation::Root(w[1], Some(named(w[2], w[3]))),
        6 => Operation::Root(w[1], None),
        _ => Operation::Root(kinds::ROOTS, None),
    }
}

// More operations than a commit may have: of more than these, no more are looked at.
const MANY: usize = 33;

// How many of n operations are looked at.
fn looked_at(n: usize) -> usize
    ensures { result ≡ min n 33 }
{
    n.min(MANY)
}

#[unsafe(no_mangle)]
pub extern "C" fn heidrunok_commit(
    img: &mut [u32],
    words: &[[u32; WORDS]],
    log: &mut [u8],
    at: usize,
    length: &mut usize,
    extra: &mut usize,
) -> u32
    ensures { outcome (told result extra.new length.new) img.new log.new ≡ seen said (commit_by img.old words.now log.old at) }
{
    let mut ops = [Operation::Root(kinds::ROOTS, None); MANY];
    let n = looked_at(words.len());
    for (i, w) in words[..n].iter().enumerate() {
        ops[i] = operation(*w);
    }
    tell(catalogue::commit(img, &ops[..n], log, at), length, extra)
}

#[unsafe(no_mangle)]
pub extern "C" fn heidrunok_open(
    img: &mut [u32],
    log: &mut [u8],
    at: usize,
    length: &mut usize,
    extra: &mut usize,
) -> u32
    ensures { outcome (told result extra.new length.new) img.new log.new ≡ seen said (open_of img.old log.old at) }
{
    tell(catalogue::open(img, log, at), length, extra)
}

#[unsafe(no_mangle)]
pub extern "C" fn heidrunok_trace(
    img: &mut [u32],
    t: u32,
    log: &mut [u8],
    at: usize,
    length: &mut usize,
    extra: &mut usize,
) -> u32
    ensures { outcome (told result extra.new length.new) img.new log.new ≡ seen said (trace_of img.old (partition t) log.old at) }
{
    tell(catalogue::trace(img, Partition(t), log, at), length, extra)
}

// Also the traces counted and the number freed.
#[unsafe(no_mangle)]
pub extern "C" fn heidrunok_close(
    img: &mut [u32],
    log: &mut [u8],
    at: usize,
    length: &mut usize,
    count: &mut u32,
    freed: &mut usize,
    extra: &mut usize,
) -> u32
    ensures { outcome (told result extra.new (totals length.new count.new freed.new)) img.new log.new ≡ seen said_closing (close_of img.old log.old at) }
{
    match catalogue::close(img, log, at) {
        Ok(c) => {
            *count = c.count;
            *freed = c.freed;
            tell(Ok(c.length), length, extra)
        }
        Err(r) => {
            *count = 0;
            *freed = 0;
            tell(Err(r), length, extra)
        }
    }
}

// Also the number freed.
#[unsafe(no_mangle)]
pub extern "C" fn heidrunok_local(
    img: &mut [u32],
    t: u32,
    log: &mut [u8],
    at: usize,
    length: &mut usize,
    freed: &mut usize,
    extra: &mut usize,
) -> u32
    ensures { outcome (told result extra.new (yield length.new freed.new)) img.new log.new ≡ seen said_freeing (local_of img.old (partition t) log.old at) }
{
    match catalogue::local(img, Partition(t), log, at) {
        Ok(f) => {
            *freed = f.freed;
            tell(Ok(f.length), length, extra)
        }
        Err(r) => {
            *freed = 0;
            tell(Err(r), length, extra)
        }
    }
}

#[unsafe(no_mangle)]
pub extern "C" fn heidrunok_hold(
    img: &mut [u32],
    h: u32,
    p: u32,
    s: u32,
    log: &mut [u8],
    at: usize,
    length: &mut usize,
    extra: &mut usize,
) -> u32
    ensures { outcome (told result extra.new length.new) img.new log.new ≡ seen said (hold_of img.old (session h) (named p s) log.old at) }
{
    tell(
        catalogue::hold(img, Handle(h), named(p, s), log, at),
        length,
        extra,
    )
}

#[unsafe(no_mangle)]
pub extern "C" fn heidrunok_drop(
    img: &mut [u32],
    h: u32,
    log: &mut [u8],
    at: usize,
    length: &mut usize,
    extra: &mut usize,
) -> u32
    ensures { outcome (told result extra.new length.new) img.new log.new ≡ seen said (drop_of img.old (session h) log.old at) }
{
    tell(catalogue::drop(img, Handle(h), log, at), length, extra)
}

// The extra answer is the line; also the byte within it.
#[unsafe(no_mangle)]
pub extern "C" fn heidrunok_recover(
    img: &mut [u32],
    log: &[u8],
    kept: &mut usize,
    line: &mut usize,
    byte: &mut usize,
) -> u32
    ensures { told result line.new (restored kept.new byte.new img.new) ≡ said_recovered log.now (recover_of log.now (length img.old)) }
{
    match recovery::recover(img, log) {
        Ok(n) => {
            *byte = 0;
            tell(Ok(n), kept, line)
        }
        Err(f) => {
            *byte = f.byte;
            tell(Err(f.refusal), kept, line)
        }
    }
}

// The word of a field, as the image has it.
fn word(f: Field) -> u32
    requires { Named f.target }
    ensures { result ≡ word_of f.target }
{
    let t = f.target;
    kinds::word_of(t)
}

// A field is 0 for nothing, or 128 p + s + 1.
#[unsafe(no_mangle)]
pub extern "C" fn heidrunok_read(
    img: &[u32],
    p: u32,
    s: u32,
    payload: &mut u32,
    fields: &mut [u32; 4],
) -> u32
    ensures { told result 0 (record_of payload.new fields.new) ≡ said_reading (reading_of img.now (named p s)) }
{
    match catalogue::read(img, named(p, s)) {
        Ok(o) => {
            *payload = o.payload;
            *fields = [
                word(o.fields[0]),
                word(o.fields[1]),
                word(o.fields[2]),
                word(o.fields[3]),
            ];
            0
        }
        Err(r) => {
            *payload = 0;
            *fields = [0; 4];
            r.number
        }
    }
}

#[unsafe(no_mangle)]
pub extern "C" fn heidrunok_ask(img: &[u32], p: u32, s: u32, yes: &mut bool) -> u32
    ensures { told result 0 yes.new ≡ said_asked (asked_of img.now (named p s)) }
{
    match catalogue::ask(img, named(p, s)) {
        Ok(led) => {
            *yes = led;
            0
        }
        Err(r) => {
            *yes = false;
            r.number
        }
    }
}

// How many names of other partitions' objects the partition's objects hold, and these names in order; unused ones are 0.
#[unsafe(no_mangle)]
pub extern "C" fn heidrunok_outlist(
    img: &[u32],
    t: u32,
    held: &mut usize,
    names: &mut [u32; Outlist::LIMIT],
) -> u32
    ensures { told result 0 (outlist_of held.new names.new) ≡ said_listing (listing_of img.now (partition t)) }
{
    match catalogue::outlist(img, Partition(t)) {
        Ok(o) => {
            *held = o.number;
            let words = o.names;
            *names = words;
            0
        }
        Err(r) => {
            *held = 0;
            *names = [0; Outlist::LIMIT];
            r.number
        }
    }
}

// Whether a start is a handle, and its number.
fn numbered(x: Start) -> (bool, u32)
    ensures { (k : ℕ) → chained result.0 result.1 k ≡ chained_from x k }
{
    match x {
        Start::Root(r) => (false, r),
        Start::Handle(h) => (true, h.0),
    }
}

// Whether the chain starts from a handle, else from a root; the number of that; and the number of references. The chain is put into the lent
// words; a refusal leaves them as found.
#[unsafe(no_mangle)]
pub extern "C" fn heidrunok_why(
    img: &[u32],
    p: u32,
    s: u32,
    words: &mut [u32],
    handle: &mut bool,
    start: &mut u32,
    references: &mut usize,
) -> u32
    ensures { explained (told result 0 (chained handle.new start.new references.new)) words.new ≡ seen_words said_reason (why_of img.now (named p s) words.old) }
{
    match catalogue::why(img, named(p, s), words) {
        Ok(h) => {
            *references = h.references;
            (*handle, *start) = numbered(h.start);
            0
        }
        Err(r) => {
            *handle = false;
            *start = 0;
            *references = 0;
            r.number
        }
    }
}
