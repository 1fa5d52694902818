// The kinds of things that the catalogue speaks of, with their limits: partitions, slots, names of objects, session handles, starts of chains, targets of
// references, fields, records, outlists, operations, single-line acts, refusals, reasons, what an edition of the log decides; and names as words. That a word and its target
// invert each other and that words are in the order of names is proved once, for any multiplier above the largest slot number, in proofs/Names.antt.
#![tactic(auto)]

ghost use Rattle.std.specs.Prelude.{◌≡◌};
ghost use Rattle.kinds.specs.Names.{named, word_of, target_of, Named};
ghost use Rattle.kinds.specs.Answers.{blank_record, no_names, refuse};
ghost use Rattle.kinds.specs.Editions.{decides, terms};

// A partition's number.
#[derive(Clone, Copy)]
pub struct Partition(pub u32);

impl Partition {
    pub const LIMIT: u32 = 16;
}

// A slot's number within its partition.
#[derive(Clone, Copy)]
pub struct Slot(pub u32);

impl Slot {
    pub const LIMIT: u32 = 128;
}

// The name of an object: one partition and one slot.
#[derive(Clone, Copy)]
pub struct Name {
    pub partition: Partition,
    pub slot: Slot,
}

impl Name {
    // How many objects there can be.
    pub const LIMIT: usize = (Partition::LIMIT * Slot::LIMIT) as usize;

    // The multiplier of a reference word: nothing is 0, the object in slot s of partition p is RADIX * p + s + 1.
    pub const RADIX: u32 = Slot::LIMIT;
}

// Slot s of partition p.
pub fn named(p: u32, s: u32) -> Name
    ensures { result ≡ named p s }
{
    Name {
        partition: Partition(p),
        slot: Slot(s),
    }
}

// A session handle's number.
#[derive(Clone, Copy)]
pub struct Handle(pub u32);

impl Handle {
    pub const LIMIT: u32 = 32;
}

// What a chain of references starts from: a root or a session handle, by its number.
#[derive(Clone, Copy)]
pub enum Start {
    Root(u32),
    Handle(Handle),
}

// What a field, a root or a handle holds: nothing, or an object.
pub type Target = Option<Name>;

// How many roots there are.
pub const ROOTS: u32 = 16;

// One field of an object.
#[derive(Clone, Copy)]
pub struct Field {
    pub target: Target,
}

impl Field {
    // How many fields an object has.
    pub const LIMIT: u32 = 4;
}

// An object as it is read: its payload beside its four fields.
#[derive(Clone, Copy)]
pub struct Record {
    pub payload: u32,
    pub fields: [Field; 4],
}

// A partition's outlist: how many names of other partitions' objects its objects hold, and these names as reference words in order,
// unused ones 0.
#[derive(Clone, Copy)]
pub struct Outlist {
    pub number: usize,
    pub names: [u32; Outlist::LIMIT],
}

impl Outlist {
    // The most names: four fields of each slot.
    pub const LIMIT: usize = (Field::LIMIT * Slot::LIMIT) as usize;
}

// What an edition of the log decides.
#[derive(Clone, Copy)]
pub struct Terms {
    // The most slots of a partition.
    pub slots: u32,
    // The most bytes of a line's body, and of a tail.
    pub bytes: usize,
}

// A partition has at most so many slots, a line's body and a tail so many bytes.
fn decides(slots: u32, bytes: usize) -> Terms
    ensures { result ≡ decides slots bytes }
{
    Terms { slots, bytes }
}

impl Terms {
    // The edition of the logs that are written.
    pub const NEWEST: u32 = 4;

    // A row for each edition, as in specs/Editions.antt. A number that is none has no slots.
    pub fn of(edition: u32) -> Terms
        ensures { result ≡ terms edition }
    {
        match edition {
            1 => decides(64, 20),
            2 => decides(64, 20),
            3 => decides(64, 20),
            4 => decides(128, 21),
            _ => decides(0, 20),
        }
    }
}

// An operation of a commit. A clr is a set to nothing, and an unroot a root to nothing.
#[derive(Clone, Copy)]
pub enum Operation {
    New(Name, u32),
    Set(Name, u32, Target),
    Val(Name, u32),
    Root(u32, Target),
}

impl Operation {
    // The most operations of one commit.
    pub const LIMIT: usize = 32;
}

// An act whose record is a single line.
#[derive(Clone, Copy)]
pub enum Single {
    Open,
    Trace(Partition),
    Close,
    Local(Partition),
    Hold(Handle, Name),
    Drop(Handle),
}

// Why a call is refused: the paper's number, and its extra answer. The number is no enum: exports and reports hand it out as it is, theorems say of it
// between which numbers it lies (model/proofs/Numbers.antt), and `refuse` takes any.
#[derive(Clone, Copy)]
pub struct Refusal {
    pub number: u32,
    pub extra: usize,
}

impl Refusal {
    pub const UNSOUND: u32 = 1;

    pub const SIZE: u32 = 2;

    pub const HEADING: u32 = 3;

    pub const SHAPE: u32 = 4;

    pub const ORDER: u32 = 5;

    pub const COUNT: u32 = 6;

    pub const RANGE: u32 = 7;

    pub const TAKEN: u32 = 8;

    pub const ABSENT: u32 = 9;

    pub const SHUT: u32 = 10;

    pub const OPENED: u32 = 11;

    pub const ROOTLESS: u32 = 12;

    pub const CLEAN: u32 = 13;

    pub const UNCLEAN: u32 = 14;

    pub const SPENT: u32 = 15;

    pub const UNMARKED: u32 = 16;

    pub const ROOM: u32 = 17;

    pub const UNHELD: u32 = 18;

    pub const NARROW: u32 = 19;
}

// What a judge says of an act: accepted, or why it is refused.
pub type Verdict = Result<(), Refusal>;

// Refused, with a number and an extra answer.
pub fn refuse(number: u32, extra: usize) -> Verdict
    ensures { result ≡ refuse number extra }
{
    Err(Refusal { number, extra })
}

// Why an object is still here: what the chain that holds it starts from, and the number of its references.
#[derive(Clone, Copy)]
pub struct Held {
    pub start: Start,
    pub references: usize,
}

// Held so, or the refusal.
pub type Reason = Result<Held, Refusal>;

// The word of a target.
pub fn word_of(t: Target) -> u32
    requires { Named t }
    ensures { result ≡ word_of t }
{
    match t {
        None => 0,
        Some(n) => n.partition.0 * Name::RADIX + n.slot.0 + 1,
    }
}

// The target that a word is.
pub fn target_of(w: u32) -> Target
    ensures { result ≡ target_of w }
{
    if w == 0 {
        return None;
    }
    let k = w - 1;
    Some(Name {
        partition: Partition(k / Name::RADIX),
        slot: Slot(k % Name::RADIX),
    })
}

// The record of a refusal: payload 0 and four nothings.
pub fn blank() -> Record
    ensures { result ≡ blank_record }
{
    let f = Field { target: None };
    Record {
        payload: 0,
        fields: [f, f, f, f],
    }
}

// The outlist of a refusal: number 0, and zeros.
pub fn no_names() -> Outlist
    ensures { result ≡ no_names }
{
    Outlist {
        number: 0,
        names: [0u32; Outlist::LIMIT],
    }
}
