// The report's lines, put one after the other into the lent bytes; each function answers the place after what it put.
ghost use Rattle.std.specs.Prelude.{[], ◌∷◌, ◌+◌, ◌*◌, ◌<◌, ◌≤◌, length};
ghost use Rattle.lines.specs.Print.{Put};
ghost use Rattle.kinds.specs.Names.{most_partitions, most_slots};
ghost use Rattle.model.specs.Image.{state, payload, Has, Sized};
ghost use Rattle.reporting.specs.Report.{room, object_bytes, toolong_word, object_word, spaced, ending, row, object_at, objects, refused_text, kept_text};

use writer::decimal::put_number;

// The bytes of a word.
fn put_text(out: &mut [u8], at: usize, word: &[u8]) -> usize
    requires { at + length word.now ≤ length out.old }
    ensures { Put out.old out.new at word.now result }
{
    let next = at + word.len();
    out[at..next].copy_from_slice(word);
    next
}

// One space and a number.
fn put_spaced(out: &mut [u8], at: usize, n: u32) -> usize
    requires { at + length (spaced n) ≤ length out.old }
    ensures { Put out.old out.new at (spaced n) result }
{
    out[at] = b' ';
    put_number(out, at + 1, n)
}

// A line's last number and the line end.
fn put_last(out: &mut [u8], at: usize, n: u32) -> usize
    requires { at + length (ending (n ∷ [])) ≤ length out.old }
    ensures { Put out.old out.new at (ending (n ∷ [])) result }
{
    let next = put_spaced(out, at, n);
    out[next] = b'\n';
    next + 1
}

// A line of one number.
fn put_row(out: &mut [u8], at: usize, word: &[u8], n: u32) -> usize
    requires { at + length (row word.now (n ∷ [])) ≤ length out.old }
    ensures { Put out.old out.new at (row word.now (n ∷ [])) result }
{
    let next = put_text(&mut *out, at, word);
    put_last(&mut *out, next, n)
}

// The line of an object.
fn put_object(out: &mut [u8], at: usize, p: u32, s: u32, v: u32) -> usize
    requires { at + length (row object_word (p ∷ s ∷ v ∷ [])) ≤ length out.old }
    ensures { Put out.old out.new at (row object_word (p ∷ s ∷ v ∷ [])) result }
{
    let a = put_text(&mut *out, at, b"object");
    let b = put_spaced(&mut *out, a, p);
    let c = put_spaced(&mut *out, b, s);
    put_last(&mut *out, c, v)
}

// What is said of place j: the line of its object, or nothing where the slot is free.
fn put_place(out: &mut [u8], at: usize, img: &[u32], s: usize, j: usize) -> usize
    requires { (s ≤ most_slots) × (j < most_partitions * s) × Has img.now (state j) × Has img.now (payload j) × (at + object_bytes ≤ length out.old) }
    ensures { Put out.old out.new at (object_at s img.now j) result }
{
    if image::state_at(img, j) == 0 {
        return at;
    }
    let v = image::payload_at(img, j);
    put_object(out, at, (j / s) as u32, (j % s) as u32, v)
}

// The objects of the first n places.
fn put_objects(out: &mut [u8], at: usize, img: &[u32], s: usize, n: usize) -> usize
    requires { (s ≤ most_slots) × (n ≤ most_partitions * s) × Sized n img.now × (at + object_bytes * n ≤ length out.old) }
    ensures { Put out.old out.new at (objects s img.now n) result }
{
    let mut next = at;
    for j in 0..n {
        next = put_place(&mut *out, next, img, s, j);
    }
    next
}

// The report of a log that is too long.
pub(crate) fn put_toolong(out: &mut [u8]) -> usize
    requires { room ≤ length out.old }
    ensures { Put out.old out.new 0 (row toolong_word []) result }
{
    put_text(out, 0, b"toolong\n")
}

// The report of a refusal: its number, its line and the byte within it.
pub(crate) fn put_refused(out: &mut [u8], n: u32, l: u32, b: u32) -> usize
    requires { room ≤ length out.old }
    ensures { Put out.old out.new 0 (refused_text n l b) result }
{
    let a = put_row(&mut *out, 0, b"answer", n);
    let c = put_row(&mut *out, a, b"line", l);
    put_row(&mut *out, c, b"byte", b)
}

// The report of an accepted log: k is the kept length, in an image of p partitions of s slots.
pub(crate) fn put_kept(out: &mut [u8], img: &[u32], p: usize, s: usize, k: u32) -> usize
    requires { (p ≤ most_partitions) × (s ≤ most_slots) × Sized (p * s) img.now × (room ≤ length out.old) }
    ensures { Put out.old out.new 0 (kept_text p s k img.now) result }
{
    let a = put_row(&mut *out, 0, b"answer", 0);
    let b = put_row(&mut *out, a, b"kept", k);
    let phase = image::head_at(img, image::PHASE);
    let c = put_row(&mut *out, b, b"phase", phase);
    put_objects(&mut *out, c, img, s, p * s)
}
