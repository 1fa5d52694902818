// The lent image for a person. It shows any words: of an image that is not sound it says so, and shows the words that are not 0. A sound one,
// of p partitions and s slots, is read by its keys, each in range (`Within`).
#![tactic(auto, using(crate::proofs::Showing::has_shown, crate::proofs::Showing::places_shown))]

ghost use Rattle.std.specs.Prelude.{◌*◌, ◌<◌};
ghost use Rattle.image.specs.Within.{Within};

use crate::answer::Held;
use image::{ANCHORS, anchor_at, field_at, flag_at, head_at, inlist_at, payload_at, state_at};
use kinds::{Partition, target_of};
use std::io;
use std::io::Write;

const ROOTS: usize = kinds::ROOTS as usize;

const FLAGS: usize = Partition::LIMIT as usize;

fn raw<W: Write>(out: &mut W, words: &[u32]) -> io::Result<()> {
    out.write_all(b"not sound\n")?;
    for (i, w) in words.iter().enumerate() {
        if *w != 0 {
            writeln!(out, "word {i} {w}")?;
        }
    }
    Ok(())
}

// A sound image.
#[derive(Clone, Copy)]
struct Sound<'a> {
    img: &'a [u32],
    // So many partitions of so many slots.
    p: usize,
    s: usize,

    ghost within: { ∥ Within p s img.now ∥₁ },
}

fn mark(state: u32) -> &'static str {
    if state == 2 { "marked" } else { "unmarked" }
}

// A root, or a session handle, by its number, and what it holds.
fn anchor<W: Write>(out: &mut W, a: usize, w: u32) -> io::Result<()> {
    let held = Held(target_of(w));
    if a < ROOTS {
        writeln!(out, "root {a} {held}")
    } else {
        writeln!(out, "handle {} {held}", a - ROOTS)
    }
}

impl Sound<'_> {
    fn phase<W: Write>(&self, out: &mut W) -> io::Result<()> {
        if head_at(self.img, image::PHASE) == 0 {
            return writeln!(out, "phase shut");
        }
        let traces = head_at(self.img, image::COUNT);
        let allowance = head_at(self.img, image::ALLOWANCE);
        writeln!(out, "phase open traces {traces} allowance {allowance}")
    }

    // The roots in use, then the handles.
    fn anchors<W: Write>(&self, out: &mut W) -> io::Result<()> {
        for a in 0..ANCHORS {
            let w = anchor_at(self.img, a);
            if w != 0 {
                anchor(out, a, w)?;
            }
        }
        Ok(())
    }

    fn flags<W: Write>(&self, out: &mut W) -> io::Result<()> {
        for q in 0..FLAGS {
            if flag_at(self.img, q) != 0 {
                writeln!(out, "clean {q}")?;
            }
        }
        Ok(())
    }

    // What field k of the object at place j names.
    fn field(&self, j: usize, k: usize) -> Held
        requires { (j < self.now.p * self.now.s) × (k < 4) }
    {
        Held(target_of(field_at(self.img, j, k)))
    }

    // The object at place j, slot j % s of partition j / s; a free slot has none.
    fn object<W: Write>(&self, out: &mut W, j: usize) -> io::Result<()>
        requires { j < self.now.p * self.now.s }
    {
        let state = state_at(self.img, j);
        let payload = payload_at(self.img, j);
        let count = inlist_at(self.img, j);
        if state == 0 {
            return Ok(());
        }
        // (One `writeln!` for the line: each takes as long as some twenty bytes.)
        let s = self.s;
        writeln!(
            out,
            "object {}.{} payload {payload} {} fields {} {} {} {} counted {count}",
            j / s,
            j % s,
            mark(state),
            self.field(j, 0),
            self.field(j, 1),
            self.field(j, 2),
            self.field(j, 3)
        )
    }

    // Every object, in partition then slot order.
    fn objects<W: Write>(&self, out: &mut W) -> io::Result<()> {
        for j in 0..self.p * self.s {
            self.object(out, j)?;
        }
        Ok(())
    }

    fn whole<W: Write>(&self, out: &mut W) -> io::Result<()> {
        writeln!(out, "partitions {} slots {}", self.p, self.s)?;
        self.phase(out)?;
        self.anchors(out)?;
        self.flags(out)?;
        self.objects(out)
    }
}

// (A function and no Display: an image is a slice of words.)
pub(crate) fn show<W: Write>(out: &mut W, img: &[u32]) -> io::Result<()> {
    if !soundness::sound(img) {
        return raw(out, img);
    }
    let p = head_at(img, image::PARTITIONS) as usize;
    let s = head_at(img, image::SLOTS) as usize;
    Sound { img, p, s }.whole(out)
}
