// One partition on its own: `local` frees every object of partition t that neither a root or handle, nor a counted foreign reference, nor a chain inside t
// from either of these leads to, and answers how many (the model's `local_up` and `local_freed`). It notes what roots, handles and counts say and lets crate
// todo follow the fields inside t from there; that exactly the places that stay are noted is `all_kept` in proofs/Keeping.antt.
// `outlist` answers the names that t's objects hold of other partitions' objects (the model's `outlist`): it marks their places and lists
// the marked ones in order.
#![tactic(auto)]

ghost use Rattle.std.specs.Prelude.{◌≡◌, ◌+◌, ◌*◌, ◌<◌, length, replicate};
ghost use Rattle.kinds.specs.Names.{most_places};
ghost use Rattle.model.specs.Acts.{local_up, local_freed};
ghost use Rattle.model.specs.Outlist.{out_one, out_bits, name_one, list_names, outlist};
ghost use Rattle.image.specs.Within.{Within};
ghost use Rattle.todo.specs.More.{More};
ghost use Rattle.loops.specs.Loop.{each, tally};
ghost use Rattle.locals.specs.Outlist.{FieldOf, Placed, Gathers};
ghost use Rattle.locals.specs.Slots.{SlotOf, NotesOf, named_one, Kept, lost_at, settle_of};

use kinds::{Name, Outlist, Partition};
use todo::Notes;

// The object in slot k of partition t is noted, if foreign fields name it.
fn note_named(img: &[u32], p: usize, s: usize, t: usize, k: usize, notes: &mut Notes)
    requires slot_of { SlotOf p s img.now t k }
    requires notes_of { NotesOf s t notes.old }
    ensures { (notes.new.marks ≡ named_one s t img.now notes.old.marks k) × More notes.old notes.new }
{
    let j = t * s + k;
    if image::inlist_at(img, j) == 0 {
        return;
    }
    notes.enter(j);
}

// Every object of partition t that foreign fields name is noted.
fn note_counted(img: &[u32], p: usize, s: usize, t: usize, notes: &mut Notes)
    requires within { Within p s img.now }
    requires t_lt_p { t < p }
    requires notes_of { NotesOf s t notes.old }
    ensures { (notes.new.marks ≡ each s (named_one s t img.now) notes.old.marks) × More notes.old notes.new }
{
    for k in 0..s {
        note_named(img, p, s, t, k, &mut *notes);
    }
}

// The places of partition t that stay are noted: what roots, handles and foreign fields name there, then what chains inside t lead to.
fn keep(img: &[u32], p: usize, s: usize, t: usize, notes: &mut Notes)
    requires within { Within p s img.now }
    requires t_lt_p { t < p }
    requires notes_of { NotesOf s t notes.old }
    requires none { notes.old.marks ≡ replicate most_places 0 }
    ensures { Kept p s t img.now notes.new.marks }
{
    notes.note_anchors(img, p, s);
    note_counted(img, p, s, t, &mut *notes);
    notes.spread(img, p, s);
}

// Whether the object in slot k of partition t is in use and not noted.
fn is_lost(img: &[u32], p: usize, s: usize, t: usize, marks: &[u32; Name::LIMIT], k: usize) -> bool
    requires { SlotOf p s img.now t k }
    ensures { result ≡ lost_at s t img.now marks.now k }
{
    let j = t * s + k;
    marks[j] != 1 && image::state_at(img, j) != 0
}

// How many objects of partition t are in use and not noted.
fn lost(img: &[u32], p: usize, s: usize, t: usize, marks: &[u32; Name::LIMIT]) -> usize
    requires within { Within p s img.now }
    requires t_lt_p { t < p }
    ensures { result ≡ tally s (lost_at s t img.now marks.now) }
{
    (0..s).filter(|k| is_lost(img, p, s, t, marks, *k)).count()
}

// A place that is not noted becomes free.
fn settle(img: &mut [u32], p: usize, s: usize, marks: &[u32; Name::LIMIT], j: usize)
    requires within { Within p s img.old }
    requires j_bound { j < p * s }
    ensures { (img.new ≡ settle_of s marks.now img.old j) × Within p s img.new }
{
    if marks[j] == 1 {
        return;
    }
    collector::clear(img, p, s, j);
}

// All places of partition t that are not noted become free.
fn free(img: &mut [u32], p: usize, s: usize, t: usize, marks: &[u32; Name::LIMIT])
    requires within { Within p s img.old }
    requires t_lt_p { t < p }
    ensures { img.new ≡ each s (λ x k. settle_of s marks.now x (t * s + k)) img.old }
{
    for k in 0..s {
        settle(&mut *img, p, s, marks, t * s + k);
    }
}

// The act local: partition t on its own; the number freed.
pub fn local(img: &mut [u32], p: usize, s: usize, t: Partition) -> usize
    requires within { Within p s img.old }
    requires t_lt_p { t.0 < p }
    ensures { (img.new ≡ local_up p s t.0 img.old) × (result ≡ local_freed p s t.0 img.old) }
{
    let q = t.0 as usize;
    let mut notes = Notes::new(q * s, s);
    keep(&*img, p, s, q, &mut notes);
    let freed = lost(&*img, p, s, q, &notes.marks);
    free(img, p, s, q, &notes.marks);
    freed
}

// What field f of partition t's fields names outside t is marked, if it is an object's.
fn mark_out(img: &[u32], p: usize, s: usize, t: usize, f: usize, bits: &mut [u32; Name::LIMIT])
    requires { FieldOf p s img.now t f bits.old }
    ensures { (bits.new ≡ out_one s t img.now bits.old f) × (length bits.new ≡ most_places) }
{
    let j = t * s + f / 4;
    if image::state_at(img, j) == 0 {
        return;
    }
    let w = image::field_at(img, j, f % 4);
    if w == 0 {
        return;
    }
    let i = image::place_of(w, s);
    let q = image::part_of(w, s);
    if q == t {
        return;
    }
    bits[i] = 1;
}

// What the fields of partition t's objects name outside t is marked.
fn mark_outs(img: &[u32], p: usize, s: usize, t: usize, bits: &mut [u32; Name::LIMIT])
    requires within { Within p s img.now }
    requires t_lt_p { (t < p) × (bits.old ≡ replicate most_places 0) }
    ensures { bits.new ≡ out_bits s t img.now }
{
    for f in 0..4 * s {
        mark_out(img, p, s, t, f, &mut *bits);
    }
}

// The name of place i, if it is marked, is put at the list's end.
fn put_name(s: usize, bits: &[u32; Name::LIMIT], i: usize, outlist: &mut Outlist)
    requires { Placed s bits.now i outlist.old }
    ensures { outlist.new ≡ name_one s bits.now outlist.old i }
{
    if bits[i] != 1 {
        return;
    }
    let w = i / s * kinds::Name::RADIX as usize + i % s + 1;
    outlist.names[outlist.number] = w as u32;
    outlist.number += 1;
}

// The names of all marked places, in order.
fn gather(p: usize, s: usize, bits: &[u32; Name::LIMIT]) -> Outlist
    requires { Gathers p s bits.now }
    ensures { result ≡ list_names (p * s) s bits.now }
{
    let mut outlist = kinds::no_names();
    for i in 0..p * s {
        put_name(s, bits, i, &mut outlist);
    }
    outlist
}

// The outlist of partition t.
pub fn outlist(img: &[u32], p: usize, s: usize, t: Partition) -> Outlist
    requires within { Within p s img.now }
    requires t_lt_p { t.0 < p }
    ensures { result ≡ outlist p s t.0 img.now }
{
    let q = t.0 as usize;
    let mut bits = image::zeros();
    mark_outs(img, p, s, q, &mut bits);
    gather(p, s, &bits)
}
