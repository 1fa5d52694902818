// Open, trace and close as code: each act changes the image as the model's definition of it says (model/specs/Acts.antt). The loops of open and
// close are sweeps, each over its own numbers (proofs/Sweeps.antt). A trace visits its partition's objects by a list (specs/Lists.antt), each once;
// that this comes to what the model's passes come to is proved in proofs/Walking.antt. That an act is allowed is judged in crate verdicts.
// P and S are handed in as p and s; `Within` keeps every reference in range.
#![tactic(auto)]

ghost use Rattle.std.specs.Prelude.{ℕ, ◌*◌, ◌<◌, ◌≡◌, ◌≢◌};
ghost use Rattle.model.specs.Image.{count, get, place_of, Sized};
ghost use Rattle.model.specs.Acts.{unmarked, unclean, mark_word, mark_anchors, clear, settle, open_up, inside, outside, trace_one, close_up};
ghost use Rattle.loops.specs.Loop.{each};
ghost use Rattle.image.specs.Within.{Within};
ghost use Rattle.collector.specs.Closed.{closed_of};
ghost use Rattle.collector.specs.Lists.{Listed, Grown, mark_fields};

mod found;

use found::Found;

// What close answers: the traces counted, and how many objects it freed.
#[derive(Clone, Copy)]
pub struct Closed {
    pub count: u32,
    pub freed: usize,
}

// The fields of an object.
const FIELDS: usize = kinds::Field::LIMIT as usize;

// How many objects of the first n places are in use and unmarked. No chain: `filter` and `count` branch at each place, and open takes three times as
// long on random heaps.
#[tactic(auto, using(crate::proofs::Sweeps::counts), unfolding(model::specs::Acts::unmarked))]
fn unmarked(img: &[u32], n: usize) -> usize
    requires { Sized n img.now }
    ensures { result ≡ unmarked n img.now }
{
    let mut c = 0;
    for j in 0..n {
        if image::state_at(img, j) == 1 {
            c += 1;
        }
    }
    c
}

// State, payload and fields of place j become 0, its references released; its count is left to what names it.
#[tactic(auto, using(crate::proofs::Sweeps::sweeps), unfolding(model::specs::Acts::clear))]
pub fn clear(img: &mut [u32], p: usize, s: usize, j: usize)
    requires within { Within p s img.old }
    requires j_bound { j < p * s }
    ensures { (img.new ≡ clear s img.old j) × Within p s img.new }
{
    image::put_state(img, j, 0);
    image::put_payload(img, j, 0);
    for k in 0..FIELDS {
        image::release_field(&mut *img, p, s, j, k);
    }
}

// An unmarked object becomes free, a mark becomes state 1.
#[tactic(auto, using(crate::proofs::Sweeps::sweeps), unfolding(model::specs::Acts::settle))]
fn settle(img: &mut [u32], p: usize, s: usize, j: usize)
    requires within { Within p s img.old }
    requires j_bound { j < p * s }
    ensures { (img.new ≡ settle s img.old j) × Within p s img.new }
{
    match image::state_at(img, j) {
        1 => clear(img, p, s, j),
        2 => image::put_state(img, j, 1),
        _ => {}
    }
}

// Every place is settled.
#[tactic(auto, using(crate::proofs::Sweeps::sweeps))]
fn settle_all(img: &mut [u32], p: usize, s: usize)
    requires { Within p s img.old }
    ensures { (img.new ≡ each (p * s) (settle s) img.old) × Within p s img.new }
{
    for j in 0..p * s {
        settle(&mut *img, p, s, j);
    }
}

// All partitions become not clean.
#[tactic(auto, using(crate::proofs::Sweeps::sweeps), unfolding(model::specs::Acts::unclean))]
fn unclean(img: &mut [u32], p: usize, s: usize)
    requires { Within p s img.old }
    ensures { (img.new ≡ unclean img.old) × Within p s img.new }
{
    for q in 0..kinds::Partition::LIMIT as usize {
        image::put_flag(&mut *img, q, 0);
    }
}

// What roots and handles name becomes marked.
#[tactic(auto, using(crate::proofs::Sweeps::sweeps), unfolding(model::specs::Acts::mark_anchors))]
fn mark_anchors(img: &mut [u32], p: usize, s: usize)
    requires { Within p s img.old }
    ensures { (img.new ≡ mark_anchors s img.old) × Within p s img.new }
{
    for a in 0..image::ANCHORS {
        let w = image::anchor_at(img, a);
        image::mark_word(&mut *img, p, s, w);
    }
}

// The marked objects of partition t are listed.
#[tactic(auto, using(crate::proofs::Sweeps::sweeps))]
fn list_marked(img: &[u32], p: usize, s: usize, t: usize, list: &mut Found)
    requires within { Within p s img.now }
    requires t_lt_p { (t < p) × (list.old.number ≡ 0) }
    ensures { Listed s t img.now list.new }
{
    for k in 0..s {
        let j = t * s + k;
        if image::state_at(img, j) == 2 {
            list.push(j);
        }
    }
}

// What the word w names becomes marked; an object of partition t that was not is put at the list's end.
#[tactic(auto, using(crate::proofs::Listing::notes))]
fn note(img: &mut [u32], p: usize, s: usize, t: usize, w: u32, list: &mut Found)
    requires within { Within p s img.old }
    requires t_lt_p { (t < p) × (w ≢ 0 → place_of s w < p * s) }
    requires listed { Listed s t img.old list.old }
    ensures { (img.new ≡ mark_word s img.old w) × Listed s t img.new list.new × Grown list.old list.new }
{
    if w == 0 {
        return;
    }
    let j = image::place_of(w, s);
    if image::state_at(img, j) != 1 {
        return;
    }
    image::mark_word(&mut *img, p, s, w);
    if image::part_of(w, s) == t {
        list.push(j);
    }
}

// What the fields of the object at j name becomes marked, and listed if it is in partition t.
#[tactic(auto, using(crate::proofs::Sweeps::sweeps), unfolding(crate::specs::Lists::mark_fields))]
fn visit(img: &mut [u32], p: usize, s: usize, t: usize, j: usize, list: &mut Found)
    requires within { Within p s img.old }
    requires t_lt_p { (t < p) × (j < p * s) }
    requires listed { Listed s t img.old list.old }
    ensures { (img.new ≡ mark_fields s img.old j) × Listed s t img.new list.new × Grown list.old list.new }
{
    for k in 0..FIELDS {
        let w = image::field_at(img, j, k);
        note(&mut *img, p, s, t, w, &mut *list);
    }
}

// The marks of a trace, by a list of objects still to visit: an object of partition t is listed once, when it is marked or because it was, and
// its fields are looked at once. Targets in other partitions are marked in the same visit. (The list grows meanwhile, so this is no `for`.)
fn walk(img: &mut [u32], p: usize, s: usize, t: usize)
    requires within { Within p s img.old }
    requires t_lt_p { t < p }
    ensures { (img.new ≡ outside s t (inside s t img.old)) × Within p s img.new }
{
    let mut list = Found::new();
    list_marked(img, p, s, t, &mut list);
    let mut at = 0;
    while let Some(j) = list.get(at) {
        visit(&mut *img, p, s, t, j, &mut list);
        at += 1;
    }
}

// The act open.
#[tactic(auto, using(crate::proofs::Sweeps::sweeps))]
pub fn open(img: &mut [u32], p: usize, s: usize)
    requires { Within p s img.old }
    ensures { img.new ≡ open_up p s img.old }
{
    image::put_head(img, image::PHASE, 1);
    unclean(img, p, s);
    mark_anchors(img, p, s);
    let n = unmarked(img, p * s);
    image::put_head(img, image::COUNT, 0);
    image::put_head(img, image::ALLOWANCE, (p + n) as u32);
}

// The act trace. The caller knows that one more trace can be counted.
#[tactic(auto, using(crate::proofs::Sweeps::sweeps, crate::proofs::Sweeps::finishes, crate::proofs::Walking::marks_head), unfolding(model::specs::Acts::trace_one))]
pub fn trace(img: &mut [u32], p: usize, s: usize, t: kinds::Partition)
    requires within { Within p s img.old }
    requires t_lt_p { (t.0 < p) × (get img.old count < 4294967295) }
    ensures { img.new ≡ trace_one s t.0 img.old }
{
    let q = t.0 as usize;
    walk(img, p, s, q);
    let c = image::head_at(img, image::COUNT);
    image::put_flag(img, q, 1);
    image::put_head(img, image::COUNT, c + 1);
}

// The act close.
#[tactic(auto, using(crate::proofs::Sweeps::sweeps))]
pub fn close(img: &mut [u32], p: usize, s: usize) -> Closed
    requires { Within p s img.old }
    ensures { (img.new ≡ close_up p s img.old) × (result ≡ closed_of p s img.old) }
{
    let count = image::head_at(img, image::COUNT);
    let freed = unmarked(img, p * s);
    settle_all(img, p, s);
    unclean(img, p, s);
    image::put_head(img, image::PHASE, 0);
    image::put_head(img, image::COUNT, 0);
    image::put_head(img, image::ALLOWANCE, 0);
    Closed { count, freed }
}
