// The image as code: its words by their keys, places, marks, the two ways in which a reference changes and what they do to counts, and format,
// over lent words. Nothing above knows where a word stands. What the model defines is proved equal to the definition of its name. No function
// asks for a sound image; what keeps every reference in range and every count right is `Within` (specs/Within.antt), which follows from
// soundness and is kept by every move (proofs/Within.antt).
#![tactic(auto)]

ghost use Rattle.std.specs.Prelude.{◌≡◌, ◌≢◌, ◌+◌, ◌*◌, ◌^◌, ◌<◌, ◌≤◌, length, replicate, leb};
ghost use Rattle.kinds.specs.Names.{most_slots, most_places, roots};
ghost use Rattle.model.specs.Image.{head, anchor, flag, state, payload, inlist, field, front, addr, Has, get, put, length_of, size, blank, place, place_of, part_of, lose, gain, refer, release};
ghost use Rattle.model.specs.Judge.{in_limits, judge_format};
ghost use Rattle.model.specs.Acts.{mark_word};
ghost use Rattle.model.specs.Sound.{Limits};
ghost use Rattle.image.specs.Within.{Within, count_at, Changes, Changed, Loses, Gains};

// The words before the slots, and the words of a slot.
const FRONT: usize = 69;

const STRIDE: usize = 7;

// The count of a slot is its last word.
const INLIST: usize = 6;

// The words of the largest image.
pub const WORDS: usize = FRONT + STRIDE * kinds::Name::LIMIT;

// What holds a reference and is no field: the roots, then the session handles.
const ROOTS: usize = kinds::ROOTS as usize;

pub const ANCHORS: usize = ROOTS + kinds::Handle::LIMIT as usize;

// Where the roots, the flags and the handles begin.
const ROOT: usize = 5;

const FLAG: usize = 21;

const HANDLE: usize = 37;

// The words of the head.
pub const PARTITIONS: usize = 0;

pub const SLOTS: usize = 1;

pub const PHASE: usize = 2;

pub const COUNT: usize = 3;

pub const ALLOWANCE: usize = 4;

// A word as a place.
pub fn wide(x: u32) -> usize
    ensures { result ≡ x }
{
    x as usize
}

// A word of the head.
#[tactic(auto, unfolding(model::specs::Image::addr, model::specs::Image::Has, model::specs::Image::get))]
pub fn head_at(img: &[u32], h: usize) -> u32
    requires { Has img.now (head h) }
    ensures { result ≡ get img.now (head h) }
{
    img[h]
}

// A handle's number among the anchors.
pub fn handle(h: kinds::Handle) -> usize
    ensures { result ≡ roots + h.0 }
{
    ROOTS + h.0 as usize
}

// Where an anchor stands: the roots before the flags, the handles behind them.
fn anchor_place(a: usize) -> usize
    requires { a < 2 ^ 62 }
    ensures { result ≡ addr (anchor a) }
{
    if a < ROOTS {
        return ROOT + a;
    }
    HANDLE + (a - ROOTS)
}

// An anchor.
pub fn anchor_at(img: &[u32], a: usize) -> u32
    requires { Has img.now (anchor a) }
    ensures { result ≡ get img.now (anchor a) }
{
    let at = anchor_place(a);
    img[at]
}

// A partition's flag.
#[tactic(auto, unfolding(model::specs::Image::addr, model::specs::Image::Has, model::specs::Image::get))]
pub fn flag_at(img: &[u32], p: usize) -> u32
    requires { Has img.now (flag p) }
    ensures { result ≡ get img.now (flag p) }
{
    img[FLAG + p]
}

// The state of place j.
#[tactic(auto, unfolding(model::specs::Image::addr, model::specs::Image::Has, model::specs::Image::get))]
pub fn state_at(img: &[u32], j: usize) -> u32
    requires { Has img.now (state j) }
    ensures { result ≡ get img.now (state j) }
{
    img[FRONT + STRIDE * j]
}

// Its payload.
#[tactic(auto, unfolding(model::specs::Image::addr, model::specs::Image::Has, model::specs::Image::get))]
pub fn payload_at(img: &[u32], j: usize) -> u32
    requires { Has img.now (payload j) }
    ensures { result ≡ get img.now (payload j) }
{
    img[FRONT + STRIDE * j + 1]
}

// Its field k.
#[tactic(auto, unfolding(model::specs::Image::addr, model::specs::Image::Has, model::specs::Image::get))]
pub fn field_at(img: &[u32], j: usize, k: usize) -> u32
    requires { Has img.now (field j k) }
    ensures { result ≡ get img.now (field j k) }
{
    img[FRONT + STRIDE * j + 2 + k]
}

// Its count of foreign references.
#[tactic(auto, unfolding(model::specs::Image::addr, model::specs::Image::Has, model::specs::Image::get))]
pub fn inlist_at(img: &[u32], j: usize) -> u32
    requires { Has img.now (inlist j) }
    ensures { result ≡ get img.now (inlist j) }
{
    img[FRONT + STRIDE * j + INLIST]
}

// A word of the head is written.
#[tactic(auto, unfolding(model::specs::Image::addr, model::specs::Image::Has, model::specs::Image::put))]
pub fn put_head(img: &mut [u32], h: usize, v: u32)
    requires { Has img.old (head h) }
    ensures { img.new ≡ put img.old (head h) v }
{
    img[h] = v;
}

// A partition's flag.
#[tactic(auto, unfolding(model::specs::Image::addr, model::specs::Image::Has, model::specs::Image::put))]
pub fn put_flag(img: &mut [u32], p: usize, v: u32)
    requires { Has img.old (flag p) }
    ensures { img.new ≡ put img.old (flag p) v }
{
    img[FLAG + p] = v;
}

// The state of place j.
#[tactic(auto, unfolding(model::specs::Image::addr, model::specs::Image::Has, model::specs::Image::put))]
pub fn put_state(img: &mut [u32], j: usize, v: u32)
    requires { Has img.old (state j) }
    ensures { img.new ≡ put img.old (state j) v }
{
    img[FRONT + STRIDE * j] = v;
}

// Its payload.
#[tactic(auto, unfolding(model::specs::Image::addr, model::specs::Image::Has, model::specs::Image::put))]
pub fn put_payload(img: &mut [u32], j: usize, v: u32)
    requires { Has img.old (payload j) }
    ensures { img.new ≡ put img.old (payload j) v }
{
    img[FRONT + STRIDE * j + 1] = v;
}

// Its field k: only where a reference changes, with the counts.
#[tactic(auto, unfolding(model::specs::Image::addr, model::specs::Image::Has, model::specs::Image::put))]
fn put_field(img: &mut [u32], j: usize, k: usize, v: u32)
    requires { Has img.old (field j k) }
    ensures { img.new ≡ put img.old (field j k) v }
{
    img[FRONT + STRIDE * j + 2 + k] = v;
}

// Whether the words before the slots are all there.
#[tactic(auto, unfolding(model::specs::Image::length_of))]
pub fn has_front(img: &[u32]) -> bool
    ensures { result ≡ leb front (length_of img.now) }
{
    FRONT <= img.len()
}

// The place of a name that is known to have one, whatever its numbers are.
pub fn place(n: kinds::Name, s: usize) -> usize
    requires { place s n < 2 ^ 62 }
    ensures { result ≡ place s n }
{
    n.partition.0 as usize * s + n.slot.0 as usize
}

// The place that a reference word names.
pub fn place_of(w: u32, s: usize) -> usize
    requires { s ≤ most_slots }
    ensures { result ≡ place_of s w }
{
    if w == 0 {
        return 0;
    }
    let k = w - 1;
    let p = k / kinds::Name::RADIX;
    let t = k % kinds::Name::RADIX;
    p as usize * s + t as usize
}

// The partition of the place that a reference word names: the word's own, if its slot is below s. In an image that is only `Within` a slot may
// be s or more, and the place then in a later partition, which a division finds; a sound image has no such word.
pub fn part_of(w: u32, s: usize) -> usize
    requires { (0 < s) × (s ≤ most_slots) }
    ensures { result ≡ part_of s (place_of s w) }
{
    if w == 0 {
        return 0;
    }
    let k = w - 1;
    let t = (k % kinds::Name::RADIX) as usize;
    if t < s {
        return (k / kinds::Name::RADIX) as usize;
    }
    let j = place_of(w, s);
    j / s
}

// What a reference word names becomes marked, if it is unmarked, and its partition not clean.
pub fn mark_word(img: &mut [u32], p: usize, s: usize, w: u32)
    requires within { Within p s img.old }
    requires w_bound { w ≢ 0 → place_of s w < p * s }
    ensures { img.new ≡ mark_word s img.old w }
{
    if w == 0 {
        return;
    }
    let j = place_of(w, s);
    if state_at(&*img, j) != 1 {
        return;
    }
    let q = part_of(w, s);
    put_flag(&mut *img, q, 0);
    put_state(img, j, 2);
}

// An anchor takes a reference.
pub fn refer_anchor(img: &mut [u32], s: usize, a: usize, w: u32)
    requires { Has img.old (anchor a) }
    ensures { img.new ≡ refer s img.old (anchor a) w }
{
    let at = anchor_place(a);
    img[at] = w;
}

// Where the count stands of what a word in a field of the object at j names, if that is in another partition.
fn count_at(s: usize, j: usize, w: u32) -> Option<usize>
    requires { (0 < s) × (s ≤ most_slots) }
    ensures { result ≡ count_at s j w }
{
    if w == 0 {
        return None;
    }
    let t = place_of(w, s);
    let q = part_of(w, s);
    let lo = q * s;
    if (lo..lo + s).contains(&j) {
        return None;
    }
    Some(FRONT + STRIDE * t + INLIST)
}

// That count changes.
fn recount<F: FnOnce(u32) -> u32>(img: &mut [u32], s: usize, j: usize, w: u32, change: F)
    requires { Changes (F.pre change) s j w img.old }
    ensures { Changed (F.post change) s j w img.old img.new }
{
    if let Some(at) = count_at(s, j, w) {
        img[at] = change(img[at]);
    }
}

// A field of the object at j loses a word: what it names in another partition is counted once less.
fn lose(img: &mut [u32], s: usize, j: usize, w: u32)
    requires { Loses s j w img.old }
    ensures { img.new ≡ lose s j w img.old }
{
    recount(img, s, j, w, |c| c - 1);
}

// It gains a word: what it names there is counted once more.
fn gain(img: &mut [u32], s: usize, j: usize, w: u32)
    requires { Gains s j w img.old }
    ensures { img.new ≡ gain s j w img.old }
{
    recount(img, s, j, w, |c| c + 1);
}

// A field takes a reference: the count of what it named falls, then that of what it names rises.
pub fn refer_field(img: &mut [u32], p: usize, s: usize, j: usize, k: usize, w: u32)
    requires within { Within p s img.old }
    requires j_bound { (j < p * s) × (k < 4) × (w ≢ 0 → place_of s w < p * s) }
    ensures { img.new ≡ refer s img.old (field j k) w }
{
    let old = field_at(&*img, j, k);
    lose(&mut *img, s, j, old);
    gain(&mut *img, s, j, w);
    put_field(img, j, k, w);
}

// A freed object's reference goes, and the count of what it named falls.
pub fn release_field(img: &mut [u32], p: usize, s: usize, j: usize, k: usize)
    requires within { Within p s img.old }
    requires j_bound { (j < p * s) × (k < 4) }
    ensures { img.new ≡ release s img.old (field j k) }
{
    refer_field(img, p, s, j, k, 0);
}

// As many zeros as there can be places.
pub fn zeros() -> [u32; kinds::Name::LIMIT]
    ensures { result ≡ replicate most_places 0 }
{
    [0u32; kinds::Name::LIMIT]
}

// All words become 0.
pub fn clear(img: &mut [u32])
    ensures { img.new ≡ replicate (length img.old) 0 }
{
    img.fill(0);
}

// P is 1 to 16, S is 1 to 128.
pub fn in_limits(p: u32, s: u32) -> bool
    ensures { result ≡ in_limits p s }
{
    (1..=kinds::Partition::LIMIT).contains(&p) && (1..=kinds::Slot::LIMIT).contains(&s)
}

// The words of an image of P partitions of S slots.
#[tactic(auto, unfolding(model::specs::Image::size))]
pub fn size(p: u32, s: u32) -> usize
    requires { Limits p s }
    ensures { result ≡ size p s }
{
    FRONT + STRIDE * ((p * s) as usize)
}

// Format: 2 unless P and S are in range and agree with the length.
pub fn judge_format(len: usize, p: u32, s: u32) -> kinds::Verdict
    ensures { result ≡ judge_format p s len }
{
    if !in_limits(p, s) {
        return kinds::refuse(kinds::Refusal::SIZE, 0);
    }
    if len != size(p, s) {
        return kinds::refuse(kinds::Refusal::SIZE, 0);
    }
    Ok(())
}

// The act format: P, S, phase shut, nothing else set.
pub fn format(img: &mut [u32], p: u32, s: u32)
    requires { length_of img.old ≡ size p s }
    ensures { img.new ≡ blank p s }
{
    clear(&mut *img);
    img[0] = p;
    img[1] = s;
}
