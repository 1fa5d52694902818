// Soundness as code: `sound` takes any words of any length and answers true exactly when the model's test does (`is_sound`; that the
// test passes exactly for the paper's conditions is `sound_true` and `Sound-back` of the model's proofs/Soundness.antt).
// One pass goes over the slots and tallies, by the place that it names, every reference to another partition; then the counts are compared with
// the tally, and the anchors, the flags and what the phase asks are tested. Each field and count is read once, a
// state once more for every reference to it; no pass divides by S.
// P and S are compared before anything is multiplied, and a place is known before its state is read.
#![tactic(auto)]

ghost use Rattle.std.specs.Prelude.{◌≡◌, ◌≢◌, ◌+◌, ◌*◌, ◌<◌, ◌≤◌, true, false, replicate};
ghost use Rattle.std.specs.Option.{MatchOption};
ghost use Rattle.loops.specs.Loop.{every};
ghost use Rattle.kinds.specs.Names.{most_partitions, most_slots, most_places};
ghost use Rattle.model.specs.Image.{Key, flag, field, anchors, Has, get, part_of};
ghost use Rattle.model.specs.Sound.{ref_ok, free_ok, slot_ok, count_ok, anchor_ok, flag_ok, flag_down, unmarked_at, open_ok, shut_ok, sound_at, is_sound};
ghost use Rattle.soundness.specs.Checks.{Shaped, NamesSlot, Tallied};

// The fields of a slot, and the flags of an image.
const FIELDS: usize = kinds::Field::LIMIT as usize;

const FLAGS: usize = kinds::Partition::LIMIT as usize;

// What a reference word names, if that is a slot in use: its partition and its place.
fn named(img: &[u32], p: usize, s: usize, w: u32) -> Option<(usize, usize)>
    requires shaped { Shaped p s img.now }
    requires some { w ≢ 0 }
    ensures { (κ : Key) → get img.now κ ≡ w → MatchOption result (ref_ok p s img.now κ ≡ false) (λ t. NamesSlot p s img.now κ t.0 t.1) }
{
    let v = w as usize - 1;
    let q = v / kinds::Name::RADIX as usize;
    if p <= q {
        return None;
    }
    let t = v % kinds::Name::RADIX as usize;
    if s <= t {
        return None;
    }
    let j = q * s + t;
    (image::state_at(img, j) != 0).then_some((q, j))
}

// A reference word is nothing or names a slot in use, whatever key it stands at.
fn ref_ok(img: &[u32], p: usize, s: usize, w: u32) -> bool
    requires { Shaped p s img.now }
    ensures { (κ : Key) → get img.now κ ≡ w → result ≡ ref_ok p s img.now κ }
{
    w == 0 || named(img, p, s, w).is_some()
}

// Field k of place j, which is in partition q: it is nothing or names a slot in use, and a foreign reference is tallied. (The 0 or 1 is added
// without a branch: own and foreign references come in no order that a processor could foresee.)
fn field(
    img: &[u32],
    p: usize,
    s: usize,
    q: usize,
    j: usize,
    k: usize,
    counts: &mut [u32; kinds::Name::LIMIT],
) -> bool
    requires shaped { Shaped p s img.now }
    requires j_bound { (j < p * s) × (k < 4) × (part_of s j ≡ q) }
    requires tallied { Tallied s img.now (4 * j + k) counts.old }
    ensures { (result ≡ ref_ok p s img.now (field j k)) × (result ≡ true → Tallied s img.now (4 * j + k + 1) counts.new) }
{
    let w = image::field_at(img, j, k);
    if w == 0 {
        return true;
    }
    let Some((r, i)) = named(img, p, s, w) else {
        return false;
    };
    counts[i] += u32::from(q != r);
    true
}

// The four fields of place j.
fn fields(
    img: &[u32],
    p: usize,
    s: usize,
    q: usize,
    j: usize,
    counts: &mut [u32; kinds::Name::LIMIT],
) -> bool
    requires shaped { Shaped p s img.now }
    requires j_bound { (j < p * s) × (part_of s j ≡ q) }
    requires tallied { Tallied s img.now (4 * j) counts.old }
    ensures { (result ≡ every 4 (λ k. ref_ok p s img.now (field j k))) × (result ≡ true → Tallied s img.now (4 * (j + 1)) counts.new) }
{
    for k in 0..FIELDS {
        if !field(img, p, s, q, j, k, &mut *counts) {
            return false;
        }
    }
    true
}

// Payload and fields of a free slot are 0.
fn free_ok(img: &[u32], p: usize, s: usize, j: usize) -> bool
    requires { Shaped p s img.now × (j < p * s) }
    ensures { result ≡ free_ok img.now j }
{
    image::payload_at(img, j) == 0 && (0..FIELDS).all(|k| image::field_at(img, j, k) == 0)
}

// Place j, which is in partition q: free it is zeros but for its count, which `counted` compares; in use its state is known and its references name slots in use.
fn slot(
    img: &[u32],
    p: usize,
    s: usize,
    q: usize,
    j: usize,
    counts: &mut [u32; kinds::Name::LIMIT],
) -> bool
    requires shaped { Shaped p s img.now }
    requires j_bound { (j < p * s) × (part_of s j ≡ q) }
    requires tallied { Tallied s img.now (4 * j) counts.old }
    ensures { (result ≡ slot_ok p s img.now j) × (result ≡ true → Tallied s img.now (4 * (j + 1)) counts.new) }
{
    match image::state_at(img, j) {
        0 => free_ok(img, p, s, j),
        1 | 2 => fields(img, p, s, q, j, counts),
        _ => false,
    }
}

// The partition of place j, which is in q or the first after q.
fn partition_at(q: usize, s: usize, j: usize) -> usize
    requires { (0 < s) × (s ≤ most_slots) × (q * s ≤ j) × (j ≤ q * s + s) × (j < most_places) }
    ensures { (result ≡ part_of s j) × (result * s ≤ j) × (j < result * s + s) }
{
    if j < q * s + s { q } else { q + 1 }
}

// All places, one partition after the other: each slot is tested, and foreign references are tallied.
fn slots(img: &[u32], p: usize, s: usize, counts: &mut [u32; kinds::Name::LIMIT]) -> bool
    requires shaped { Shaped p s img.now }
    requires counts_value { counts.old ≡ replicate most_places 0 }
    ensures { (result ≡ every (p * s) (slot_ok p s img.now)) × (result ≡ true → Tallied s img.now (4 * (p * s)) counts.new) }
{
    let mut q: usize = 0;
    for j in 0..p * s {
        q = partition_at(q, s, j);
        if !slot(img, p, s, q, j, &mut *counts) {
            return false;
        }
    }
    true
}

// The counts of all places are what was tallied.
fn counted(img: &[u32], p: usize, s: usize, counts: &[u32; kinds::Name::LIMIT]) -> bool
    requires shaped { Shaped p s img.now }
    requires tallied { Tallied s img.now (4 * (p * s)) counts.now }
    ensures { result ≡ every (p * s) (count_ok s (p * s) img.now) }
{
    (0..p * s).all(|j| image::inlist_at(img, j) == counts[j])
}

// The roots and handles are nothing or name slots in use.
fn anchors(img: &[u32], p: usize, s: usize) -> bool
    requires { Shaped p s img.now }
    ensures { result ≡ every anchors (anchor_ok p s img.now) }
{
    (0..image::ANCHORS).all(|a| ref_ok(img, p, s, image::anchor_at(img, a)))
}

// A flag is 0 or 1, and 0 from partition P on.
fn flag_ok(img: &[u32], p: usize, i: usize) -> bool
    requires { Has img.now (flag i) }
    ensures { result ≡ flag_ok p img.now i }
{
    let x = image::flag_at(img, i);
    x <= 1 && (i < p || x == 0)
}

// All flags are.
fn flags(img: &[u32], p: usize, s: usize) -> bool
    requires { Shaped p s img.now }
    ensures { result ≡ every most_partitions (flag_ok p img.now) }
{
    (0..FLAGS).all(|i| flag_ok(img, p, i))
}

// All flags are 0.
fn flags_down(img: &[u32], p: usize, s: usize) -> bool
    requires { Shaped p s img.now }
    ensures { result ≡ every most_partitions (flag_down img.now) }
{
    (0..FLAGS).all(|i| image::flag_at(img, i) == 0)
}

// No place has a mark.
fn unmarked(img: &[u32], p: usize, s: usize) -> bool
    requires { Shaped p s img.now }
    ensures { result ≡ every (p * s) (unmarked_at img.now) }
{
    (0..p * s).all(|j| image::state_at(img, j) != 2)
}

// With the phase open: the allowance is at most P + P * S, traces counted are at most the allowance.
fn open_ok(img: &[u32], p: usize, s: usize) -> bool
    requires { Shaped p s img.now }
    ensures { result ≡ open_ok p s img.now }
{
    let a = image::head_at(img, image::ALLOWANCE);
    a as usize <= p + p * s && image::head_at(img, image::COUNT) <= a
}

// With it shut: words 3 and 4 and all flags are 0 and nothing is marked.
fn shut_ok(img: &[u32], p: usize, s: usize) -> bool
    requires { Shaped p s img.now }
    ensures { result ≡ shut_ok p s img.now }
{
    image::head_at(img, image::COUNT) == 0
        && image::head_at(img, image::ALLOWANCE) == 0
        && flags_down(img, p, s)
        && unmarked(img, p, s)
}

// An image of the right length is sound: the phase, the slots, their counts, the roots and handles, the flags, and what the phase asks.
fn sound_at(img: &[u32], p: usize, s: usize) -> bool
    requires { Shaped p s img.now }
    ensures { result ≡ sound_at p s img.now }
{
    let phase = image::head_at(img, image::PHASE);
    if 1 < phase {
        return false;
    }
    let mut counts = image::zeros();
    slots(img, p, s, &mut counts)
        && counted(img, p, s, &counts)
        && anchors(img, p, s)
        && flags(img, p, s)
        && if phase == 1 {
            open_ok(img, p, s)
        } else {
            shut_ok(img, p, s)
        }
}

// The image is sound.
pub fn sound(img: &[u32]) -> bool
    ensures { result ≡ is_sound img.now }
{
    if !image::has_front(img) {
        return false;
    }
    let p = image::head_at(img, image::PARTITIONS);
    let s = image::head_at(img, image::SLOTS);
    // refusal 2 of format is the first test of soundness: P, S and the length
    let v = image::judge_format(img.len(), p, s);
    match v {
        Ok(()) => sound_at(img, p as usize, s as usize),
        Err(_) => false,
    }
}
