// Why an object is still here: the foremost chain of references from a root or a handle to it, found. `explain` is proved equal to `held_of`
// (holding/specs/Finding.antt), and that this answers the foremost chain, 18 exactly where there is none, in holding/proofs/Found.antt.
// Places are met level by level, each once, and in each row (what the anchors name, or the fields of a place met before) they stand in the order of
// names (specs/Queue.antt): so the way by which a place was first met is its foremost chain (proofs/Trails.antt), and the walk ends when the object is met.
// Cost: each anchor is looked at once, and each field once, at the level of its place, if this is met before the object; then, for a chain of k
// references, the fields of its k places and the anchors once more. That is at most 4 n + 4 k + 96 looks at the image for n places. A place that is new
// moves past those of its row that are higher: at most 3 for a field, 47 for an anchor. Stack: 16 KB for two tables of 2,048 words.
#![tactic(auto)]

mod queue;

ghost use Rattle.std.specs.Prelude.{◌≡◌, ◌≢◌, List, ℕ, ◌+◌, ◌*◌, ◌-◌, ◌/◌, ◌≤◌, ◌<◌, length, set};
ghost use Rattle.kinds.specs.Names.{most_partitions, most_slots, most_places};
ghost use Rattle.model.specs.Image.{anchors, place_of};
ghost use Rattle.model.specs.Outlist.{name_at};
ghost use Rattle.image.specs.Within.{Within};
ghost use Rattle.holding.specs.Finding.{field_to, anchor_to, start_of, explained, refused_with, held_of};
ghost use Rattle.reasons.specs.Queue.{word_to, IsLowest, Placed, Way, Filled};

use kinds::{Handle, Held, Reason, Refusal, Start};
use queue::Queue;

// Whether a word names the place j.
fn names(w: u32, s: usize, j: usize) -> bool
    requires { s ≤ most_slots }
    ensures { result ≡ word_to s w j }
{
    w != 0 && image::place_of(w, s) == j
}

// The lowest field of the object at h that names j.
fn field_to(img: &[u32], p: usize, s: usize, h: usize, j: usize) -> Option<usize>
    requires within { Within p s img.now }
    requires h_bound { h < p * s }
    ensures { IsLowest 4 (field_to s img.now h j) result }
{
    (0..4).find(|k| names(image::field_at(img, h, *k), s, j))
}

// The lowest anchor that names j.
fn anchor_to(img: &[u32], p: usize, s: usize, j: usize) -> Option<usize>
    requires { Within p s img.now }
    ensures { IsLowest anchors (anchor_to s img.now j) result }
{
    (0..image::ANCHORS).find(|a| names(image::anchor_at(img, *a), s, j))
}

// The word of a place's name.
fn name_at(s: usize, j: usize) -> u32
    requires { (0 < s) × (s ≤ most_slots) × (j / s < most_partitions) }
    ensures { result ≡ name_at s j }
{
    let n = kinds::named((j / s) as u32, (j % s) as u32);
    kinds::word_of(Some(n))
}

// The i-th name after the first is written, and before it the field of the object at h that names it.
fn put_pair(img: &[u32], p: usize, s: usize, h: usize, j: usize, i: usize, words: &mut [u32])
    requires within { Within p s img.now }
    requires h_bound { (h < p * s) × (j < p * s) }
    requires named { field_to s img.now h j < 4 }
    requires i_nonzero { (0 < i) × (2 * i < length words.old) }
    ensures { words.new ≡ set (set words.old (2 * i) (name_at s j)) (2 * i - 1) (field_to s img.now h j) }
{
    let k = field_to(img, p, s, h, j).unwrap();
    words[2 * i] = name_at(s, j);
    words[2 * i - 1] = k as u32;
}

// The words of the way up from t are written, from its last name to its first, whose place is answered.
fn fill(
    img: &[u32],
    p: usize,
    s: usize,
    queue: &Queue,
    t: usize,
    k: usize,
    words: &mut [u32],
) -> usize
    requires placed { Placed p s img.now queue.now }
    requires way { Way (p * s) queue.now t k }
    requires k_in_bounds { 2 * k < length words.old }
    ensures { Filled p s img.now queue.now t words.old words.new result }
{
    // A `for` down from k would leave `before(j).unwrap()`: the way itself says where it ends.
    let mut j = t;
    let mut i = k;
    while let Some(h) = queue.before(j) {
        put_pair(img, p, s, h, j, i, words);
        j = h;
        i -= 1;
    }
    words[0] = name_at(s, j);
    j
}

// The root or the handle that an anchor is.
fn start_of(a: usize) -> Start
    requires { a < anchors }
    ensures { result ≡ start_of a }
{
    let roots = kinds::ROOTS as usize;
    if a < roots {
        return Start::Root(a as u32);
    }
    Start::Handle(Handle((a - roots) as u32))
}

// The refusal with a number.
fn refuse(number: u32) -> Reason
    ensures { result ≡ refused_with number }
{
    Err(Refusal {
        number: number,
        extra: 0,
    })
}

// The foremost chain to the object at place t: 18 where there is none, 19 where its words do not fit.
pub fn explain(img: &[u32], p: usize, s: usize, t: usize, words: &mut [u32]) -> Reason
    requires within { Within p s img.now }
    requires t_bound { t < p * s }
    ensures { explained result words.new ≡ held_of (p * s) s img.now t words.old }
{
    let mut queue = Queue::new();
    queue.spread(img, p, s, t);
    if !queue.is_met(t) {
        return refuse(Refusal::UNHELD);
    }
    let k = queue.depth(t);
    if words.len() <= 2 * k {
        return refuse(Refusal::NARROW);
    }
    let h = fill(img, p, s, &queue, t, k, words);
    let a = anchor_to(img, p, s, h).unwrap();
    Ok(Held {
        start: start_of(a),
        references: k,
    })
}
