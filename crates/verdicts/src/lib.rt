// The verdicts on acts whose record is a single line (`judge`), on an outlist and on the object of a name. Each judge leaves the image alone and is proved equal to the
// model's (model/specs/Judge.antt). What they look for is found by searches over the indexes; what a search tells a judge is proved in
// proofs/Searches.antt.
// P and S are handed in as p and s; `Within` keeps every reference in range.
#![tactic(auto)]

ghost use Rattle.std.specs.Prelude.{ℕ, ◌*◌, ◌<◌, ◌≡◌, ◌≢◌, ◌↔◌, true, cond};
ghost use Rattle.std.specs.Option.{IfSome, IsNone};
ghost use Rattle.loops.specs.Loop.{every};
ghost use Rattle.kinds.specs.Names.{fields};
ghost use Rattle.kinds.specs.declared.Single.TheVariants.{Open, Trace, Close, Local, Hold, Drop};
ghost use Rattle.model.specs.Image.{Image, Key, field, get, place_of};
ghost use Rattle.model.specs.Acts.{single, marked, not_clean};
ghost use Rattle.model.specs.Judge.{judge, judge_name, judge_outlist, rooted, leads_on, led, lowest};
ghost use Rattle.image.specs.Within.{Within};

use kinds::{Handle, Name, Partition, Refusal, Single, Verdict, refuse};

// The root table and the fields of an object.
const ROOTS: usize = kinds::ROOTS as usize;

const FIELDS: usize = kinds::Field::LIMIT as usize;

// A root is in use.
fn rooted(img: &[u32], p: usize, s: usize) -> bool
    requires { Within p s img.now }
    ensures { result ≡ rooted img.now }
{
    (0..ROOTS).any(|r| image::anchor_at(img, r) != 0)
}

// The lowest partition that is not clean.
fn unclean(img: &[u32], p: usize, s: usize) -> Option<usize>
    requires { Within p s img.now }
    ensures none { IsNone result ↔ (not_clean p img.now ≡ 0) }
    ensures lowest { IfSome result (λ q. q ≡ lowest p img.now) }
{
    (0..p).find(|q| image::flag_at(img, *q) == 0)
}

// A reference word is nothing or leads to a marked object, whatever key it stands at.
fn leads_on(img: &[u32], p: usize, s: usize, w: u32) -> bool
    requires within { Within p s img.now }
    requires w_bound { w ≢ 0 → place_of s w < p * s }
    ensures { (κ : Key) → get img.now κ ≡ w → result ≡ leads_on s img.now κ }
{
    w == 0 || image::state_at(img, image::place_of(w, s)) == 2
}

// Place j, if it is marked, leads to marked objects only.
fn object_leads_on(img: &[u32], p: usize, s: usize, j: usize) -> bool
    requires within { Within p s img.now }
    requires j_bound { j < p * s }
    ensures { result ≡ cond (marked img.now j) (every fields (λ k. leads_on s img.now (field j k))) true }
{
    image::state_at(img, j) != 2
        || (0..FIELDS).all(|k| leads_on(img, p, s, image::field_at(img, j, k)))
}

// Roots, handles and marked objects refer to marked objects only.
fn led(img: &[u32], p: usize, s: usize) -> bool
    requires { Within p s img.now }
    ensures { result ≡ led p s img.now }
{
    (0..image::ANCHORS).all(|a| leads_on(img, p, s, image::anchor_at(img, a)))
        && (0..p * s).all(|j| object_leads_on(img, p, s, j))
}

// Open: 11, 12.
fn judge_open(img: &[u32], p: usize, s: usize) -> Verdict
    requires { Within p s img.now }
    ensures { result ≡ judge p s img.now (single Open) }
{
    if image::head_at(img, image::PHASE) == 1 {
        return refuse(Refusal::OPENED, 0);
    }
    let r = rooted(img, p, s);
    if !r {
        return refuse(Refusal::ROOTLESS, 0);
    }
    Ok(())
}

// Trace: 10, 7, 13, 15.
fn judge_trace(img: &[u32], p: usize, s: usize, t: Partition) -> Verdict
    requires { Within p s img.now }
    ensures { result ≡ judge p s img.now (single (Trace t)) }
{
    let phase = image::head_at(img, image::PHASE);
    if phase != 1 {
        return refuse(Refusal::SHUT, 0);
    }
    let q = t.0 as usize;
    if p <= q {
        return refuse(Refusal::RANGE, 0);
    }
    if image::flag_at(img, q) != 0 {
        return refuse(Refusal::CLEAN, 0);
    }
    if image::head_at(img, image::COUNT) == image::head_at(img, image::ALLOWANCE) {
        return refuse(Refusal::SPENT, 0);
    }
    Ok(())
}

// Close: 10, 12, 14 with the lowest partition, 16.
fn judge_close(img: &[u32], p: usize, s: usize) -> Verdict
    requires { Within p s img.now }
    ensures { result ≡ judge p s img.now (single Close) }
{
    if image::head_at(img, image::PHASE) != 1 {
        return refuse(Refusal::SHUT, 0);
    }
    let r = rooted(img, p, s);
    if !r {
        return refuse(Refusal::ROOTLESS, 0);
    }
    if let Some(q) = unclean(img, p, s) {
        return refuse(Refusal::UNCLEAN, q);
    }
    let l = led(img, p, s);
    if !l {
        return refuse(Refusal::UNMARKED, 0);
    }
    Ok(())
}

// A local collection of partition t: 7, 12.
fn judge_local(img: &[u32], p: usize, s: usize, t: Partition) -> Verdict
    requires { Within p s img.now }
    ensures { result ≡ judge p s img.now (single (Local t)) }
{
    if p <= t.0 as usize { // 7 before 12
        return refuse(Refusal::RANGE, 0);
    }
    let r = rooted(img, p, s);
    if !r {
        return refuse(Refusal::ROOTLESS, 0);
    }
    Ok(())
}

// The object of a name, as a question or a hold asks for it: 7 for its numbers, then 9.
pub fn judge_name(img: &[u32], p: usize, s: usize, n: Name) -> Verdict
    requires { Within p s img.now }
    ensures { result ≡ judge_name p s img.now n }
{
    if p <= n.partition.0 as usize {
        return refuse(Refusal::RANGE, 0);
    }
    if s <= n.slot.0 as usize {
        return refuse(Refusal::RANGE, 0);
    }
    let j = image::place(n, s);
    if image::state_at(img, j) == 0 {
        return refuse(Refusal::ABSENT, 0);
    }
    Ok(())
}

// A hold of the object of a name by handle h: 7, 9.
fn judge_hold(img: &[u32], p: usize, s: usize, h: Handle, n: Name) -> Verdict
    requires { Within p s img.now }
    ensures { result ≡ judge p s img.now (single (Hold h n)) }
{
    if Handle::LIMIT <= h.0 { // 7 before 9
        return refuse(Refusal::RANGE, 0);
    }
    judge_name(img, p, s, n)
}

// A drop of handle h: 7, whatever the image is.
fn judge_drop(h: Handle) -> Verdict
    ensures { (P S : ℕ) (x : Image) → result ≡ judge P S x (single (Drop h)) }
{
    if Handle::LIMIT <= h.0 {
        return refuse(Refusal::RANGE, 0);
    }
    Ok(())
}

// The verdict on an act.
pub fn judge(img: &[u32], p: usize, s: usize, a: Single) -> Verdict
    requires { Within p s img.now }
    ensures { result ≡ judge p s img.now (single a) }
{
    match a {
        Single::Open => judge_open(img, p, s),
        Single::Trace(t) => judge_trace(img, p, s, t),
        Single::Close => judge_close(img, p, s),
        Single::Local(t) => judge_local(img, p, s, t),
        Single::Hold(h, n) => judge_hold(img, p, s, h, n),
        Single::Drop(h) => judge_drop(h),
    }
}

// The outlist of partition t: 7.
pub fn judge_outlist(p: usize, t: Partition) -> Verdict
    ensures { result ≡ judge_outlist p t.0 }
{
    if p <= t.0 as usize {
        return refuse(Refusal::RANGE, 0);
    }
    Ok(())
}
