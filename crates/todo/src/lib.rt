// A set of places with a list of those still to visit: `Notes`. Its `marks` say which of the n places from lo on are noted, and the first `end` of `list`
// are these places in the order of their noting: its ghost field (`Noted`, specs/Notes.antt), so that every function is given it and leaves it.
// `enter` notes a place, `note_anchors` what roots and handles name among these places,
// and `spread` visits the list from its front, noting what the fields of each place name, until the list has no place left. That it comes to
// the bits that the model's passes come to is `spread`'s contract, by the theory of walks (model/proofs/Walking.antt) in proofs/Leading.antt.
#![tactic(auto)]

ghost use Rattle.std.specs.Prelude.{◌≡◌, ◌+◌, ◌*◌, ◌≤◌, ◌<◌, replicate};
ghost use Rattle.kinds.specs.Names.{most_slots, most_places};
ghost use Rattle.model.specs.Questions.{add_bit};
ghost use Rattle.image.specs.Within.{Within};
ghost use Rattle.todo.specs.Notes.{note_word, note_anchors, note_fields, spread_among, Noted};

use kinds::Name;

#[derive(Drop)]
pub struct Notes {
    pub lo: usize,
    pub n: usize,
    pub marks: [u32; Name::LIMIT],
    pub list: [u32; Name::LIMIT],
    pub end: usize,
    pub ghost noted: { ∥ Noted lo n marks list end ∥₁ },
}

impl Notes {
    ghost use Rattle.todo.specs.More.{More};

    // None of the n places from lo on is noted.
    pub fn new(lo: usize, n: usize) -> Notes
        requires { lo + n ≤ most_places }
        ensures { (result.lo ≡ lo) × (result.n ≡ n) × (result.marks ≡ replicate most_places 0) }
    {
        Notes {
            lo,
            n,
            marks: image::zeros(),
            list: image::zeros(),
            end: 0,
        }
    }

    // Place j, one of these, is noted, unless it is: marked, and put at the end of the list.
    pub fn enter(&mut self, j: usize)
        requires { (self.old.lo ≤ j) × (j < self.old.lo + self.old.n) }
        ensures { (self.new.marks ≡ add_bit self.old.marks j) × More self.old self.new }
    {
        if self.marks[j] == 1 {
            return;
        }
        self.marks[j] = 1;
        self.list[self.end] = j as u32;
        self.end += 1;
    }

    // What a word names is noted, if that is one of these places.
    fn note(&mut self, s: usize, w: u32)
        requires { s ≤ most_slots }
        ensures { (self.new.marks ≡ note_word s self.old.lo self.old.n w self.old.marks) × More self.old self.new }
    {
        if w == 0 {
            return;
        }
        let j = image::place_of(w, s);
        if (self.lo..self.lo + self.n).contains(&j) {
            self.enter(j);
        }
    }

    // The same of every root and handle.
    pub fn note_anchors(&mut self, img: &[u32], p: usize, s: usize)
        requires { Within p s img.now }
        ensures { (self.new.marks ≡ note_anchors s self.old.lo self.old.n img.now self.old.marks) × More self.old self.new }
    {
        for i in 0..image::ANCHORS {
            self.note(s, image::anchor_at(img, i));
        }
    }

    // The same of the four fields of the object at j. Field by field, not in a loop, by which a question would take 2 % more instructions and time.
    fn visit(&mut self, img: &[u32], p: usize, s: usize, j: usize)
        requires within { Within p s img.now }
        requires j_bound { j < p * s }
        ensures { (self.new.marks ≡ note_fields s self.old.lo self.old.n img.now j self.old.marks) × More self.old self.new }
    {
        self.note(s, image::field_at(img, j, 0));
        self.note(s, image::field_at(img, j, 1));
        self.note(s, image::field_at(img, j, 2));
        self.note(s, image::field_at(img, j, 3));
    }

    // What the fields of each place of the list name among these places is noted. The list grows meanwhile, so this is no `for`.
    pub fn spread(&mut self, img: &[u32], p: usize, s: usize)
        requires within { Within p s img.now }
        requires n_bound { self.old.lo + self.old.n ≤ p * s }
        ensures { (self.new.marks ≡ spread_among s self.old.lo self.old.n img.now self.old.marks) × More self.old self.new }
    {
        let mut at: usize = 0;
        while at < self.end {
            let j = self.list[at] as usize;
            self.visit(img, p, s, j);
            at += 1;
        }
    }
}
