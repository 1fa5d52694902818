// The queue of `explain`: the places that are met, level by level. What its tables keep is a fact of the type (specs/Tables.antt); their order, and that the
// rows before one are whole, are facts of a walk (specs/Queue.antt).
ghost use Rattle.std.specs.Prelude.{ℕ};
ghost use Rattle.reasons.specs.Tables.{Tables};

use kinds::Name;

// The places that are met, in their order: the first `length` of the list. For each place 1 + the row in which it was met, or 0: an Option would double the table.
#[derive(Drop)]
pub(crate) struct Queue {
    rows: [u32; Name::LIMIT],
    list: [u32; Name::LIMIT],
    length: usize,
    ghost tables: { Tables rows list length },
}

impl Queue {
    ghost use Rattle.std.specs.Prelude.{◌≡◌, ◌≢◌, List, ◌+◌, ◌*◌, ◌≤◌, ◌<◌, length, get_or, IfSome, IfNone};
    ghost use Rattle.kinds.specs.Names.{most_slots, most_places};
    ghost use Rattle.model.specs.Image.{Image, place_of};
    ghost use Rattle.image.specs.Within.{Within};
    ghost use Rattle.reasons.specs.Tables.{is_met};
    ghost use Rattle.reasons.specs.Queue.{Levels, Spread, Inserted, Entered, Noted, IsBefore, Trail, Climbs};

    // No place is met.
    pub(crate) fn new() -> Queue
        ensures { (S places : ℕ) (img : Image) → places ≤ most_places → Levels S places img result 0 0 }
    {
        Queue {
            rows: [0; Name::LIMIT],
            list: [0; Name::LIMIT],
            length: 0,
        }
    }

    // Whether place j is met.
    pub(crate) fn is_met(&self, j: usize) -> bool
        requires { j < most_places }
        ensures { result ≡ is_met self.now.rows j }
    {
        0 < self.rows[j]
    }

    // j comes into the list, from `from` on before what is higher. It is not counted yet.
    fn insert(&mut self, j: usize, from: usize)
        requires { (j < most_places) × (from ≤ self.old.length) × (self.old.length < most_places) }
        ensures inserted { Inserted self.old.list from self.old.length j self.new.list }
        ensures others { (self.new.rows ≡ self.old.rows) × (self.new.length ≡ self.old.length) }
    {
        // No range is known before the search ends, and `rposition` with `rotate_right` would go over the row twice.
        let mut at = self.length;
        while from < at && j <= image::wide(self.list[at - 1]) {
            self.list[at] = self.list[at - 1];
            at -= 1;
        }
        self.list[at] = j as u32;
    }

    // Place j is met in row u, unless it was.
    fn enter(&mut self, j: usize, u: usize, from: usize)
        requires { (j < most_places) × (u ≤ most_places) × (from ≤ self.old.length) }
        ensures { Entered j u from self.old self.new }
    {
        // (Not by `is_met`: a wrong test here alone is must-fail/met_again.)
        if 0 < self.rows[j] {
            return;
        }
        self.insert(j, from);
        self.rows[j] = (u + 1) as u32;
        self.length += 1;
    }

    // The same of what a word names.
    fn note(&mut self, s: usize, w: u32, u: usize, from: usize)
        requires s_le_most_slots { s ≤ most_slots }
        requires w_bound { w ≢ 0 → place_of s w < most_places }
        requires u_le_most_places { (u ≤ most_places) × (from ≤ self.old.length) }
        ensures { Noted s w u from self.old self.new }
    {
        if w != 0 {
            self.enter(image::place_of(w, s), u, from);
        }
    }

    // Row 0: what the anchors name is met.
    fn note_anchors(&mut self, img: &[u32], p: usize, s: usize)
        requires within { Within p s img.now }
        requires empty { Levels s (p * s) img.now self.old 0 0 }
        ensures { Levels s (p * s) img.now self.new 1 self.new.length }
    {
        for a in 0..image::ANCHORS {
            self.note(s, image::anchor_at(img, a), 0, 0);
        }
    }

    // Row b + 1: what the fields of the b-th of the list name is met.
    fn note_fields(&mut self, img: &[u32], p: usize, s: usize, b: usize)
        requires within { Within p s img.now }
        requires levels { Levels s (p * s) img.now self.old (b + 1) self.old.length }
        requires b_in_bounds { b < self.old.length }
        ensures levels { Levels s (p * s) img.now self.new (b + 1 + 1) self.new.length }
        ensures longer { self.old.length ≤ self.new.length }
    {
        let j = image::wide(self.list[b]);
        let from = self.length;
        for k in 0..4 {
            self.note(s, image::field_at(img, j, k), b + 1, from);
        }
    }

    // Places to which an anchor leads are met, level by level, until t is.
    pub(crate) fn spread(&mut self, img: &[u32], p: usize, s: usize, t: usize)
        requires within { Within p s img.now }
        requires t_bound { t < p * s }
        requires empty { Levels s (p * s) img.now self.old 0 0 }
        ensures { Spread s (p * s) img.now t self.new }
    {
        self.note_anchors(img, p, s);
        // The list grows as it is walked, so no range has its end.
        let mut b = 0;
        while b < self.length && !self.is_met(t) {
            self.note_fields(img, p, s, b);
            b += 1;
        }
    }

    // The place before j on its way up, or none where an anchor names j.
    pub(crate) fn before(&self, j: usize) -> Option<usize>
        requires climbs { Climbs self.now }
        requires j_lt_most_places { j < most_places }
        ensures some { IfSome result (IsBefore self.now j) }
        ensures none { IfNone result (get_or self.now.rows j 0 ≤ 1) }
    {
        let b = image::wide(self.rows[j]).checked_sub(2)?;
        Some(image::wide(self.list[b]))
    }

    // How many references lead to j.
    pub(crate) fn depth(&self, j: usize) -> usize
        requires climbs { Climbs self.now }
        requires j_lt_most_places { j < most_places }
        ensures { (h : ℕ) (ns : List ℕ) → Trail self.now j h ns → result ≡ length ns }
    {
        // `successors(..).count()` asks for a bound of how many there are, and std's `Successors` has none.
        let mut k = 0;
        let mut at = j;
        while let Some(h) = self.before(at) {
            at = h;
            k += 1;
        }
        k
    }
}
