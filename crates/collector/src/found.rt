ghost use Rattle.std.specs.Prelude.{◌+◌, ◌<◌, ◌≤◌, ◌≡◌, length, slice_index, slice_set};
ghost use Rattle.std.specs.Option.{MatchOption};
ghost use Rattle.kinds.specs.Names.{most_slots, most_places};

// The most slots of a partition.
const SLOTS: usize = kinds::Slot::LIMIT as usize;

// The list of a trace: the objects of its partition that it has found marked, each once. The first `number` of `places` are theirs.
#[derive(Drop)]
pub struct Found {
    places: [u32; SLOTS],
    number: usize,
    ghost long: { length places ≡ most_slots },
    ghost few: { number ≤ most_slots },
}

impl Found {
    // None yet.
    pub fn new() -> Self
        ensures { result.number ≡ 0 }
    {
        Found {
            places: [0; SLOTS],
            number: 0,
        }
    }

    // The object at j comes to the list's end.
    pub fn push(&mut self, j: usize)
        requires { (self.old.number < most_slots) × (j < most_places) }
        ensures places { self.new.places ≡ slice_set self.old.places self.old.number j }
        ensures number { self.new.number ≡ self.old.number + 1 }
    {
        self.places[self.number] = j as u32;
        self.number += 1;
    }

    // Object `at` of the list, if it has so many.
    pub fn get(&self, at: usize) -> Option<usize>
        ensures { MatchOption result (self.now.number ≤ at) (λ j. (at < self.now.number) × (j ≡ slice_index self.now.places at)) }
    {
        if self.number <= at {
            return None;
        }
        Some(image::wide(self.places[at]))
    }
}
