// The questions on an image: read an object, and ask whether a root or a handle leads to it. Both leave the image as found.
// `read` answers the record, and `ask` says yes exactly where the model's `ask` does: each contract is that equation.
// `ask` notes what roots and handles name and lets crate todo follow the fields from there, over as many bits as there can be places. That these have the
// places of the model's `ask` is `answered` in proofs/Answering.antt. A name is judged in
// crate verdicts.
#![tactic(auto)]

ghost use Rattle.std.specs.Prelude.{◌≡◌, ℕ, ◌*◌, ◌<◌};
ghost use Rattle.model.specs.Image.{field, place, Has};
ghost use Rattle.model.specs.Questions as Questions;
ghost use Rattle.image.specs.Within.{Within};

use kinds::{Field, Name, Record};
use todo::Notes;

// Field k of place j.
fn field_at(img: &[u32], j: usize, k: usize) -> Field
    requires { Has img.now (field j k) }
    ensures { result ≡ Questions.field_of img.now j k }
{
    let target = kinds::target_of(image::field_at(img, j, k));
    Field { target: target }
}

// The object of a name: its payload beside its four fields.
pub fn read(img: &[u32], s: usize, n: Name) -> Record
    requires { (p : ℕ) × Within p s img.now × (place s n < p * s) }
    ensures { result ≡ Questions.read_of img.now (place s n) }
{
    let j = image::place(n, s);
    let payload = image::payload_at(img, j);
    let a = field_at(img, j, 0);
    let b = field_at(img, j, 1);
    let c = field_at(img, j, 2);
    let d = field_at(img, j, 3);
    Record {
        payload: payload,
        fields: [a, b, c, d],
    }
}

// Whether a root or a handle leads to the object of a name.
pub fn ask(img: &[u32], p: usize, s: usize, n: Name) -> bool
    requires within { Within p s img.now }
    requires n_bound { place s n < p * s }
    ensures { result ≡ Questions.ask p s img.now (place s n) }
{
    let mut notes = Notes::new(0, p * s);
    notes.note_anchors(img, p, s);
    notes.spread(img, p, s);
    notes.marks[image::place(n, s)] == 1
}
