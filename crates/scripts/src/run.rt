// Runs of bytes: the spaces and tabs between words, words, lines.
ghost use Rattle.std.specs.Prelude.{◌≡◌, ◌≤◌, ◌<◌, length, IfSome};
ghost use Rattle.scripts.specs.Runs.{goes_on, span, end_of, word_at, bare_of};

// What a run is made of. (An enum and no closure: by it the contracts say which bytes.)
#[derive(Clone, Copy)]
pub enum Run {
    // Spaces and tabs.
    Gap,
    // Any bytes but those.
    Word,
    // Any bytes but the line end.
    Line,
}

// Where a word stands: from its first byte to the byte after it.
#[derive(Clone, Copy)]
pub struct Span {
    pub from: usize,
    pub to: usize,
}

fn is_gap(b: u8) -> bool
    ensures { result ≡ goes_on Run.Gap b }
{
    matches!(b, b' ' | b'\t')
}

fn goes_on(run: Run, b: u8) -> bool
    ensures { result ≡ goes_on run b }
{
    match run {
        Run::Gap => is_gap(b),
        Run::Word => !is_gap(b),
        Run::Line => b != b'\n',
    }
}

// How long the run is with which the bytes start.
fn run_len(bytes: &[u8], run: Run) -> usize
    ensures { result ≡ span run bytes.now }
{
    bytes
        .iter()
        .position(|b| !goes_on(run, *b))
        .unwrap_or(bytes.len())
}

// The place after the run that starts at a place.
pub fn end_of(bytes: &[u8], at: usize, run: Run) -> usize
    ensures { result ≡ end_of run bytes.now at }
{
    if at >= bytes.len() {
        return at;
    }
    at + run_len(&bytes[at..], run)
}

// The first word from a place on, if there is one.
#[tactic(auto, unfolding(crate::specs::Runs::word_at))]
pub(crate) fn word_at(line: &[u8], at: usize) -> Option<Span>
    ensures value { result ≡ word_at line.now at }
    ensures within { IfSome result (λ w. (w.from < w.to) × (w.to ≤ length line.now)) }
{
    let from = end_of(line, at, Run::Gap);
    let to = end_of(line, from, Run::Word);
    if from == to {
        return None;
    }
    Some(Span { from, to })
}

// The length of a line without the byte 13 that may stand at its end: editors of some systems end lines by 13 and 10.
#[tactic(auto, unfolding(crate::specs::Runs::bare_of))]
pub fn bare(line: &[u8]) -> usize
    ensures { result ≡ bare_of line.now }
{
    match line {
        [.., b'\r'] => line.len() - 1,
        _ => line.len(),
    }
}
