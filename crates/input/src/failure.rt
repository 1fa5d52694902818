// The line on standard error that says why something failed.
use std::fmt::InlineText;
use std::io;

// The text of an error without the system's number.
fn without_number(text: &str) -> &str {
    match text.find(" (os error ") {
        Some(end) => &text[..end],
        None => text,
    }
}

// Writes a line to standard error: what failed, a colon and why. Of an error of the system that is its text, without its number.
pub fn fail<R: Eprint>(rt: &R, what: &str, error: io::Error) {
    let text: InlineText<128> = InlineText::of(error);
    let why = without_number(text.as_str());
    let _ = eprintln!(rt; "{what}: {why}");
}
