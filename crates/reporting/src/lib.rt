// The report of a log, as text: `answer`, `kept`, `phase` and a line for each object in use; `answer`, `line` and `byte` where the log is
// refused, with byte 0 for every number but 3 and 4; `toolong`. Its bytes are a definition of the log, specs/Report.antt's `report_of`, over the
// journal's recovery; `report` writes exactly these into the lent bytes (`reported`), for any bytes as log. That no report is longer than ROOM
// is proved in proofs/Reporting.antt. The image is lent with as many words as the log's heading asks for, so that 2 is answered for P or S
// alone.
#![tactic(auto)]

pub mod asked;
mod rows;

ghost use Rattle.std.specs.Prelude.{◌≡◌, ◌<◌, ◌≤◌, length};
ghost use Rattle.lines.specs.Print.{Put};
ghost use Rattle.kinds.specs.Names.{most_partitions, most_slots};
ghost use Rattle.model.specs.Image.{size};
ghost use Rattle.writer.specs.Write.{wrote};
ghost use Rattle.journal.specs.Recover.{recover_of};
ghost use Rattle.reporting.specs.Report.{most_bytes, most_words, room, shown, report_of, reported};

use crate::asked::asked_of;
use crate::rows::{put_kept, put_refused, put_toolong};
use image::WORDS;

// The most bytes of a log.
pub const MOST: usize = 32768;

// The bytes that a report is lent.
pub const ROOM: usize = 65536;

// What recovery into the lent words answers; they are as many as P and S ask for, or none.
fn put_recovered(out: &mut [u8], img: &mut [u32], log: &[u8], p: usize, s: usize) -> usize
    requires p_le_most_partitions { (p ≤ most_partitions) × (s ≤ most_slots) × (0 < length img.old → length img.old ≡ size p s) }
    requires log_len_bound { (length log.now ≤ most_bytes) × (room ≤ length out.old) }
    ensures { Put out.old out.new 0 (shown p s log.now (recover_of log.now (length img.old))) result }
{
    match recovery::recover(&mut *img, log) {
        Ok(k) => put_kept(out, &*img, p, s, k as u32),
        Err(f) => {
            let r = f.refusal;
            put_refused(out, r.number, r.extra as u32, f.byte as u32)
        }
    }
}

fn put_report(out: &mut [u8], log: &[u8]) -> usize
    requires { room ≤ length out.old }
    ensures { Put out.old out.new 0 (report_of log.now) result }
{
    if log.len() > MOST {
        return put_toolong(out);
    }
    let mut img = [0u32; WORDS];
    match asked_of(log) {
        Some(a) => put_recovered(out, &mut img[..a.words], log, a.partitions, a.slots),
        None => put_recovered(out, &mut [], log, 0, 0),
    }
}

// The report of a log at the start of the lent bytes, and its length; None, and nothing written, where fewer than ROOM are lent.
pub fn report(log: &[u8], out: &mut [u8]) -> Option<usize>
    ensures { wrote result out.new ≡ reported log.now out.old }
{
    if out.len() < ROOM {
        return None;
    }
    Some(put_report(out, log))
}
