// The commands that change by hand what is lent: image, buffer, bytes.
ghost use Rattle.std.specs.Prelude.{◌≡◌, length, take, replicate};
ghost use Rattle.std.specs.Counts.{IsPrefixLen};
ghost use Rattle.desk.specs.Desk.{lending, words_for, bytes_for, listed_from, bytes_of, put, put_at, put_from};

use crate::{Desk, Response, Turn};
use scripts::command::{Next, next_number};

// `image`: the first n words are lent, and become 0.
pub(crate) fn lend_words(n: usize, d: Desk, img: &mut [u32]) -> Turn
    ensures { lending result img.new ≡ words_for n d img.old }
{
    if img.len() < n {
        return d.says(Response::What);
    }
    image::clear(&mut img[..n]);
    Desk { words: n, ..d }.says(Response::Ok)
}

// Bytes 46.
fn dot(bytes: &mut [u8])
    ensures { bytes.new ≡ replicate (length bytes.old) 46 }
{
    bytes.fill(b'.');
}

// `buffer`: the first n bytes are lent, and become 46.
pub(crate) fn lend_bytes(n: usize, d: Desk, log: &mut [u8]) -> Turn
    ensures { lending result log.new ≡ bytes_for n d log.old }
{
    if log.len() < n {
        return d.says(Response::What);
    }
    dot(&mut log[..n]);
    Desk { bytes: n, ..d }.says(Response::Ok)
}

// The bytes that stand in a line from a place on, and how many; 0 where there is none, or a word that is no byte, or too little room: a count as it
// is promised, of which the caller makes nothing else. (No `for`: where a word stands is known once the one before it is read.)
fn listed(line: &[u8], from: usize, list: &mut [u8]) -> usize
    ensures prefix_len { IsPrefixLen result list.new }
    ensures list_after { take result list.new ≡ bytes_of (listed_from (length list.old) line.now from) }
{
    let mut n: usize = 0;
    let mut i = from;
    loop {
        match next_number(line, i) {
            Next::Nothing => return n,
            Next::Bad => return 0,
            Next::Number(v, to) => {
                if 255 < v {
                    return 0;
                }
                if n >= list.len() {
                    return 0;
                }
                list[n] = v as u8;
                n += 1;
                i = to;
            }
        }
    }
}

// One byte or more from a place on, where they stand within.
fn put_at(at: usize, list: &[u8], log: &mut [u8]) -> Response
    ensures { put result log.new ≡ put_at at list.now log.old }
{
    if list.len() == 0 {
        return Response::What;
    }
    if log.len() < at {
        return Response::What;
    }
    if log.len() - at < list.len() {
        return Response::What;
    }
    log[at..at + list.len()].copy_from_slice(list);
    Response::Ok
}

// `bytes`: the place and the bytes, which stand in the line from a place on.
pub(crate) fn put_bytes(line: &[u8], from: usize, log: &mut [u8]) -> Response
    ensures { put result log.new ≡ put_from line.now from log.old }
{
    match next_number(line, from) {
        Next::Nothing => Response::What,
        Next::Bad => Response::What,
        Next::Number(at, to) => {
            // Room for the bytes of a line: as many as a log buffer has.
            let mut list = [0u8; 65536];
            let n = listed(line, to, &mut list);
            put_at(at as usize, &list[..n], log)
        }
    }
}
