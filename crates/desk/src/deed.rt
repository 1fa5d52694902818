// The deeds on what is lent.
ghost use Rattle.std.specs.Prelude.{◌≡◌};
ghost use Rattle.catalogue.specs.Call.{outcome};
ghost use Rattle.desk.specs.Desk.{deed_of, recover_for, past, seen_for, put, put_word};

use crate::Response;
use kinds::{Operation, Single};
use scripts::order::{Deed, Look};

// One word of the image.
fn word(i: usize, v: u32, img: &mut [u32]) -> Response
    ensures { put result img.new ≡ put_word i v img.old }
{
    if i < img.len() {
        img[i] = v;
        return Response::Ok;
    }
    Response::What
}

// Recovery of the first n bytes of the log buffer.
fn recover(n: usize, img: &mut [u32], log: &[u8]) -> Response
    ensures { outcome result img.new log.now ≡ recover_for n img.old log.now }
{
    if log.len() < n {
        return Response::What;
    }
    Response::Recovered(recovery::recover(img, &log[..n]))
}

// Whether a look asks for more bytes than are lent.
fn past(l: Look, lent: usize) -> bool
    ensures { result ≡ past l lent }
{
    match l {
        Look::Log(n) => lent < n,
        _ => false,
    }
}

// What is seen on a log buffer of so many bytes.
fn seen(l: Look, lent: usize) -> Response
    ensures { result ≡ seen_for l lent }
{
    if past(l, lent) {
        return Response::What;
    }
    Response::Look(l)
}

// A deed, with these operations waiting.
pub(crate) fn deed(x: Deed, ops: &[Operation], img: &mut [u32], log: &mut [u8]) -> Response
    ensures { outcome result img.new log.new ≡ deed_of x ops.now img.old log.old }
{
    match x {
        Deed::Word(i, v) => word(i, v, img),
        Deed::Format(p, s, at) => Response::Done(catalogue::format(img, p, s, log, at)),
        Deed::Commit(at) => Response::Done(catalogue::commit(img, ops, log, at)),
        Deed::Single(a, at) => match a {
            Single::Open => Response::Done(catalogue::open(img, log, at)),
            Single::Trace(p) => Response::Done(catalogue::trace(img, p, log, at)),
            Single::Close => Response::Closed(catalogue::close(img, log, at)),
            Single::Local(p) => Response::Freed(catalogue::local(img, p, log, at)),
            Single::Hold(h, o) => Response::Done(catalogue::hold(img, h, o, log, at)),
            Single::Drop(h) => Response::Done(catalogue::drop(img, h, log, at)),
        },
        Deed::Recover(k) => recover(k, img, &*log),
        Deed::Look(l) => seen(l, log.len()),
    }
}
