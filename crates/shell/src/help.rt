// The commands, a line each.
use std::io;
use std::io::Write;

pub(crate) fn help<W: Write>(out: &mut W) -> io::Result<()> {
    out.write_all(
        b"image N         lends N words of image, all zeros\n\
        word I V        puts V at word I of the image\n\
        buffer N        lends N bytes of log, each 46\n\
        bytes AT B ..   puts the bytes B into the log from AT on\n\
        format P S AT   an empty heap of P partitions of S slots\n\
        new p s v       waits: a new object p.s with payload v\n\
        set p s f q t   waits: field f of p.s refers to q.t\n\
        clr p s f       waits: field f of p.s refers to nothing\n\
        val p s v       waits: the payload of p.s is v\n\
        root r q t      waits: root r refers to q.t\n\
        unroot r        waits: root r refers to nothing\n\
        commit AT       what waits, as one transaction\n\
        open AT         opens a phase\n\
        trace P AT      traces partition P\n\
        close AT        closes the phase, and frees\n\
        local P AT      frees partition P on its own\n\
        hold H P S AT   handle H holds P.S\n\
        drop H AT       handle H holds nothing\n\
        read P S        the object P.S\n\
        ask P S         whether a root or handle leads to P.S\n\
        outlist P       what partition P names in others\n\
        recover N       recovery of the first N bytes of the log\n\
        digest          a sum of the image and one of the log\n\
        show            the image\n\
        log N           the first N bytes of the log\n\
        help            these lines\n",
    )
}
