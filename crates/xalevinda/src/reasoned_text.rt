// The listing with reasons of a script, written into a lent buffer line by line.
ghost use Rattle.reason.specs.ReasonedListing.{reasoned};

use crate::written::{Text, added};
use reason::LONGEST_REASONED;
use sheet::put;

// The listing of a script with its reasons.
pub(crate) struct Reasons;

impl Text for Reasons {
    ghost text = { reasoned };

    // None is known: the lines are not counted.
    fn enough(_input: &[u8]) -> usize {
        usize::MAX
    }

    fn write(script: &[u8], out: &mut [u8]) -> usize {
        let mut line = [0u8; LONGEST_REASONED];
        let mut s = session::fresh();
        let mut size: usize = 0;
        let mut rest = script;
        while !rest.is_empty() {
            let fed = reasoned::feed_line(s, rest, &mut line);
            let wrote = fed.wrote;
            put(out, size, &line[..wrote]);
            size = added(size, wrote);
            rest = &rest[fed.used..];
            s = fed.session;
        }
        let mut last = [0u8; LONGEST_REASONED];
        let wrote = reasoned::finish(s, &mut last);
        put(out, size, &last[..wrote]);
        added(size, wrote)
    }
}
