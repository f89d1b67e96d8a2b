//! How large a net may be whose cycles are laid out as frames.
ghost use Rattle.std.specs.Prelude.{◌↔◌, IsTrue};
ghost use Rattle.bm_unroll.specs.Frames.{IsWithin};

use wn_net::Net;

/// Whether a net is within the limits of `unroll`.
pub fn is_within(net: &Net) -> bool
    ensures { IsTrue result ↔ IsWithin net.now }
{
    let inputs = net.inputs().len();
    let regs = net.regs().len();
    if inputs > 1_000_000 || regs > 100_000_000 {
        return false;
    }
    let mut room = 100_000_000 - regs;
    for mem in net.mems() {
        let words = mem.words as usize;
        if words > room {
            return false;
        }
        room -= words;
    }
    true
}
