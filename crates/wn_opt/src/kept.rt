//! What every net keeps.
ghost use Rattle.wn_net.specs.Net.{IsNet};

use wn_net::Net;

/// A net is whole, as its readers say: a clause for where nothing of it is read.
pub(crate) fn whole(net: &Net)
    ensures { IsNet net.now }
{
    let _nodes = net.nodes();
}
