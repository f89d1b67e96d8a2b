use crate::change::Change;
use crate::track::Track;
use fv_text::List;
use wn_net::NodeId;

/// What stands for the numbers of all names in the midst of a block.
#[derive(Drop)]
pub struct Frame {
    /// The cells as they are now.
    pub now: Vec<NodeId>,
    /// The cells as the next cycle will have them, by what was assigned so far.
    pub next: Vec<NodeId>,
    /// Nodes: none is 0 exactly where none of the numbers that were assumed so far is.
    pub assumed: List<NodeId>,
    /// What stood in `now` before it was written, the last write behind the others.
    pub log: List<Change>,
    /// The memories of the net whose words stand in cells, by their numbers there; the cells of each stand in front of
    /// those of the later ones.
    pub tracks: Vec<Track>,
}
