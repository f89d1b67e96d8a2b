use rv_table::Opts;
use rvfi_port::Port;
use wn_net::{Names, Net};

/// The net of a design, with all that its checks need.
#[derive(Debug, Drop)]
pub struct Loaded {
    pub net: Net,
    pub names: Names,
    pub port: Port,
    pub opts: Opts,
    /// About how many gates a cycle takes.
    pub weight: u64,
}
