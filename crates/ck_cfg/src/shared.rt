//! That the public types may be shared among threads.

use crate::check::Check;
use crate::config::{Config, Depth, KindPiece, Piece};
use crate::fault::CfgFault;
use crate::kind::CheckKind;

fn is_shared<T: Send + Sync>(_value: &T) {}

/// Kinds, depths and checks may be shared.
pub(crate) fn checks_are_shared(kind: &CheckKind, depth: &Depth, check: &Check) {
    is_shared(kind);
    is_shared(depth);
    is_shared(check);
}

/// Pieces of text may be shared.
pub(crate) fn pieces_are_shared(piece: &Piece, kind_piece: &KindPiece) {
    is_shared(piece);
    is_shared(kind_piece);
}

/// Configurations and faults may be shared.
pub(crate) fn configurations_are_shared(config: &Config, fault: &CfgFault) {
    is_shared(config);
    is_shared(fault);
}
