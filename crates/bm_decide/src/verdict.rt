use bb_aig::Lit;
use bb_blast::Placed;
use bm_unroll::Source;
use cnf_form::Formula;
use fv_text::List;
use lrat_check::Step;

/// What may be chosen in the runs of a net, bit by bit.
#[derive(Debug, Drop)]
pub struct ChoiceBits {
    pub sources: List<Source>,
    /// The width of each source.
    pub widths: List<u32>,
    /// Which variable each bit of each source is; a place names its source by the number in `sources`.
    pub places: List<Placed>,
}

/// Clauses of the runs of a net, behind them that the run is bad, and steps over these clauses.
#[derive(Debug, Drop)]
pub struct Certificate {
    pub formula: Formula,
    pub steps: List<Step>,
    pub bits: ChoiceBits,
    /// The literals of each node that is shown in the last cycle, the lowest bit first, in the order of these nodes: of
    /// a question the fields of its channel.
    pub fields: List<List<Lit>>,
}

/// A bad run, by its choices.
#[derive(Debug, Drop)]
pub struct Witness {
    /// The value of each variable, that of variable 1 first.
    pub values: List<bool>,
    pub bits: ChoiceBits,
}

/// What clauses of runs come to.
#[derive(Debug, Drop)]
pub enum Verdict {
    /// No run is bad: the steps refute the clauses.
    Never(Certificate),
    /// One is.
    Once(Witness),
    /// The budget is used up: the steps derive as many clauses.
    Spent(Certificate),
}
