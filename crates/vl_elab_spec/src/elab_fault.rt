ghost use Rattle.std.specs.Prelude.{◌≡◌};
ghost use Rattle.vl_elab_spec.specs.Refused.{rank};

use fv_text::{List, Pos, Text};

/// Why a source has no design without hierarchy. The first refused step of the walk is answered; of it the first in
/// this order, and of one kind the one at the earliest place.
#[derive(Drop)]
pub enum ElabFault {
    /// The top module, or the module of an instance, isn't there.
    NoModule(Text),
    /// Two modules, two names that one scope declares, or two of an instance's connections or overrides; at the
    /// second one.
    Twice(Text, Pos),
    /// A name without a declaration in scope, or a genvar outside the loops whose heads name it.
    Unknown(Text, Pos),
    /// A connection to no port, or of an output to what isn't a net, a constant part of one, or such joined.
    Port(Text, Pos),
    /// An override of no parameter, or of a `localparam`.
    Param(Text, Pos),
    /// An instance within its own module: the modules that it stands in, the top one first.
    Recursive(List<Text>),
    /// A select, bound, count or memory that isn't right.
    Range(Pos),
    /// A generate loop that begins a turn behind 4,096.
    GenLoop(Pos),
    /// Bits of variables that no combinational block assigns, above 65,536.
    TooManyBits(u64),
    /// A `posedge` of another name than the clock, or the clock read or assigned elsewhere.
    Clock(Pos),
    /// What has to be constant and isn't.
    NotConstant(Pos),
    /// At the first token of a division.
    ZeroDivisor(Pos),
    /// A declaration, a word or an expression of more than 128 bits, with their number.
    TooWide(Pos, u64),
    /// Node 4,000,001, or name 200,001.
    TooLarge(Pos),
    /// An assignment to what may not be assigned there, or a loop over what is no genvar of its own.
    Kind(Text, Pos),
}

/// The number of a refusal, from 1 to 15. Of the refusals of a step the lowest number is answered.
pub fn refusal_number(fault: &ElabFault) -> u32
    ensures { result ≡ rank fault.now }
{
    match fault {
        ElabFault::NoModule(_) => 1,
        ElabFault::Twice(_, _) => 2,
        ElabFault::Unknown(_, _) => 3,
        ElabFault::Port(_, _) => 4,
        ElabFault::Param(_, _) => 5,
        ElabFault::Recursive(_) => 6,
        ElabFault::Range(_) => 7,
        ElabFault::GenLoop(_) => 8,
        ElabFault::TooManyBits(_) => 9,
        ElabFault::Clock(_) => 10,
        ElabFault::NotConstant(_) => 11,
        ElabFault::ZeroDivisor(_) => 12,
        ElabFault::TooWide(_, _) => 13,
        ElabFault::TooLarge(_) => 14,
        ElabFault::Kind(_, _) => 15,
    }
}
