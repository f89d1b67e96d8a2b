ghost use Rattle.std.specs.Prelude.{◌≡◌};
ghost use Rattle.ck_cfg.specs.Options.{isa_named};

use rv_table::Isa;

/// The instruction set of a name. None exactly where there is none.
pub(crate) fn isa_named(name: &[u8]) -> Option<Isa>
    ensures { result ≡ isa_named name.now }
{
    if name == b"rv32i".as_slice() {
        Some(Isa { m: false, c: false })
    } else if name == b"rv32im".as_slice() {
        Some(Isa { m: true, c: false })
    } else if name == b"rv32ic".as_slice() {
        Some(Isa { m: false, c: true })
    } else if name == b"rv32imc".as_slice() {
        Some(Isa { m: true, c: true })
    } else {
        None
    }
}
