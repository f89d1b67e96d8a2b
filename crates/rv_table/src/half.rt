//! The registers and immediates of a half word (RISC-V unprivileged manual, chapter 16).

ghost use Rattle.std.specs.Prelude.{◌≡◌, ◌<◌};
ghost use Rattle.rv_table.specs.Compressed as compressed;

use crate::field::{field, moved, sign_extended};

#[tactic(auto, unfolding(crate::specs::Compressed::near_low))]
pub(crate) fn near_low(half: u32) -> u32
    ensures value { result ≡ compressed.near_low half }
    ensures small { result < 16 }
{
    8 + field(half, 4, 2)
}

#[tactic(auto, unfolding(crate::specs::Compressed::near_high))]
pub(crate) fn near_high(half: u32) -> u32
    ensures value { result ≡ compressed.near_high half }
    ensures small { result < 16 }
{
    8 + field(half, 9, 7)
}

/// The register of bits 11:7.
#[tactic(auto, unfolding(crate::specs::Compressed::far))]
pub(crate) fn far(half: u32) -> u32
    ensures value { result ≡ compressed.far half }
    ensures small { result < 32 }
{
    field(half, 11, 7)
}

/// The register, or the amount of a shift, of bits 6:2.
#[tactic(auto, unfolding(crate::specs::Compressed::second))]
pub(crate) fn second(half: u32) -> u32
    ensures value { result ≡ compressed.second half }
    ensures small { result < 32 }
{
    field(half, 6, 2)
}

#[tactic(auto, unfolding(crate::specs::Compressed::six))]
pub(crate) fn six(half: u32) -> u32
    ensures { result ≡ compressed.six half }
{
    sign_extended(6, moved(half, 12, 12, 5) + field(half, 6, 2))
}

#[tactic(auto, unfolding(crate::specs::Compressed::addi4spn_immediate))]
pub(crate) fn addi4spn_immediate(half: u32) -> u32
    ensures { result ≡ compressed.addi4spn_immediate half }
{
    moved(half, 10, 7, 6) + moved(half, 12, 11, 4) + moved(half, 5, 5, 3) + moved(half, 6, 6, 2)
}

#[tactic(auto, unfolding(crate::specs::Compressed::word_offset))]
pub(crate) fn word_offset(half: u32) -> u32
    ensures { result ≡ compressed.word_offset half }
{
    moved(half, 5, 5, 6) + moved(half, 12, 10, 3) + moved(half, 6, 6, 2)
}

#[tactic(auto, unfolding(crate::specs::Compressed::jump_offset))]
pub(crate) fn jump_offset(half: u32) -> u32
    ensures { result ≡ compressed.jump_offset half }
{
    let upper = moved(half, 12, 12, 11)
        + moved(half, 8, 8, 10)
        + moved(half, 10, 9, 8)
        + moved(half, 6, 6, 7);
    let lower = moved(half, 7, 7, 6)
        + moved(half, 2, 2, 5)
        + moved(half, 11, 11, 4)
        + moved(half, 5, 3, 1);
    sign_extended(12, upper + lower)
}

#[tactic(auto, unfolding(crate::specs::Compressed::addi16sp_immediate))]
pub(crate) fn addi16sp_immediate(half: u32) -> u32
    ensures { result ≡ compressed.addi16sp_immediate half }
{
    let upper = moved(half, 12, 12, 9) + moved(half, 4, 3, 7) + moved(half, 5, 5, 6);
    sign_extended(10, upper + moved(half, 2, 2, 5) + moved(half, 6, 6, 4))
}

#[tactic(auto, unfolding(crate::specs::Compressed::lui_immediate))]
pub(crate) fn lui_immediate(half: u32) -> u32
    ensures { result ≡ compressed.lui_immediate half }
{
    sign_extended(18, moved(half, 12, 12, 17) + moved(half, 6, 2, 12))
}

#[tactic(auto, unfolding(crate::specs::Compressed::branch_offset))]
pub(crate) fn branch_offset(half: u32) -> u32
    ensures { result ≡ compressed.branch_offset half }
{
    let upper = moved(half, 12, 12, 8) + moved(half, 6, 5, 6) + moved(half, 2, 2, 5);
    sign_extended(9, upper + moved(half, 11, 10, 3) + moved(half, 4, 3, 1))
}

#[tactic(auto, unfolding(crate::specs::Compressed::lwsp_offset))]
pub(crate) fn lwsp_offset(half: u32) -> u32
    ensures { result ≡ compressed.lwsp_offset half }
{
    moved(half, 3, 2, 6) + moved(half, 12, 12, 5) + moved(half, 6, 4, 2)
}

#[tactic(auto, unfolding(crate::specs::Compressed::swsp_offset))]
pub(crate) fn swsp_offset(half: u32) -> u32
    ensures { result ≡ compressed.swsp_offset half }
{
    moved(half, 8, 7, 6) + moved(half, 12, 9, 2)
}
