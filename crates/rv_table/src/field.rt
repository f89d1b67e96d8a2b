ghost use Rattle.std.specs.Prelude.{◌≡◌, ◌+◌, ◌-◌, ◌*◌, ◌^◌, ◌<◌, ◌≤◌};
ghost use Rattle.rv_table.specs.Fields as fields;
ghost use Rattle.rv_table.specs.Immediates as immediates;

/// The bits `high:low` of a word, as the manual writes them.
#[tactic(auto, using(crate::proofs::FieldLemmas::words), unfolding(crate::specs::Fields::field))]
pub(crate) fn field(word: u32, high: u32, low: u32) -> u32
    requires order { low ≤ high }
    requires within { high < 32 }
    ensures value { result ≡ fields.field high low word }
    ensures small { result < 2 ^ (high + 1 - low) }
{
    (u64::from(word >> low) % (1 << (high + 1 - low))) as u32
}

/// The bits `high:low`, put to where bit `to` is their lowest.
#[tactic(auto, using(crate::proofs::FieldLemmas::words))]
pub(crate) fn moved(word: u32, high: u32, low: u32, to: u32) -> u32
    requires order { low ≤ high }
    requires within { high < 32 }
    requires room { high + to < 32 + low }
    ensures value { result ≡ fields.moved high low to word }
    ensures small { result + 2 ^ to ≤ 2 ^ (high + 1 - low + to) }
{
    field(word, high, low) << to
}

/// The word with a number of so many bits at its low end, and copies of that number's highest bit above it.
#[tactic(auto, using(crate::proofs::FieldLemmas::words), unfolding(crate::specs::Fields::sign_extended))]
pub(crate) fn sign_extended(width: u32, number: u32) -> u32
    requires some { 0 < width }
    requires narrow { width < 32 }
    requires within { number < 2 ^ width }
    ensures value { result ≡ fields.sign_extended width number }
{
    if number < 1 << (width - 1) {
        number
    } else {
        number + (u32::MAX - (1 << width)) + 1
    }
}

#[tactic(auto, unfolding(crate::specs::Immediates::i_immediate))]
pub(crate) fn i_immediate(word: u32) -> u32
    ensures { result ≡ immediates.i_immediate word }
{
    sign_extended(12, field(word, 31, 20))
}

#[tactic(auto, unfolding(crate::specs::Immediates::s_immediate))]
pub(crate) fn s_immediate(word: u32) -> u32
    ensures { result ≡ immediates.s_immediate word }
{
    sign_extended(12, moved(word, 31, 25, 5) + field(word, 11, 7))
}

#[tactic(auto, unfolding(crate::specs::Immediates::b_immediate))]
pub(crate) fn b_immediate(word: u32) -> u32
    ensures { result ≡ immediates.b_immediate word }
{
    let number = moved(word, 31, 31, 12)
        + moved(word, 7, 7, 11)
        + moved(word, 30, 25, 5)
        + moved(word, 11, 8, 1);
    sign_extended(13, number)
}

#[tactic(auto, unfolding(crate::specs::Immediates::u_immediate))]
pub(crate) fn u_immediate(word: u32) -> u32
    ensures { result ≡ immediates.u_immediate word }
{
    moved(word, 31, 12, 12)
}

#[tactic(auto, unfolding(crate::specs::Immediates::j_immediate))]
pub(crate) fn j_immediate(word: u32) -> u32
    ensures { result ≡ immediates.j_immediate word }
{
    let number = moved(word, 31, 31, 20)
        + moved(word, 19, 12, 12)
        + moved(word, 20, 20, 11)
        + moved(word, 30, 21, 1);
    sign_extended(21, number)
}
