//! How many steps an induction has.

ghost use Rattle.std.specs.Prelude.{◌≤◌};

/// How many cycles the base of an induction has, and how many its step has before the last one: from 1 to 100.
#[derive(Debug, Clone, Copy)]
pub struct Steps {
    pub number: u32,
    pub ghost some: { 1 ≤ number },
    pub ghost few: { number ≤ 100 },
}
