ghost use Rattle.std.specs.Prelude.{◌≡◌};
ghost use Rattle.ck_ask.specs.Questions as questions;

use crate::zb_check::ZbCheck;
use ck_cfg::{Check, CheckKind};
use ck_cover::Target;
use fv_text::Text;

/// What is sought in the runs of a design, from a first cycle to a last one.
#[derive(Debug, Drop)]
pub enum Question {
    /// A run that lacks the property of a check.
    Check(Check),
    /// A run that reaches a target.
    Target(Target),
    /// A run that retires a word of a row of Zba or Zbs and doesn't do what the row does.
    Zb(ZbCheck),
}

impl Question {
    /// By which its line and its files are named.
    pub fn name(&self) -> &Text
        ensures { result.now ≡ questions.question_name self.now }
    {
        match self {
            Question::Check(check) => &check.name,
            Question::Target(target) => &target.name,
            Question::Zb(check) => &check.name,
        }
    }

    /// The kind of checks of which it has the text.
    pub fn kind(&self) -> CheckKind
        ensures { result ≡ questions.question_kind self.now }
    {
        match self {
            Question::Check(check) => check.kind,
            Question::Target(target) => target.kind,
            Question::Zb(_) => CheckKind::Insn,
        }
    }

    /// The channel that it is about, from 0.
    pub fn channel(&self) -> u32
        ensures { result ≡ questions.question_channel self.now }
    {
        match self {
            Question::Check(check) => check.channel,
            Question::Target(target) => target.channel,
            Question::Zb(check) => check.channel,
        }
    }

    /// The last cycle of the runs that it is about.
    pub fn cycle(&self) -> u32
        ensures { result ≡ questions.question_cycle self.now }
    {
        match self {
            Question::Check(check) => check.cycle,
            Question::Target(target) => target.cycle,
            Question::Zb(check) => check.cycle,
        }
    }
}
