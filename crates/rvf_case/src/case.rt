ghost use Rattle.std.specs.Prelude.{◌≡◌};
ghost use Rattle.std.specs.Option.{option_copied};
ghost use Rattle.rvf_case.specs.Cases.{loaded_for, text_among};

use crate::same::is_same_text;
use ck_ask::Question;
use ck_cfg::{CheckKind, Config};
use fv_text::List;
use rvf_load::Loaded;

/// What is loaded of a text, and the kind of the first question that has it.
#[derive(Drop)]
pub struct LoadedText {
    pub kind: CheckKind,
    pub loaded: Loaded,
}

/// The questions that are asked of a configuration, and what they are answered by.
#[derive(Drop)]
pub struct Case {
    pub config: Config,
    pub questions: List<Question>,
    /// Of each distinct text, in the order of their first questions.
    pub texts: List<LoadedText>,
}

impl Case {
    /// What is loaded of the text of a question.
    pub fn loaded_for(&self, question: &Question) -> Option<&Loaded>
        ensures { option_copied result ≡ loaded_for self.now question.now }
    {
        self.loaded_of(question.kind())
    }

    /// What is loaded of the text of a kind.
    pub fn loaded_of(&self, kind: CheckKind) -> Option<&Loaded>
        ensures { option_copied result ≡ text_among self.now.config kind self.now.texts }
    {
        for text in self.texts.as_slice() {
            if is_same_text(&self.config, text.kind, kind) {
                return Some(&text.loaded);
            }
        }
        None
    }
}
