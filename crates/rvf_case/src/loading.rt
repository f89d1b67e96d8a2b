//! What is loaded of the texts of a configuration, one after the other.

ghost use Rattle.std.specs.Prelude.{◌≡◌, ◌≤◌, ℕ, List, Err, IfOk, ◌<◌, ◌^◌, length};
ghost use Rattle.ck_cfg.specs.Checks.{checks_of};
ghost use Rattle.ck_cfg.specs.Lawful.{HasLawfulChecks};
ghost use Rattle.ck_ask.specs.Asked.{IsQuestion};
ghost use Rattle.std.specs.List.{AllByRecursion};
ghost use Rattle.rvf_load.specs.Loads.{Answers};
ghost use Rattle.rvf_case.specs.Askings.{asking_seen};
ghost use Rattle.rvf_case.specs.Cases.{IsReady};
ghost use Rattle.rvf_case.specs.Steps.{IsAtQuestion, Loads, LoadsInTurn, LoadsOne, StopsAt, stop_of};
ghost use Rattle.rvf_case.specs.Texts.{asked_for, leaders, questions_of, with_text};

use crate::asked::{assumptions, core_of, factors_for, name_at, probes_for, texts_for};
use crate::asking::{Asking, questions_of};
use crate::case::{Case, LoadedText};
use crate::refusal::Refusal;
use crate::same::leaders;
use ck_ask::Question;
use ck_cfg::{Check, CheckKind, Config, checks};
use fv_text::{List, Memory, Text};
use rvf_load::{LoadFault, Loaded, load};
use std::alloc::Global;

/// Why not all texts are loaded.
#[derive(Drop)]
pub(crate) enum Stop {
    /// The text of this kind is refused.
    Refused(CheckKind, LoadFault),
    Memory,
}

impl From<Memory> for Stop {
    ghost use Rattle.rvf_case.specs.declared.loading.Stop.TheVariants as stop;

    ghost from_gives = { λ _ e. e ≡ stop.Memory };

    fn from(_fault: Memory) -> Stop {
        Stop::Memory
    }
}

impl Stop {
    fn of(kind: CheckKind, fault: LoadFault) -> Stop
        ensures { result ≡ stop_of kind fault }
    {
        match fault {
            LoadFault::Memory => Stop::Memory,
            fault => Stop::Refused(kind, fault),
        }
    }
}

/// What texts are loaded of: a configuration and its checks, the questions that are asked, and the files.
#[derive(Clone, Copy)]
struct Wanted<'a> {
    config: &'a Config,
    checks: &'a [Check],
    questions: &'a [Question],
    files: &'a [Text],
}

/// What is loaded of the text of a kind, for all checks and all questions that have it.
fn load_kind(alloc: Global, wanted: Wanted<'_>, kind: CheckKind) -> Result<Loaded, LoadFault>
    requires checks { wanted.checks.now ≡ checks_of wanted.config.now }
    requires lawful { AllByRecursion (IsQuestion wanted.config.now.nret) wanted.questions.now }
    requires few { length wanted.questions.now < 2 ^ 32 }
    requires channels { 1 ≤ wanted.config.now.nret × wanted.config.now.nret ≤ 2 }
    ensures { Answers (asked_for wanted.entry.config.now wanted.entry.files.now wanted.entry.questions.now kind) result }
{
    let config = wanted.config;
    let texts = texts_for(alloc, config, wanted.files, kind)?;
    let lines = assumptions(alloc, config)?;
    let factors = factors_for(alloc, config, wanted.questions, kind)?;
    load(
        alloc,
        core_of(config.isa, config.nret),
        texts.as_slice(),
        lines.as_slice(),
        config.nret,
        probes_for(config, wanted.checks, kind),
        factors.as_slice(),
    )
}

fn load_text(alloc: Global, wanted: Wanted<'_>, kind: CheckKind) -> Result<LoadedText, Stop>
    requires checks { wanted.checks.now ≡ checks_of wanted.config.now }
    requires lawful { AllByRecursion (IsQuestion wanted.config.now.nret) wanted.questions.now }
    requires few { length wanted.questions.now < 2 ^ 32 }
    requires channels { 1 ≤ wanted.config.now.nret × wanted.config.now.nret ≤ 2 }
    ensures { LoadsOne (asked_for wanted.entry.config.now wanted.entry.files.now wanted.entry.questions.now)
        kind result }
{
    match load_kind(alloc, wanted, kind) {
        Ok(loaded) => Ok(LoadedText { kind, loaded }),
        Err(fault) => Err(Stop::of(kind, fault)),
    }
}

/// What is loaded of the texts of these kinds.
fn load_kinds(
    alloc: Global,
    wanted: Wanted<'_>,
    kinds: &[CheckKind],
) -> Result<List<LoadedText>, Stop>
    requires checks { wanted.checks.now ≡ checks_of wanted.config.now }
    requires lawful { AllByRecursion (IsQuestion wanted.config.now.nret) wanted.questions.now }
    requires few { length wanted.questions.now < 2 ^ 32 }
    requires channels { 1 ≤ wanted.config.now.nret × wanted.config.now.nret ≤ 2 }
    ensures { LoadsInTurn (asked_for wanted.entry.config.now wanted.entry.files.now wanted.entry.questions.now)
        kinds.now result }
{
    let mut texts = List::new(alloc);
    for kind in kinds {
        let text = load_text(alloc, wanted, *kind)?;
        texts.push(text)?;
    }
    Ok(texts)
}

/// What is loaded of each distinct text, in the order of their first questions.
fn load_all(alloc: Global, wanted: Wanted<'_>) -> Result<List<LoadedText>, Stop>
    requires checks { wanted.checks.now ≡ checks_of wanted.config.now }
    requires lawful { AllByRecursion (IsQuestion wanted.config.now.nret) wanted.questions.now }
    requires few { length wanted.questions.now < 2 ^ 32 }
    requires channels { 1 ≤ wanted.config.now.nret × wanted.config.now.nret ≤ 2 }
    ensures { LoadsInTurn (asked_for wanted.entry.config.now wanted.entry.files.now wanted.entry.questions.now)
        (leaders wanted.entry.config.now wanted.entry.questions.now) result }
{
    let kinds = leaders(alloc, wanted.config, wanted.questions)?;
    load_kinds(alloc, wanted, kinds.as_slice())
}

/// The refusal of the text of a kind: a design that is too heavy is refused for a question by its name, and any other
/// text by the names of the files, that of the configuration first.
fn refusal_of(
    alloc: Global,
    config: &Config,
    questions: &[Question],
    names: List<Text>,
    kind: CheckKind,
    fault: LoadFault,
) -> Result<Refusal, Memory>
    requires { IsAtQuestion (with_text config.now kind questions.now) fault }
    ensures { (files : List (List ℕ))
        → StopsAt (asked_for config.now files questions.now) (leaders config.now questions.now) kind fault
        → IfOk result (λ refusal. Loads names config.now files questions.now (Err refusal)) }
{
    match fault {
        LoadFault::Heavy(place, product) => {
            let name = name_at(alloc, config, questions, kind, place)?;
            Ok(Refusal::Heavy(name, product))
        }
        fault => Ok(Refusal::Source(fault, names)),
    }
}

/// The case of a configuration whose files are read; `names` are those of all files, that of the configuration first.
pub(crate) fn case_of(
    alloc: Global,
    config: Config,
    asking: Asking<'_>,
    names: List<Text>,
    files: &[Text],
) -> Result<Case, Refusal>
    requires lawful { HasLawfulChecks config }
    requires channels { 1 ≤ config.nret × config.nret ≤ 2 }
    ensures loads { Loads names config files.now (questions_of (asking_seen asking.entry) config) result }
    ensures ready { IfOk result (λ case. IsReady case) }
{
    let checks = checks(alloc, &config)?;
    let questions = questions_of(alloc, asking, &config)?;
    let wanted = Wanted {
        config: &config,
        checks: checks.as_slice(),
        questions: questions.as_slice(),
        files,
    };
    match load_all(alloc, wanted) {
        Ok(texts) => Ok(Case {
            config,
            questions,
            texts,
        }),
        Err(Stop::Refused(kind, fault)) => {
            let refusal = refusal_of(alloc, &config, questions.as_slice(), names, kind, fault)?;
            Err(refusal)
        }
        Err(Stop::Memory) => Err(Refusal::Memory),
    }
}
