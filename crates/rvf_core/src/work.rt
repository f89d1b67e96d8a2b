ghost use Rattle.std.specs.Prelude.{◌≡◌};
ghost use Rattle.rvf_case.specs.Askings.{asking_seen};
ghost use Rattle.rvf_core.specs.Tasks as tasks;
ghost use Rattle.rvf_core.specs.Works.{task_seen};

use rvf_case::Asking;
use rvf_checks::Wording;
use rvf_words::Options;

/// What a word asks for that puts questions of a configuration.
#[derive(Debug, Clone, Copy)]
pub(crate) struct Work<'a> {
    /// The file of the configuration.
    pub(crate) cfg: &'a [u8],
    /// The name of the core, which `@core@` stands for in the configuration.
    pub(crate) core: &'a [u8],
    /// The folder that `@basedir@` stands for in the configuration.
    pub(crate) basedir: &'a [u8],
    /// Which questions are asked.
    pub(crate) asking: Asking<'a>,
    /// In which words they are reported.
    pub(crate) wording: Wording,
    /// The folder of the files, without a slash behind it.
    pub(crate) outdir: &'a [u8],
    /// How many clauses a search may learn, from 1 on.
    pub(crate) budget: u64,
    /// How many questions are answered beside each other, from 1 to 64; or how many cubes of one question.
    pub(crate) jobs: u32,
    /// How many variables the clauses of a question are split by, from 0 to 6. With 0 they aren't split.
    pub(crate) cubes: u32,
}

impl<'a> Work<'a> {
    /// What words ask for with these operands and options.
    pub(crate) fn of(options: &'a Options, asking: Asking<'a>, wording: Wording) -> Work<'a>
        ensures task { task_seen result ≡ tasks.task_with (asking_seen asking.entry) wording options.now }
        ensures budget { result.budget ≡ options.now.budget }
        ensures jobs { result.jobs ≡ options.now.jobs }
        ensures cubes { result.cubes ≡ 0 }
    {
        Work {
            cfg: options.cfg.bytes(),
            core: options.core.bytes(),
            basedir: options.basedir.bytes(),
            asking,
            wording,
            outdir: options.outdir.bytes(),
            budget: options.budget,
            jobs: options.jobs,
            cubes: 0,
        }
    }
}
