use fv_text::Text;

/// What the words of a command line ask for.
#[derive(Debug, Drop)]
pub enum Line {
    /// `run CFG OUTDIR`: the checks of a configuration, with their certificates in a folder.
    Run {
        /// The file of the configuration.
        cfg: Text,
        /// The folder that the certificates are written to.
        outdir: Text,
        /// The name of the core, which `@core@` stands for in the configuration.
        core: Text,
        /// The folder that `@basedir@` stands for in the configuration.
        basedir: Text,
        /// How many clauses each check may derive, from 1 to 1,000,000,000.
        budget: u64,
        /// How many checks are judged beside each other, from 1 to 64; with `cubes` above 0 how many cubes of a check.
        jobs: u32,
        /// How many variables each check's clauses are split by, from 0 to 6. With 0 they aren't split.
        cubes: u32,
    },
    /// `list CFG`: the names of the checks of a configuration.
    List {
        /// The file of the configuration.
        cfg: Text,
    },
    /// `lrat CNF PROOF`: whether the steps of a proof refute the clauses of a file.
    Lrat {
        /// The file of the clauses, in DIMACS.
        cnf: Text,
        /// The file of the steps, in LRAT.
        proof: Text,
    },
    /// `bench N`: the checks of the design that is made for it.
    Bench {
        /// How many words the design has, from 2 to 32.
        size: u32,
    },
    /// `cover CFG OUTDIR`: what the runs of a configuration's designs reach.
    Cover(Options),
    /// `zb CFG OUTDIR`: the checks of the instructions of Zba and Zbs.
    Zb(Options),
    /// `induct CFG OUTDIR`: the checks that look at one cycle, in runs of every length.
    Induct {
        options: Options,
        /// How many cycles the base has, and how many the step has before the last one, from 1 to 100.
        steps: u32,
    },
    /// `toaig CFG CHECK FILE`: the graph of a check.
    Toaig {
        cfg: Text,
        /// The name of the check.
        check: Text,
        /// The file that the graph is written to, in the ASCII format AIGER.
        file: Text,
        core: Text,
        basedir: Text,
    },
    /// `fromaig AAG CNF`: the clauses of a graph.
    Fromaig {
        /// The file of the graph, in the ASCII format AIGER.
        aag: Text,
        /// The file that the clauses are written to, in DIMACS.
        cnf: Text,
    },
}

/// What the words say behind the name of a subcommand that judges what a configuration asks for.
#[derive(Debug, Drop)]
pub struct Options {
    /// The file of the configuration.
    pub cfg: Text,
    /// The folder that files are written to.
    pub outdir: Text,
    /// The name of the core, which `@core@` stands for in the configuration.
    pub core: Text,
    /// The folder that `@basedir@` stands for in the configuration.
    pub basedir: Text,
    /// How many clauses each search may derive, from 1 to 1,000,000,000.
    pub budget: u64,
    /// How many jobs are done beside each other, from 1 to 64.
    pub jobs: u32,
}
