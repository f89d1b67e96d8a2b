//! The command of the program, as `clap` is told of it.
ghost use Rattle.std.specs.Prelude.{◌≡◌, IfOk, false};
ghost use Rattle.clap.specs.Words.{app_of, rule_of, with_rule, with_subcommand, shape_of};
ghost use Rattle.clap.specs.declared.builder.command.Command.TheViews.{out-Command as fields_of};
ghost use Rattle.rvf_words.specs.Table as table;

use clap::{Arg, Command};
use fv_text::Memory;
use std::alloc::Global;

/// A word that has to be there, without a name before it.
fn operand(alloc: Global, id: &str) -> Arg<'_>
    ensures rule { rule_of result ≡ table.operand id.entry.now }
    ensures own { result.global ≡ false }
{
    Arg::new(alloc, id).required(true)
}

/// An option `--id VALUE`, with what it is where it isn't there.
fn choice<'a>(alloc: Global, id: &'a str, default: &'a str) -> Arg<'a>
    ensures rule { rule_of result ≡ table.choice id.entry.now default.entry.now }
    ensures own { result.global ≡ false }
{
    Arg::new(alloc, id).long(id).default_value(default)
}

fn with<'a>(command: Command<'a>, arg: Arg<'a>) -> Result<Command<'a>, Memory>
    requires plain { (fields_of command).has_globals ≡ false }
    requires own { arg.global ≡ false }
    ensures shape { IfOk result (λ made. app_of made ≡ with_rule (app_of command.entry) (rule_of arg.entry)) }
    ensures plain { IfOk result (λ made. (fields_of made).has_globals ≡ false) }
{
    Ok(command.arg(arg)?)
}

/// The operands and options of a subcommand that judges what a configuration asks for, behind those that it has.
fn with_options<'a>(alloc: Global, command: Command<'a>) -> Result<Command<'a>, Memory>
    requires plain { (fields_of command).has_globals ≡ false }
    ensures shape { IfOk result (λ made. app_of made ≡ table.with_options (app_of command.entry)) }
    ensures plain { IfOk result (λ made. (fields_of made).has_globals ≡ false) }
{
    let config = with(command, operand(alloc, "cfg"))?;
    let folder = with(config, operand(alloc, "outdir"))?;
    let core = with(folder, choice(alloc, "core", "core"))?;
    let base = with(core, choice(alloc, "basedir", "."))?;
    let budget = with(base, choice(alloc, "budget", "200000"))?;
    with(budget, choice(alloc, "jobs", "1"))
}

fn run<'a>(alloc: Global) -> Result<Command<'a>, Memory>
    ensures shape { IfOk result (λ made. app_of made ≡ table.run) }
    ensures plain { IfOk result (λ made. (fields_of made).has_globals ≡ false) }
{
    let options = with_options(alloc, Command::new(alloc, "run"))?;
    with(options, choice(alloc, "cubes", "0"))
}

fn list<'a>(alloc: Global) -> Result<Command<'a>, Memory>
    ensures shape { IfOk result (λ made. app_of made ≡ table.list) }
    ensures plain { IfOk result (λ made. (fields_of made).has_globals ≡ false) }
{
    with(Command::new(alloc, "list"), operand(alloc, "cfg"))
}

fn lrat<'a>(alloc: Global) -> Result<Command<'a>, Memory>
    ensures shape { IfOk result (λ made. app_of made ≡ table.lrat) }
    ensures plain { IfOk result (λ made. (fields_of made).has_globals ≡ false) }
{
    let clauses = with(Command::new(alloc, "lrat"), operand(alloc, "cnf"))?;
    with(clauses, operand(alloc, "proof"))
}

fn bench<'a>(alloc: Global) -> Result<Command<'a>, Memory>
    ensures shape { IfOk result (λ made. app_of made ≡ table.bench) }
    ensures plain { IfOk result (λ made. (fields_of made).has_globals ≡ false) }
{
    with(Command::new(alloc, "bench"), operand(alloc, "size"))
}

fn cover<'a>(alloc: Global) -> Result<Command<'a>, Memory>
    ensures shape { IfOk result (λ made. app_of made ≡ table.cover) }
    ensures plain { IfOk result (λ made. (fields_of made).has_globals ≡ false) }
{
    with_options(alloc, Command::new(alloc, "cover"))
}

fn zb<'a>(alloc: Global) -> Result<Command<'a>, Memory>
    ensures shape { IfOk result (λ made. app_of made ≡ table.zb) }
    ensures plain { IfOk result (λ made. (fields_of made).has_globals ≡ false) }
{
    with_options(alloc, Command::new(alloc, "zb"))
}

fn induct<'a>(alloc: Global) -> Result<Command<'a>, Memory>
    ensures shape { IfOk result (λ made. app_of made ≡ table.induct) }
    ensures plain { IfOk result (λ made. (fields_of made).has_globals ≡ false) }
{
    let options = with_options(alloc, Command::new(alloc, "induct"))?;
    with(options, choice(alloc, "steps", "1"))
}

fn toaig<'a>(alloc: Global) -> Result<Command<'a>, Memory>
    ensures shape { IfOk result (λ made. app_of made ≡ table.toaig) }
    ensures plain { IfOk result (λ made. (fields_of made).has_globals ≡ false) }
{
    let config = with(Command::new(alloc, "toaig"), operand(alloc, "cfg"))?;
    let check = with(config, operand(alloc, "check"))?;
    let file = with(check, operand(alloc, "file"))?;
    let core = with(file, choice(alloc, "core", "core"))?;
    with(core, choice(alloc, "basedir", "."))
}

fn fromaig<'a>(alloc: Global) -> Result<Command<'a>, Memory>
    ensures shape { IfOk result (λ made. app_of made ≡ table.fromaig) }
    ensures plain { IfOk result (λ made. (fields_of made).has_globals ≡ false) }
{
    let graph = with(Command::new(alloc, "fromaig"), operand(alloc, "aag"))?;
    with(graph, operand(alloc, "cnf"))
}

fn below<'a>(command: Command<'a>, subcommand: Command<'a>) -> Result<Command<'a>, Memory>
    requires { (fields_of subcommand).has_globals ≡ false }
    ensures { IfOk result (λ made. app_of made ≡ with_subcommand (app_of command.entry) (shape_of subcommand.entry)) }
{
    Ok(command.subcommand(subcommand)?)
}

/// The command without subcommands.
fn alone<'a>(alloc: Global) -> Command<'a>
    ensures { app_of result ≡ table.alone }
{
    Command::new(alloc, "rvf")
        .no_binary_name(true)
        .subcommand_required(true)
}

/// The command with its subcommands.
pub(crate) fn program<'a>(alloc: Global) -> Result<Command<'a>, Memory>
    ensures { IfOk result (λ made. app_of made ≡ table.program) }
{
    let checks = below(alone(alloc), run(alloc)?)?;
    let names = below(checks, list(alloc)?)?;
    let proofs = below(names, lrat(alloc)?)?;
    let benches = below(proofs, bench(alloc)?)?;
    let targets = below(benches, cover(alloc)?)?;
    let bits = below(targets, zb(alloc)?)?;
    let lengths = below(bits, induct(alloc)?)?;
    let graphs = below(lengths, toaig(alloc)?)?;
    below(graphs, fromaig(alloc)?)
}
