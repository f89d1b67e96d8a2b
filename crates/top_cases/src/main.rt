//! Runs the top call on the cases of standard input, and prints what each run put and how it ended.
#![tactic(auto)]

use anyhow::Result;
use top_answers::Bench;

fn main(rt: HostRuntime) -> Result<()> {
    let alloc = rt.alloc();
    let mut bench = Bench::new(alloc);
    for line in rt.lines(alloc) {
        if let Some(asked) = bench.take(line?.as_str())? {
            let told = bench.run(&rt, &asked)?;
            print!(rt; "{told}")?;
        }
    }
    Ok(())
}
