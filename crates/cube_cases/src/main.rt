//! Cases of cubes, one a line of standard input, as `cube_answers` reads them: each is answered by a line. Lines that
//! begin with `#` are no cases, nor are blank ones.
#![tactic(auto)]

use anyhow::Result;
use cube_answers::answer;

fn main(rt: HostRuntime) -> Result<()> {
    let alloc = rt.alloc();
    for line in rt.lines(alloc) {
        let line = line?;
        if !line.is_empty() && !line.starts_with('#') {
            let answer = answer(&rt, alloc, line.as_str())?;
            println!(rt; "{answer}")?;
        }
    }
    Ok(())
}
