// Prints the report on a run sheet that it reads from standard input. Ends with status 1 where the sheet is
// refused. Uses `report` and the standard library.
#![tactic(auto)]

use anyhow::anyhow;
use std::io::Read;

fn main(rt: HostRuntime) -> anyhow::Result<()> {
    let mut bytes = Vec::new(rt.alloc());
    rt.stdin().read_to_end(&mut bytes)?;
    let report = report::report(rt.alloc(), &bytes)?;
    rt.print(report.text)?;
    if report.accepted {
        return Ok(());
    }
    Err(anyhow!("the sheet is refused"))
}
