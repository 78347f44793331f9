// Reports on a sheet of links and on bytes that are refused.
use report::report;
use std::test::Fail;

// Two locations, two processes, a READ, an LL, an SC and a SNAPSHOT: the header, the initial values, the four
// operations, the script.
const LINKS: [u8; 147] = *b"\
    \x01\x02\x02\x00\x02\x00\x09\x00\x18\x00\x00\x00\x28\x00\x00\x00\x8a\x00\x00\x00\x93\x00\x00\x00\
    \x00\x00\x00\x00\x00\x00\x00\x00\x07\x00\x00\x00\x00\x00\x00\x00\
    \x01\x00\x01\x00\x00\x00\x00\x00\x00\x00\x00\x00\x00\x00\x00\x00\x00\x00\x00\x00\x00\x00\
    \x02\x01\x01\x00\x00\x00\x00\x00\x00\x00\x00\x00\x01\x00\x00\x00\x00\x00\x00\x00\x00\x00\
    \x03\x01\x01\x00\x06\x00\x00\x00\x00\x00\x00\x00\x01\x00\x00\x00\x00\x00\x00\x00\x00\x00\
    \x04\x00\x02\x00\x00\x00\x00\x00\x00\x00\x00\x00\x00\x00\x00\x00\x00\x00\x00\x00\x00\x00\x01\x00\x00\x00\x00\x00\x00\x00\x00\x00\
    \xff\x00\xff\x01\xff\x01\xff\x00\x00";

const DESCRIBED: &str = "run sheet, 147 bytes
version 1, kind 2, 2 locations, 2 processes, 9 script items
initial values
  location 0: code 0
  location 1: code 7
operations
  1: process 0, READ 0
  2: process 1, LL 1
  3: process 1, SC 1, new 6
  4: process 0, SNAPSHOT 0 1
schedule
  1: start operation 1
  2: step process 0
  3: start operation 2
  4: step process 1
  5: start operation 3
  6: step process 1
  7: start operation 4
  8: step process 0
  9: step process 0
written again, 147 bytes: the same
";

#[test]
fn links_are_described(rt: HostRuntime) -> Result<(), Fail> {
    let report = report(rt.alloc(), &LINKS)?;
    assert!(rt; report.accepted);
    assert_eq!(rt; report.text.as_str(), DESCRIBED);
    Ok(())
}

#[test]
fn short_bytes_are_refused(rt: HostRuntime) -> Result<(), Fail> {
    let report = report(rt.alloc(), &[1, 1, 2])?;
    assert!(rt; !report.accepted);
    assert_eq!(rt;
        report.text.as_str(),
        "refused: layer 3, number 20, place 3: the sheet is shorter than its header or not as long as it says\n"
    );
    Ok(())
}
