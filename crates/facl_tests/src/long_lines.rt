//! Lines, and lines of texts, of the most bytes and of one more.

use crate::texts::NOTHING;
use facl::{Status, run};
use facl_script::{StdFeed, StdSink};
use std::test::Fail;

/// The most bytes of a line.
const LIMIT: usize = 65_536;

#[test]
fn lines_over_the_limit_are_refused(rt: HostRuntime) -> Result<(), Fail> {
    let comment = vec![in rt.alloc(); b'#'; LIMIT]?;
    let mut script = Vec::new(rt.alloc());
    script.extend_from_slice(&comment)?;
    script.extend_from_slice(b"\n#")?;
    script.extend_from_slice(&comment)?;
    script.extend_from_slice(b"\nload passwd\n")?;
    script.extend_from_slice(&comment)?;
    script.extend_from_slice(b"\n.\nload group\n#")?;
    script.extend_from_slice(&comment)?;
    script.extend_from_slice(b"\n.\n")?;
    let mut err = Vec::new(rt.alloc());
    let status = run(
        rt.alloc(),
        &NOTHING,
        &mut StdFeed::new(script.as_slice()),
        &mut StdSink::new(&mut Vec::new(rt.alloc())),
        &mut StdSink::new(&mut err),
    );
    assert!(rt; status.ok() == Some(Status::Refused));
    let wanted = b"line 2: facl: line too long\nline 6: facl: text line too long\n";
    assert!(rt; err.as_slice() == wanted.as_slice());
    Ok(())
}
