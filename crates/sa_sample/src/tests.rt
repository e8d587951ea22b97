use crate::sample;
use std::test::Fail;

/// The first calls of a sample, as they were drawn by hand: the generator's first values from 0 are 74,
/// 5624, 28652, 51790, 17641 and 12409.
#[test]
fn first_lines_of_sample_0(rt: HostRuntime) -> Result<(), Fail> {
    let bytes = sample(rt.alloc(), 0)?;
    let text = str::from_utf8(bytes.as_slice())?;
    let mut lines = text.lines();
    assert_eq!(rt; lines.next(), Some("descr d0 absent coerce"));
    assert_eq!(rt; lines.nth(10), Some("array n3 d3 int 64"));
    assert_eq!(rt; lines.next(), Some("task"));
    assert_eq!(rt; lines.next(), Some("copy a0[9,15,1] into a0[25,15,1]"));
    Ok(())
}
