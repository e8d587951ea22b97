#![tactic(auto, unfolding(crate::specs::Extents::prefix_size))]

use crate::Arena;
use std::test::Fail;

const FIRST: &[u8; 16] = b"abcdefghijklmnop";

const SECOND: &[u8; 16] = b"ABCDEFGHIJKLMNOP";

#[test]
fn extents_are_reused_and_die(rt: HostRuntime) -> Result<(), Fail> {
    let mut arena = Arena::new(rt.alloc());
    arena.reserve(51)?;
    assert_eq!(rt; arena.size(), 51);
    assert_eq!(rt; arena.append(FIRST), 1);
    assert_eq!(rt; arena.image(), b"\x10abcdefghijklmnop".as_slice());
    assert_eq!(rt; arena.append(SECOND), 18);
    assert_eq!(rt; arena.append(FIRST), 35);
    assert_eq!(rt; arena.text_at(18, 16), SECOND.as_slice());
    arena.kill(18);
    assert_eq!(rt; (arena.cursor(), arena.live()), (51, 34));
    arena.kill(35);
    assert_eq!(rt; (arena.cursor(), arena.live()), (17, 17));
    assert_eq!(rt; arena.image(), b"\x10abcdefghijklmnop".as_slice());
    Ok(())
}

#[test]
fn a_long_capacity_is_a_word(rt: HostRuntime) -> Result<(), Fail> {
    let mut arena = Arena::new(rt.alloc());
    arena.reserve(520)?;
    assert_eq!(rt; arena.append(&[b'x'; 255]), 1);
    assert_eq!(rt; arena.append(&[b'y'; 256]), 264);
    assert_eq!(rt; arena.cursor(), 520);
    let image = arena.image();
    assert_eq!(rt; image.len(), 520);
    assert_eq!(rt; image[0], 0xff);
    let prefix = &image[256..264];
    assert_eq!(rt; prefix, [0, 1, 0, 0, 0, 0, 0, 0].as_slice());
    Ok(())
}

#[test]
fn reuse_keeps_the_capacity(rt: HostRuntime) -> Result<(), Fail> {
    let mut arena = Arena::new(rt.alloc());
    arena.reserve(25)?;
    assert_eq!(rt; arena.append(b"abcdefghijklmnopqrstuvwx"), 1);
    arena.reuse(1, SECOND);
    assert_eq!(rt; arena.capacity_at(1), 24);
    assert_eq!(rt; arena.text_at(1, 16), SECOND.as_slice());
    assert_eq!(rt; arena.bytes_at(1, 18), b"ABCDEFGHIJKLMNOP\0\0".as_slice());
    assert_eq!(rt;
        arena.image(),
        b"\x18ABCDEFGHIJKLMNOP\0\0\0\0\0\0\0\0".as_slice()
    );
    Ok(())
}

#[test]
fn the_buffer_grows_by_a_quarter_at_least(rt: HostRuntime) -> Result<(), Fail> {
    let mut arena = Arena::new(rt.alloc());
    arena.reserve(100)?;
    assert_eq!(rt; arena.append(&[b'x'; 99]), 1);
    arena.reserve(20)?;
    assert_eq!(rt; arena.size(), 125);
    arena.reserve(25)?;
    assert_eq!(rt; arena.size(), 125);
    arena.reserve(100)?;
    assert_eq!(rt; arena.size(), 200);
    Ok(())
}
