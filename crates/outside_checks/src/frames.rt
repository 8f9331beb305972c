// Frames in memory and their maker.
ghost use Rattle.std.specs.Prelude.{◌≡◌};

use cache_frame::{MemFrame, MemFrames};
use cache_outside::{Frame, FrameMaker, OutError};
use std::process::Abort;
use std::test::Fail;

/// Puts a piece into a frame of six bytes through its bound, and reads round it.
fn keeps_a_piece<F: Frame>(rt: &impl Abort, frame: &mut F)
    requires { (F.view frame.old).size ≡ 6 }
    ensures { (F.view frame.new).size ≡ 6 }
{
    assert!(rt; frame.put(2, b"abc").is_ok());
    let mut out = [9; 4];
    assert!(rt; frame.get(1, &mut out).is_ok());
    assert_eq!(rt; out.as_slice(), b"\0abc".as_slice());
    assert!(rt; frame.get(2, &mut out).is_ok());
    assert_eq!(rt; out.as_slice(), b"abc\0".as_slice());
}

#[test]
fn frame_keeps_bytes(rt: HostRuntime) -> Result<(), Fail> {
    let mut frame = MemFrame::new(rt.alloc(), 6)?;
    keeps_a_piece(&rt, &mut frame);
    assert!(rt; frame.put(6, b"").is_ok());
    assert!(rt; frame.get(6, &mut []).is_ok());
    Ok(())
}

#[test]
fn maker_fails_where_listed(rt: HostRuntime) -> Result<(), Fail> {
    let alloc = rt.alloc();
    let mut fails = Vec::new(alloc);
    fails.push(1)?;
    let mut maker = MemFrames::new(alloc, fails);
    assert!(rt; matches!(maker.make(0, 6), Ok(_)));
    assert!(rt; matches!(maker.make(1, 6), Err(OutError::Failed)));
    match maker.make(2, 6) {
        Ok(mut frame) => keeps_a_piece(&rt, &mut frame),
        Err(_) => assert!(rt; false),
    }
    Ok(())
}
