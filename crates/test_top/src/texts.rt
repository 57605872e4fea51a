//! Texts.
use fo_base::{Bytes, is_text};
use std::test::Fail;

#[test]
fn ample(rt: HostRuntime) -> Result<(), Fail> {
    let text = Bytes::copy_of(rt.alloc(), b"glenda")?;
    let copy = text.copy(rt.alloc())?;
    assert_eq!(rt; text.as_slice(), b"glenda".as_slice());
    assert_eq!(rt; copy.as_slice(), b"glenda".as_slice());
    assert_eq!(rt; copy.into_bytes().as_slice(), b"glenda".as_slice());
    Ok(())
}

#[test]
fn texts(rt: HostRuntime) -> Result<(), Fail> {
    assert!(rt; is_text(b""));
    assert!(rt; is_text("gl\u{e9}nda".as_bytes()));
    assert!(rt; !is_text(b"a\0b"));
    assert!(rt; !is_text(&[0xc3, 0x28]));
    Ok(())
}
