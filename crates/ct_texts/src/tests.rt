//! A text of each kind.
use super::*;
use rv_machine::{Record, Touch};
use std::test::Fail;

#[test]
fn spells_each_kind(rt: HostRuntime) -> Result<(), Fail> {
    let mut text = String::new(rt.alloc());
    push_word(&mut text, 0x00a7_87b3)?;
    text.push(' ')?;
    push_bytes(&mut text, &[])?;
    text.push(' ')?;
    push_bytes(&mut text, &[0x07, 0xff])?;
    for (touch, next) in [
        (Touch::Nothing, Some(0x0001_005c)),
        (Touch::Load(0xffff_fffe), None),
        (Touch::Store(16), Some(0)),
    ] {
        text.push(' ')?;
        push_record(&mut text, Record { pc: 0, touch, next })?;
    }
    assert_eq!(rt;
        text.as_str(),
        "00a787b3 - 07ff touch - next 0x0001005c touch load 0xfffffffe next - \
         touch store 0x00000010 next 0x00000000"
    );
    Ok(())
}
