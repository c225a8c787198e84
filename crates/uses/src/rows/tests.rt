use super::has_row;
use std::test::Fail;

#[test]
fn texts_with_tokens_have_a_row(rt: HostRuntime) -> Result<(), Fail> {
    assert!(rt; has_row(rt.alloc(), "a: [1, two]\n")?);
    assert!(rt; has_row(rt.alloc(), "")?);
    Ok(())
}

#[test]
fn texts_with_a_fault_have_none(rt: HostRuntime) -> Result<(), Fail> {
    assert!(rt; !has_row(rt.alloc(), "a: @\n")?);
    assert!(rt; !has_row(rt.alloc(), "'a")?);
    Ok(())
}
