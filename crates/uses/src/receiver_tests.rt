use super::anchors::anchor_numbers;
use super::strangers::load_from_stranger;
use std::test::Fail;
use yaml_loader::limits::LimitsError;

const TEXT: &str = "- &a [x, &b y]\n- *a\n- &a z\n- *a\n";

#[test]
fn anchors_are_numbered_as_they_come(rt: HostRuntime) -> Result<(), Fail> {
    let numbers = anchor_numbers(rt.alloc(), TEXT)?;
    assert!(rt; numbers.as_slice() == [1, 2, 3].as_slice());
    Ok(())
}

#[test]
fn faults_come_within_limits(rt: HostRuntime) -> Result<(), Fail> {
    let Err(LimitsError::Scan(fault)) = load_from_stranger(rt.alloc(), "a: 1\na: 2\n", 10) else {
        return Err(Fail::from("a key twice"));
    };
    assert_eq!(rt; fault.info(), "String(\"a\"): duplicated key in mapping");
    Ok(())
}
