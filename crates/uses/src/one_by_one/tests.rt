use super::has_other_than_mappings;
use std::test::Fail;

#[test]
fn other_documents_are_found(rt: HostRuntime) -> Result<(), Fail> {
    let alloc = rt.alloc();
    assert!(rt; !has_other_than_mappings(alloc, "")?);
    assert!(rt; !has_other_than_mappings(alloc, "level: info\n---\n{level: error}\n")?);
    assert!(rt; has_other_than_mappings(alloc, "level: info\n---\n- level: error\n--- {}\n")?);
    Ok(())
}

#[test]
fn a_fault_stops_the_log(rt: HostRuntime) -> Result<(), Fail> {
    let Err(fault) = has_other_than_mappings(rt.alloc(), "level: info\n---\n[level\n--- {}\n")
    else {
        return Err(Fail::from("no fault"));
    };
    assert_eq!(rt; fault.marker().line(), 4);
    Ok(())
}
