use std::test::Fail;
use yaml_loader::documents::Documents;

#[test]
fn documents_come_one_by_one(rt: HostRuntime) -> Result<(), Fail> {
    let alloc = rt.alloc();
    let mut errors = 0_u64;
    for document in Documents::new(alloc, "level: info\n---\nlevel: error\n") {
        let document = document?;
        let level = document.get_key("level").and_then(|level| level.as_str());
        if level == Some("error") {
            errors = errors.saturating_add(1);
        }
    }
    assert_eq!(rt; errors, 1);
    Ok(())
}

#[test]
fn documents_before_a_fault_are_given(rt: HostRuntime) -> Result<(), Fail> {
    let alloc = rt.alloc();
    let mut documents = Documents::from_iter(alloc, "a\n--- b\n---\n{c: 1, c: 2}\n--- d\n".chars());
    assert!(rt; documents.next().is_some_and(|first| first.is_ok()));
    assert!(rt; documents.next().is_some_and(|second| second.is_ok()));
    assert!(rt; documents.next().is_some_and(|third| third.is_err()));
    assert!(rt; documents.next().is_none());
    assert!(rt; documents.next().is_none());
    Ok(())
}
