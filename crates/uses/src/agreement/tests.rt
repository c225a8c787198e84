use super::load_both_ways;
use std::test::Fail;

#[test]
fn both_ways_give_the_same_documents(rt: HostRuntime) -> Result<(), Fail> {
    let answers = load_both_ways(rt.alloc(), "a: [1, two]\n--- |\n text\n");
    let (one, other) = (answers.one?, answers.other?);
    assert_eq!(rt; one.len(), 2);
    for (document, same) in one.iter().zip(other.iter()) {
        assert!(rt; *document == *same);
    }
    Ok(())
}

#[test]
fn both_ways_refuse_the_same_text(rt: HostRuntime) -> Result<(), Fail> {
    let answers = load_both_ways(rt.alloc(), "a: [1, two");
    assert!(rt; answers.one.is_err());
    assert!(rt; answers.other.is_err());
    Ok(())
}
