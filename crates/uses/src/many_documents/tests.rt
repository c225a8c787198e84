use super::{dumped_in_turn, round_trip_in_turn};
use std::test::Fail;
use yaml_rust2::YamlLoader;

const TREES: &str =
    "---\n- 1\n- [x, \"p\\n\\nq\\n\", ~, true, 2.5]\n---\nk: {z: {}}\n? [a]\n: []\n---\n\"a\\nb\"\n---\nword\n";

#[test]
fn trees_come_back_in_order_in_all_settings(rt: HostRuntime) -> Result<(), Fail> {
    let alloc = rt.alloc();
    let trees = YamlLoader::load_from_str(alloc, TREES)?;
    assert_eq!(rt; trees.len(), 4);
    for compact in [true, false] {
        for multiline in [true, false] {
            let back = round_trip_in_turn(alloc, &trees, compact, multiline)?;
            assert!(rt; back == trees);
        }
    }
    Ok(())
}

#[test]
fn each_text_ends_its_line(rt: HostRuntime) -> Result<(), Fail> {
    let alloc = rt.alloc();
    let trees = YamlLoader::load_from_str(alloc, "--- a\n--- [1]\n")?;
    let text = dumped_in_turn(alloc, &trees, true, false)?;
    assert_eq!(rt; text.as_str(), "---\na\n---\n- 1\n");
    Ok(())
}

#[test]
fn no_trees_are_no_text(rt: HostRuntime) -> Result<(), Fail> {
    let alloc = rt.alloc();
    let none = round_trip_in_turn(alloc, &[], true, false)?;
    assert_eq!(rt; none.len(), 0);
    Ok(())
}
