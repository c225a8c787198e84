use super::round_trip;
use std::test::Fail;
use yaml_rust2::YamlLoader;

const TREES: &str =
    "---\n- 1\n- [x, \"p\\n\\nq\\n\", ~, true, 2.5]\n---\nk: {z: {}}\n? [a]\n: []\n";

#[test]
fn trees_come_back_in_all_settings(rt: HostRuntime) -> Result<(), Fail> {
    let alloc = rt.alloc();
    let trees = YamlLoader::load_from_str(alloc, TREES)?;
    for tree in &trees {
        for compact in [true, false] {
            for multiline in [true, false] {
                let back = round_trip(alloc, tree, compact, multiline)?;
                assert_eq!(rt; back.len(), 1);
                assert!(rt; back[0] == *tree);
            }
        }
    }
    Ok(())
}
