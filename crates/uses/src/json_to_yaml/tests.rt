use super::to_yaml;
use std::test::Fail;
use yaml_rust2::YamlLoader;

#[test]
fn json_becomes_yaml(rt: HostRuntime) -> Result<(), Fail> {
    let alloc = rt.alloc();
    let json = "{\"a\": [1, 2.5, null], \"b\": \"\\u0041\"}";
    let yaml = to_yaml(alloc, json, true, false)?;
    assert_eq!(rt; yaml.as_str(), "---\na:\n  - 1\n  - 2.5\n  - ~\nb: A");
    assert!(rt;
        YamlLoader::load_from_str(alloc, yaml.as_str())? == YamlLoader::load_from_str(alloc, json)?
    );
    Ok(())
}
