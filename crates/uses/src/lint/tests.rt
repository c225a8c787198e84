use super::lint;
use std::test::Fail;

const TEXT: &str = "debug: on\n\"mail\": 'on'\nports: &p [80, 443]\nmore: *p\nlast:\n";

const NOTES: &str = "line 1, column 8: this is a string, not a truth value
line 4, column 7: this is loaded as a copy
line 6, column 1: nothing is written here, which is null
";

#[test]
fn notes_come_with_their_positions(rt: HostRuntime) -> Result<(), Fail> {
    let alloc = rt.alloc();
    let mut lines = String::new(alloc);
    for note in &lint(alloc, TEXT)? {
        lines.push_str(note)?;
        lines.push('\n')?;
    }
    assert_eq!(rt; lines.as_str(), NOTES);
    assert!(rt; lint(alloc, "[on").is_err());
    Ok(())
}
