use super::examples;
use std::test::Fail;

#[test]
fn calls_give_their_lines(rt: HostRuntime) -> Result<(), Fail> {
    let lines = examples(rt.alloc())?;
    let mut text = String::new(rt.alloc());
    for line in &lines {
        text.push_str(line)?;
        text.push('\n')?;
    }
    assert_eq!(rt; text.as_str(), LINES);
    Ok(())
}

const LINES: &str = r#"ports: [80, 443]
7 scalars, 28 tokens
[Hash({String("a"): Integer(1)})]
["web", "mail"]
---
-
  web:
    ports:
      - 80
      - 443
  mail: true
-
  ftp:
    - 20
    - 21
"#;
