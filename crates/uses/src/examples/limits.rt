use std::test::Fail;
use yaml_loader::limits::{
    LimitedDocuments, Limits, LimitsError, load_marked_with_limits, load_with_limits,
};

#[test]
fn a_text_is_loaded_within_limits(rt: HostRuntime) -> Result<(), Fail> {
    let alloc = rt.alloc();
    let text = "- &a [x, y]\n- *a\n";
    match load_with_limits(alloc, text, Limits::for_text(text)) {
        Ok(documents) => assert_eq!(rt; documents.len(), 1), // what `load_from_str` gives
        Err(error) => match &error {
            LimitsError::Scan(fault) => println!(rt; "no YAML: {fault}")?,
            LimitsError::Levels(position) => println!(rt; "too deep in line {}", position.line())?,
            LimitsError::Size(position) => println!(rt; "too large in line {}", position.line())?,
        },
    }
    Ok(())
}

#[test]
fn a_text_is_loaded_with_positions_within_limits(rt: HostRuntime) -> Result<(), Fail> {
    let alloc = rt.alloc();
    let text = "host: a\nport: none\n";
    let documents = load_marked_with_limits(alloc, text, Limits::for_text(text))?;
    let document = documents.first().ok_or("no document")?;
    let port = document.get_key("port").ok_or("no port")?;
    assert_eq!(rt; (port.marker().line(), port.marker().col()), (2, 6));
    Ok(())
}

#[test]
fn documents_come_one_by_one_within_limits(rt: HostRuntime) -> Result<(), Fail> {
    let alloc = rt.alloc();
    let limits = Limits {
        levels: 8,
        size: 1000,
    };
    let mut errors = 0_u64;
    for document in LimitedDocuments::new(alloc, "level: info\n---\nlevel: error\n", limits) {
        let document = document?;
        let level = document.get_key("level").and_then(|level| level.as_str());
        if level == Some("error") {
            errors = errors.saturating_add(1);
        }
    }
    assert_eq!(rt; errors, 1);
    Ok(())
}
