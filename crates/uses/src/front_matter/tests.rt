use super::split_page;
use std::alloc::Global;
use std::test::Fail;
use test_rows::Report;

// What it shows, a page, the title in its front matter, and the rest; no title, where there is no front matter.
const ROWS: [(&str, &str, Option<&str>, &str); 9] = [
    (
        "a page with front matter",
        "---\ntitle: Tea\n---\nPour.\n---\n",
        Some("Tea"),
        "Pour.\n---\n",
    ),
    (
        "its lines end in CR LF",
        "---\r\ntitle: Tea\r\n---\r\nPour.\r\n",
        Some("Tea"),
        "Pour.\r\n",
    ),
    (
        "the second line `---` ends in CR LF alone",
        "---\ntitle: Tea\n---\r\nPour.\n---\n",
        Some("Tea"),
        "Pour.\n---\n",
    ),
    (
        "a line that begins with `---` and goes on",
        "---\ntitle: Tea\n---- : y\n---\n",
        Some("Tea"),
        "",
    ),
    ("no settings", "---\n---\nPour.\n", Some("-"), "Pour.\n"),
    ("no first line `---`", "title: Tea\n---\nPour.\n", None, ""),
    ("no line `---` at all", "Pour.\n", None, ""),
    ("no second line `---`", "---\ntitle: Tea\n", None, ""),
    ("an empty page", "", None, ""),
];

// The title in a page's front matter, and the rest; `-` stands for a title that is missing.
fn told(alloc: Global, text: &str) -> Result<String, Fail> {
    let Some(page) = split_page(alloc, text)? else {
        return Ok(String::from_str(alloc, "no front matter")?);
    };
    let settings = page.front.first().ok_or("no document")?;
    let title = match settings.get_key("title") {
        Some(title) => title.as_str().ok_or("no text")?,
        None => "-",
    };
    shown(alloc, title, page.rest)
}

fn shown(alloc: Global, title: &str, rest: &str) -> Result<String, Fail> {
    Ok(format!(in alloc; "title {title}, rest {rest}")?)
}

// What is wanted of a page.
fn wanted(alloc: Global, title: Option<&str>, rest: &str) -> Result<String, Fail> {
    match title {
        Some(title) => shown(alloc, title, rest),
        None => Ok(String::from_str(alloc, "no front matter")?),
    }
}

#[test]
fn pages_are_split(rt: HostRuntime) -> Result<(), Fail> {
    let mut report = Report::new(rt.alloc());
    for (name, text, title, rest) in ROWS {
        let found = told(rt.alloc(), text)?;
        let want = wanted(rt.alloc(), title, rest)?;
        report.compare(name, "split", found.as_str(), want.as_str())?;
    }
    assert!(rt; report.is_empty(), "{report}");
    Ok(())
}

#[test]
fn faults_have_the_lines_of_the_page(rt: HostRuntime) -> Result<(), Fail> {
    let Err(fault) = split_page(rt.alloc(), "---\ntitle: Tea\nsteps: [\n---\nPour.\n") else {
        return Err(Fail::from("no fault"));
    };
    assert_eq!(rt; fault.marker().line(), 4);
    Ok(())
}

#[test]
fn a_page_comes_from_bytes(rt: HostRuntime) -> Result<(), Fail> {
    let alloc = rt.alloc();
    let bytes = Vec::from_array(alloc, *b"---\ntitle: Tea\n---\nPour.\n")?;
    let text = String::from_utf8(bytes).map_err(|_| "no UTF-8")?;
    let page = split_page(alloc, text.as_str())?.ok_or("no front matter")?;
    assert_eq!(rt; page.rest, "Pour.\n");
    Ok(())
}
