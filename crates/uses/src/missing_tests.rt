use Step::Key;
use std::alloc::Global;
use std::process::Abort;
use std::test::Fail;
use test_rows::Report;
use yaml_loader::marked::load_marked;
use yaml_paths::{Step, marked, read, read_optional, read_or};
use yaml_rust2::{Yaml, YamlLoader};

const PORT: &[Step<'static>] = &[Key("server"), Key("port")];

const HOST: &[Step<'static>] = &[Key("server"), Key("host")];

const TLS: &[Step<'static>] = &[Key("server"), Key("tls")];

// The one document of a text.
fn tree(alloc: Global, text: &str) -> Result<Yaml, Fail> {
    let mut documents = YamlLoader::load_from_str(alloc, text)?;
    Ok(documents.pop().unwrap_or(Yaml::BadValue))
}

// What it shows, a text, and what is said of the port by `read`, by `read_or` with 8080, and by `read_optional`.
type Row = (
    &'static str,
    &'static str,
    &'static str,
    &'static str,
    &'static str,
);

const MISSING: [Row; 5] = [
    (
        "no such key",
        "server: {host: a}",
        "$[\"server\"][\"port\"]: missing",
        "8080",
        "none",
    ),
    (
        "no such section",
        "host: a",
        "$[\"server\"]: missing",
        "8080",
        "none",
    ),
    (
        "an empty section",
        "server:\nhost: a\n",
        "$[\"server\"][\"port\"]: missing",
        "8080",
        "none",
    ),
    (
        "null in place of the section",
        "server: ~",
        "$[\"server\"][\"port\"]: missing",
        "8080",
        "none",
    ),
    (
        "null in place of all",
        "~",
        "$[\"server\"]: missing",
        "8080",
        "none",
    ),
];

// What it shows, a text, and what each of the three says of it.
type Other = (&'static str, &'static str, &'static str);

const OTHERS: [Other; 9] = [
    ("a number", "server: {port: 80}", "80"),
    (
        "a string on the way",
        "server: oops",
        "$[\"server\"]: a string, where a hash is wanted",
    ),
    (
        "an integer on the way",
        "server: 5",
        "$[\"server\"]: an integer, where a hash is wanted",
    ),
    (
        "a real on the way",
        "server: 1.5",
        "$[\"server\"]: a real, where a hash is wanted",
    ),
    (
        "a boolean on the way",
        "server: true",
        "$[\"server\"]: a boolean, where a hash is wanted",
    ),
    (
        "an array on the way",
        "server: [{port: 80}]",
        "$[\"server\"]: an array, where a hash is wanted",
    ),
    (
        "a bad value on the way",
        "server: !!int x",
        "$[\"server\"]: a bad value, where a hash is wanted",
    ),
    (
        "a string in place of all",
        "oops",
        "$: a string, where a hash is wanted",
    ),
    (
        "null at the end",
        "server: {port: ~}",
        "$[\"server\"][\"port\"]: null, where an integer is wanted",
    ),
];

fn read_says(alloc: Global, settings: &Yaml) -> Result<String, Fail> {
    match read::<i64>(settings, PORT) {
        Ok(port) => Ok(format!(in alloc; "{port}")?),
        Err(error) => Ok(format!(in alloc; "{error}")?),
    }
}

fn read_or_says(alloc: Global, settings: &Yaml) -> Result<String, Fail> {
    match read_or(settings, PORT, 8080) {
        Ok(port) => Ok(format!(in alloc; "{port}")?),
        Err(error) => Ok(format!(in alloc; "{error}")?),
    }
}

fn read_optional_says(alloc: Global, settings: &Yaml) -> Result<String, Fail> {
    match read_optional::<i64>(settings, PORT) {
        Ok(Some(port)) => Ok(format!(in alloc; "{port}")?),
        Ok(None) => Ok(String::from_str(alloc, "none")?),
        Err(error) => Ok(format!(in alloc; "{error}")?),
    }
}

// Notes what the three say of a text, where it is something else.
fn note(alloc: Global, report: &mut Report, row: &Row) -> Result<(), Fail> {
    let (name, text, read, or, optional) = row;
    let settings = tree(alloc, text)?;
    report.compare(name, "read", read_says(alloc, &settings)?.as_str(), read)?;
    report.compare(
        name,
        "read_or",
        read_or_says(alloc, &settings)?.as_str(),
        or,
    )?;
    let found = read_optional_says(alloc, &settings)?;
    report.compare(name, "read_optional", found.as_str(), optional)?;
    Ok(())
}

// Of each text is said what its row says. All rows that fail are told.
fn rows_hold(rt: &(impl Abort + AllocGlobal), rows: &[Row]) -> Result<(), Fail> {
    let mut report = Report::new(rt.alloc());
    for row in rows {
        note(rt.alloc(), &mut report, row)?;
    }
    assert!(rt; report.is_empty(), "{report}");
    Ok(())
}

fn others_hold(rt: &(impl Abort + AllocGlobal), rows: &[Other]) -> Result<(), Fail> {
    let mut report = Report::new(rt.alloc());
    for (name, text, said) in rows {
        note(
            rt.alloc(),
            &mut report,
            &(*name, *text, *said, *said, *said),
        )?;
    }
    assert!(rt; report.is_empty(), "{report}");
    Ok(())
}

#[test]
fn what_is_not_there_is_missing(rt: HostRuntime) -> Result<(), Fail> {
    rows_hold(&rt, &MISSING)
}

#[test]
fn what_is_of_another_kind_is_told(rt: HostRuntime) -> Result<(), Fail> {
    others_hold(&rt, &OTHERS)
}

#[test]
fn an_alias_on_the_way_is_told(rt: HostRuntime) -> Result<(), Fail> {
    let alloc = rt.alloc();
    let found = read_or_says(alloc, &Yaml::Alias(1))?;
    assert_eq!(rt; found.as_str(), "$: an alias, where a hash is wanted");
    Ok(())
}

#[test]
fn defaults_have_each_type(rt: HostRuntime) -> Result<(), Fail> {
    let settings = tree(rt.alloc(), "server: {tls: true}")?;
    let Ok(host) = read_or(&settings, HOST, "localhost") else {
        return Err(Fail::from("no host"));
    };
    assert_eq!(rt; host, "localhost");
    let Ok(tls) = read_or(&settings, TLS, false) else {
        return Err(Fail::from("no tls"));
    };
    assert!(rt; tls);
    let Ok(host) = read_optional::<&str>(&settings, HOST) else {
        return Err(Fail::from("no answer"));
    };
    assert!(rt; host.is_none());
    Ok(())
}

#[test]
fn defaults_stand_for_what_is_missing_in_a_text(rt: HostRuntime) -> Result<(), Fail> {
    let documents = load_marked(rt.alloc(), "server: {host: a, tls: ~}")?;
    let root = documents.first().ok_or("no document")?;
    let Ok(host) = marked::read_or(root, HOST, "localhost") else {
        return Err(Fail::from("no host"));
    };
    assert_eq!(rt; host, "a");
    let Ok(port) = marked::read_optional::<i64>(root, PORT) else {
        return Err(Fail::from("no answer"));
    };
    assert_eq!(rt; port, None);
    let Err(error) = marked::read_optional::<bool>(root, TLS) else {
        return Err(Fail::from("a boolean"));
    };
    let text = format!(in rt.alloc(); "{error}")?;
    let want = "line 1, column 24: $[\"server\"][\"tls\"]: null, where a boolean is wanted";
    assert_eq!(rt; text.as_str(), want);
    Ok(())
}
