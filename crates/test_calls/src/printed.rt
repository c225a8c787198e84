//! How trees print for a programmer: part by part as the builders of `fmt` and a derive print trees of the same shape,
//! and however deep they are.
use std::alloc::Global;
use std::fmt::{self, Write};
use std::process::Abort;
use std::test::Fail;
use test_rows::Report;
use yaml_tree::{Array, Hash, Yaml};

/// A tree that leaves its printing to a derive and to builders, which go down its levels by calls.
#[cycle(derived)]
#[derive(Debug, Drop)]
enum Derived {
    Real(String),
    Integer(i64),
    String(String),
    Boolean(bool),
    Array(Items),
    Hash(Pairs),
    Alias(usize),
    Null,
    BadValue,
}

#[cycle(derived)]
#[derive(Drop)]
struct Items {
    items: Vec<Derived>,
}

#[cycle(derived)]
#[derive(Drop)]
struct Pairs {
    // The key and the value of each pair.
    row: Vec<Derived>,
}

impl fmt::Debug for Items {
    #[cycle(derived)]
    fn fmt<W: fmt::Write>(&self, f: &mut fmt::Formatter<W>) -> fmt::Result {
        let mut list = f.debug_list();
        for item in &self.items {
            list.entry(item);
        }
        list.finish()
    }
}

impl fmt::Debug for Pairs {
    #[cycle(derived)]
    fn fmt<W: fmt::Write>(&self, f: &mut fmt::Formatter<W>) -> fmt::Result {
        let mut map = f.debug_map();
        for i in 0..self.row.len() / 2 {
            map.entry(&self.row[2 * i], &self.row[2 * i + 1]);
        }
        map.finish()
    }
}

// The functions below have no contract, so that many trees make no long proof.

/// What a plan makes.
trait Tree: fmt::Debug + Drop + Sized {
    /// A scalar of the kind of this letter.
    fn scalar(alloc: Global, kind: char) -> Result<Self, Fail>;

    fn array(items: Vec<Self>) -> Self;

    /// A hash of keys and values by turns.
    fn hash(alloc: Global, row: Vec<Self>) -> Result<Self, Fail>;
}

const QUOTED: &str = "a \"line\"\nof\ttext é\u{1}";

impl Tree for Yaml {
    fn scalar(alloc: Global, kind: char) -> Result<Yaml, Fail> {
        match kind {
            'r' => Ok(Yaml::Real(String::from_str(alloc, "2.5")?)),
            'i' => Ok(Yaml::Integer(-12)),
            'o' => Ok(Yaml::Integer(1)),
            't' => Ok(Yaml::Integer(2)),
            's' => Ok(Yaml::String(String::from_str(alloc, "text")?)),
            'q' => Ok(Yaml::String(String::from_str(alloc, QUOTED)?)),
            'e' => Ok(Yaml::String(String::new(alloc))),
            'b' => Ok(Yaml::Boolean(true)),
            'a' => Ok(Yaml::Alias(3)),
            'n' => Ok(Yaml::Null),
            _ => Ok(Yaml::BadValue),
        }
    }

    fn array(items: Vec<Yaml>) -> Yaml {
        Yaml::Array(Array::from_vec(items))
    }

    fn hash(alloc: Global, row: Vec<Yaml>) -> Result<Yaml, Fail> {
        let mut row = row;
        row.reverse();
        let mut pairs = Hash::new(alloc);
        for _ in 0..row.len() / 2 {
            let key = row.pop().ok_or("no key")?;
            let value = row.pop().ok_or("no value")?;
            if pairs.insert(key, value).map_err(|_| "no memory")?.is_some() {
                return Err(Fail::from("a key twice"));
            }
        }
        Ok(Yaml::Hash(pairs))
    }
}

impl Tree for Derived {
    fn scalar(alloc: Global, kind: char) -> Result<Derived, Fail> {
        match Yaml::scalar(alloc, kind)? {
            Yaml::Real(text) => Ok(Derived::Real(text)),
            Yaml::Integer(n) => Ok(Derived::Integer(n)),
            Yaml::String(text) => Ok(Derived::String(text)),
            Yaml::Boolean(b) => Ok(Derived::Boolean(b)),
            Yaml::Alias(n) => Ok(Derived::Alias(n)),
            Yaml::Null => Ok(Derived::Null),
            _ => Ok(Derived::BadValue),
        }
    }

    fn array(items: Vec<Derived>) -> Derived {
        Derived::Array(Items { items })
    }

    fn hash(_: Global, row: Vec<Derived>) -> Result<Derived, Fail> {
        Ok(Derived::Hash(Pairs { row }))
    }
}

// The last nodes, up to so many.
fn last_nodes<T: Tree>(alloc: Global, nodes: &mut Vec<T>, count: u32) -> Result<Vec<T>, Fail> {
    let mut row = Vec::new(alloc);
    for _ in 0..count {
        if let Some(node) = nodes.pop() {
            row.push(node)?;
        }
    }
    row.reverse();
    Ok(row)
}

// A hash of a pair of the last two nodes, or without one.
fn pair<T: Tree>(alloc: Global, nodes: &mut Vec<T>) -> Result<T, Fail> {
    let mut row = last_nodes(alloc, nodes, 2)?;
    if row.len() == 1 {
        row.push(T::scalar(alloc, 'n')?)?;
    }
    T::hash(alloc, row)
}

// A hash of two pairs, with the last two nodes as the values of 1 and 2.
fn two_pairs<T: Tree>(alloc: Global, nodes: &mut Vec<T>) -> Result<T, Fail> {
    let mut row = Vec::new(alloc);
    let (second, first) = (nodes.pop(), nodes.pop());
    row.push(T::scalar(alloc, 'o')?)?;
    row.push(first.ok_or("no node")?)?;
    row.push(T::scalar(alloc, 't')?)?;
    row.push(second.ok_or("no node")?)?;
    T::hash(alloc, row)
}

// Does a step of a plan: a digit makes an array of so many of the last nodes, `=` a hash of a pair of the last two, `:`
// one of two pairs, `-` an empty one, and a letter makes a scalar.
fn step<T: Tree>(alloc: Global, nodes: &mut Vec<T>, step: char) -> Result<(), Fail> {
    let node = match step.to_digit(10) {
        Some(count) => T::array(last_nodes(alloc, nodes, count)?),
        None => match step {
            '=' => pair(alloc, nodes)?,
            ':' if nodes.len() >= 2 => two_pairs(alloc, nodes)?,
            '-' => T::hash(alloc, Vec::new(alloc))?,
            kind => T::scalar(alloc, kind)?,
        },
    };
    nodes.push(node)?;
    Ok(())
}

// An array of the nodes that a plan makes.
fn made<T: Tree>(alloc: Global, plan: &str) -> Result<T, Fail> {
    let mut nodes = Vec::new(alloc);
    for letter in plan.chars() {
        step(alloc, &mut nodes, letter)?;
    }
    match nodes.pop() {
        Some(last) if nodes.is_empty() => Ok(last),
        Some(last) => {
            nodes.push(last)?;
            Ok(T::array(nodes))
        }
        None => Ok(T::array(nodes)),
    }
}

// Takes so many parts, marks their ends, and refuses the next one.
#[derive(Drop)]
struct Parts {
    text: String,
    left: u32,
}

impl fmt::Write for Parts {
    fn write_str(&mut self, part: &str) -> fmt::Result {
        match self.left.checked_sub(1) {
            Some(left) => self.left = left,
            None => return Err(fmt::Error),
        }
        self.text.push_str(part).map_err(|_| fmt::Error)?;
        self.text.push('^').map_err(|_| fmt::Error)
    }
}

const FORMS: u32 = 16;

// Writes a tree with some options.
fn write_form<T: fmt::Debug>(out: &mut Parts, tree: &T, form: u32) -> fmt::Result {
    match form {
        0 => write!(out, "{tree:?}"),
        1 => write!(out, "{tree:#?}"),
        2 => write!(out, "{tree:6?}"),
        3 => write!(out, "{tree:#6?}"),
        4 => write!(out, "{tree:é^+30?}"),
        5 => write!(out, "{tree:é^+#30?}"),
        6 => write!(out, "{tree:>06?}"),
        7 => write!(out, "{tree:>#06?}"),
        8 => write!(out, "{tree:*<6.2?}"),
        9 => write!(out, "{tree:*<#6.2?}"),
        10 => write!(out, "{tree:.0?}"),
        11 => write!(out, "{tree:#.0?}"),
        12 => write!(out, "{tree:\n^6?}"),
        13 => write!(out, "{tree:\n^#40?}"),
        14 => write!(out, "{:#?}", [Some(tree), None]),
        _ => write!(out, "{:\n<+#7?}", Some(tree)),
    }
}

// The parts of a tree as it prints with some options, up to so many, and whether these are all.
fn shown<T: fmt::Debug>(alloc: Global, tree: &T, form: u32, left: u32) -> (String, bool) {
    let text = String::new(alloc);
    let mut out = Parts { text, left };
    let is_whole = write_form(&mut out, tree, form).is_ok();
    (out.text, is_whole)
}

// A plan's tree prints as the derive and the builders print it, in the first so many forms.
fn plan_holds(
    alloc: Global,
    report: &mut Report,
    name: &str,
    plan: &str,
    forms: u32,
) -> Result<(), Fail> {
    let tree: Yaml = made(alloc, plan)?;
    let derived: Derived = made(alloc, plan)?;
    for form in 0..forms {
        let (text, is_whole) = shown(alloc, &tree, form, u32::MAX);
        let (wanted, _) = shown(alloc, &derived, form, u32::MAX);
        report.compare(name, plan, text.as_str(), wanted.as_str())?;
        report.check(name, "shown in part", is_whole)?;
    }
    Ok(())
}

/// What it shows; the steps before and after a node that stands so many times in another, and that node's.
type Row = (&'static str, &'static str, &'static str, &'static str);

const ROWS: [Row; 14] = [
    ("an array in another", "", "i", "1"),
    ("an empty array in another", "", "0", "1"),
    ("an empty hash in an array", "", "-", "1"),
    ("scalars around an array", "sq", "r", "b4"),
    ("empty collections around an array", "0-", "a", "0-5"),
    ("arrays around an array", "i1n1", "x", "e12"),
    ("a hash as a value", "s", "n", "="),
    ("an empty hash as a value", "s", "-", "="),
    ("a hash as a key", "", "n", "i="),
    ("an empty array as a key", "", "0", "-="),
    ("a hash in the first value", "", "q", "b:"),
    ("a hash in the last value", "0", "a", ":"),
    ("an array as a key and a value", "n1", "s", "2n="),
    ("a hash as a key, in arrays", "i", "r", "0=1i2"),
];

// With how many levels a tree is shown in all forms, and with how many only without options.
const FEW: [u32; 3] = [0, 1, 2];

const MANY: [u32; 5] = [15, 16, 17, 18, 40];

// The plan of a row with a node so many times in another.
fn plan(alloc: Global, row: &Row, count: u32) -> Result<String, Fail> {
    let (_, before, inmost, after) = row;
    let mut plan = String::new(alloc);
    for _ in 0..count {
        plan.push_str(before)?;
    }
    plan.push_str(inmost)?;
    for _ in 0..count {
        plan.push_str(after)?;
    }
    Ok(plan)
}

fn row_holds(
    alloc: Global,
    report: &mut Report,
    row: &Row,
    counts: &[u32],
    forms: u32,
) -> Result<(), Fail> {
    for count in counts {
        let plan = plan(alloc, row, *count)?;
        plan_holds(alloc, report, row.0, plan.as_str(), forms)?;
    }
    Ok(())
}

#[test]
fn nested_trees_print_as_a_derive_prints_them(rt: HostRuntime) -> Result<(), Fail> {
    let mut report = Report::new(rt.alloc());
    for row in &ROWS {
        row_holds(rt.alloc(), &mut report, row, &FEW, FORMS)?;
        row_holds(rt.alloc(), &mut report, row, &MANY, 2)?;
    }
    assert!(rt; report.is_empty(), "{report}");
    Ok(())
}

const STEPS: &str = "0123000123-==::riotsqeban";

// The plan of this number, of so many steps.
fn random_plan(alloc: Global, number: u64, length: u32) -> Result<String, Fail> {
    let mut plan = String::new(alloc);
    let mut state = number;
    for _ in 0..length {
        state = state
            .wrapping_mul(6_364_136_223_846_793_005)
            .wrapping_add(1_442_695_040_888_963_407);
        let place = (state >> 33) as usize % STEPS.len();
        plan.push(STEPS.chars().nth(place).unwrap_or('x'))?;
    }
    Ok(plan)
}

#[test]
fn any_trees_print_as_a_derive_prints_them(rt: HostRuntime) -> Result<(), Fail> {
    let mut report = Report::new(rt.alloc());
    for number in 0..40 {
        let plan = random_plan(rt.alloc(), number, 24)?;
        plan_holds(
            rt.alloc(),
            &mut report,
            "a random tree",
            plan.as_str(),
            FORMS,
        )?;
    }
    assert!(rt; report.is_empty(), "{report}");
    Ok(())
}

// A writer that refuses has the same parts, wherever it refuses.
fn refusals_hold(alloc: Global, report: &mut Report, plan: &str, form: u32) -> Result<(), Fail> {
    let tree: Yaml = made(alloc, plan)?;
    let derived: Derived = made(alloc, plan)?;
    for left in 0..200 {
        let (text, is_whole) = shown(alloc, &tree, form, left);
        let (wanted, is_wanted_whole) = shown(alloc, &derived, form, left);
        report.compare(plan, "refused", text.as_str(), wanted.as_str())?;
        report.check(plan, "refused", is_whole == is_wanted_whole)?;
    }
    Ok(())
}

#[test]
fn refused_trees_have_the_parts_of_a_derive(rt: HostRuntime) -> Result<(), Fail> {
    let mut report = Report::new(rt.alloc());
    for form in 0..FORMS {
        refusals_hold(rt.alloc(), &mut report, "si=0q1-:n3i1", form)?;
    }
    assert!(rt; report.is_empty(), "{report}");
    Ok(())
}

// Counts bytes.
#[derive(Drop)]
struct Count {
    bytes: usize,
}

impl fmt::Write for Count {
    fn write_str(&mut self, part: &str) -> fmt::Result {
        self.bytes = self.bytes.saturating_add(part.len());
        Ok(())
    }
}

const LEVELS: usize = 300_000;

// How many bytes a node prints that stands so many times in another.
fn deep_length(alloc: Global, after: &str) -> Result<usize, Fail> {
    let mut nodes = Vec::new(alloc);
    nodes.push(Yaml::Null)?;
    for _ in 0..LEVELS {
        for letter in after.chars() {
            step(alloc, &mut nodes, letter)?;
        }
    }
    let tree = nodes.pop().ok_or("no tree")?;
    let mut out = Count { bytes: 0 };
    write!(out, "{tree:?}")?;
    Ok(out.bytes)
}

#[test]
fn trees_deeper_than_the_stack_print(rt: HostRuntime) -> Result<(), Fail> {
    assert_eq!(rt;
        deep_length(rt.alloc(), "1")?,
        4 + LEVELS * "Array([])".len()
    );
    assert_eq!(rt;
        deep_length(rt.alloc(), "n=")?,
        4 + LEVELS * "Hash({: Null})".len()
    );
    Ok(())
}
