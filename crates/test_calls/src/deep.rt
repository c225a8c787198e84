//! Dumps of deep trees: on both sides of the level from which on a dump is a loop, and far below it.
use std::alloc::Global;
use std::process::Abort;
use std::test::Fail;
use test_rows::Report;
use yaml_emitter::YamlEmitter;
use yaml_loader::YamlLoader;

// How many arrays or hashes stand one in another. The 129th stands at level 128, and is the first that the loop writes. From
// the 145th on it takes memory.
const DEPTHS: [usize; 12] = [1, 2, 3, 126, 127, 128, 129, 130, 131, 145, 146, 200];

// The functions below have no contract, so that many dumps make no long proof.

/// What stands at each level.
#[derive(Clone, Copy)]
enum Shape {
    // `- - x`, and below it `- z` at each level.
    Items,
    // The same with each dash on a line of its own.
    SpreadItems,
    // `a:` on lines one below the other, and below the last `b: z` at each level.
    Values,
    // `? ? x: ~`, and below it `: ~` at each level but the last.
    Keys,
    // The same with each question mark on a line of its own.
    SpreadKeys,
}

const SHAPES: [(&str, Shape); 5] = [
    ("items", Shape::Items),
    ("items, spread", Shape::SpreadItems),
    ("values", Shape::Values),
    ("keys", Shape::Keys),
    ("keys, spread", Shape::SpreadKeys),
];

fn add_times(text: &mut String, part: &str, count: usize) -> Result<(), Fail> {
    'count: for _ in 0..count {
        text.push_str(part)?;
    }
    Ok(())
}

fn add_line(text: &mut String, level: usize, line: &str) -> Result<(), Fail> {
    text.push_str("\n")?;
    add_times(text, "  ", level)?;
    text.push_str(line)?;
    Ok(())
}

// The line at each of so many levels, from the root on.
fn add_down(text: &mut String, levels: usize, line: &str) -> Result<(), Fail> {
    'levels: for level in 0..levels {
        add_line(text, level, line)?;
    }
    Ok(())
}

// The same, back to the root.
fn add_up(text: &mut String, levels: usize, line: &str) -> Result<(), Fail> {
    'levels: for above in 0..levels {
        add_line(text, levels - 1 - above, line)?;
    }
    Ok(())
}

// So many arrays or hashes one in another, in the text that they are dumped to.
fn text_of(alloc: Global, shape: Shape, levels: usize) -> Result<String, Fail> {
    let mut text = String::from_str(alloc, "---")?;
    let last = levels.saturating_sub(1);
    match shape {
        Shape::Items => {
            text.push_str("\n")?;
            add_times(&mut text, "- ", levels)?;
            text.push_str("x")?;
            add_up(&mut text, levels, "- z")?;
        }
        Shape::SpreadItems => {
            add_down(&mut text, last, "-")?;
            add_line(&mut text, last, "- x")?;
            add_up(&mut text, levels, "- z")?;
        }
        Shape::Values => {
            add_down(&mut text, last, "a:")?;
            add_line(&mut text, last, "a: x")?;
            add_up(&mut text, levels, "b: z")?;
        }
        Shape::Keys => {
            text.push_str("\n")?;
            add_times(&mut text, "? ", last)?;
            text.push_str("x: ~")?;
            add_up(&mut text, last, ": ~")?;
        }
        Shape::SpreadKeys => {
            add_down(&mut text, last, "?")?;
            add_line(&mut text, last, "x: ~")?;
            add_up(&mut text, last, ": ~")?;
        }
    }
    Ok(text)
}

// The dump of what a text is loaded as.
fn dumped_again(alloc: Global, shape: Shape, text: &str) -> Result<String, Fail> {
    let mut out = String::new(alloc);
    let Ok(documents) = YamlLoader::load_from_str(alloc, text) else {
        return Ok(out);
    };
    let mut emitter = YamlEmitter::new(&mut out);
    emitter.compact(!matches!(shape, Shape::SpreadItems | Shape::SpreadKeys));
    'documents: for document in &documents {
        if emitter.dump(document).is_err() {
            return Ok(String::new(alloc));
        }
    }
    Ok(out)
}

fn compare_depths(
    report: &mut Report,
    alloc: Global,
    name: &str,
    shape: Shape,
) -> Result<(), Fail> {
    'depths: for levels in DEPTHS {
        let text = text_of(alloc, shape, levels)?;
        let again = dumped_again(alloc, shape, text.as_str())?;
        report.compare(name, "dumped", again.as_str(), text.as_str())?;
    }
    Ok(())
}

fn shapes_hold(rt: &(impl Abort + AllocGlobal)) -> Result<(), Fail> {
    let mut report = Report::new(rt.alloc());
    'shapes: for (name, shape) in SHAPES {
        compare_depths(&mut report, rt.alloc(), name, shape)?;
    }
    assert!(rt; report.is_empty(), "{report}");
    Ok(())
}

#[test]
fn deep_trees_are_dumped(rt: HostRuntime) -> Result<(), Fail> {
    shapes_hold(&rt)
}

// More levels than calls could go down.
const MOST: usize = 300_000;

// Whether arrays in arrays are dumped as the text that they come from.
fn nest_holds(alloc: Global) -> Result<bool, Fail> {
    let mut text = String::from_str(alloc, "---\n")?;
    add_times(&mut text, "- ", MOST)?;
    text.push_str("x")?;
    let again = dumped_again(alloc, Shape::Items, text.as_str())?;
    Ok(again.as_str() == text.as_str())
}

#[test]
fn trees_deeper_than_the_stack_are_dumped(rt: HostRuntime) -> Result<(), Fail> {
    assert!(rt; nest_holds(rt.alloc())?);
    Ok(())
}
