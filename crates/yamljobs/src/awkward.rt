//! Awkward texts.

use crate::maker::Maker;
use crate::words::FOREIGN;
use std::alloc::AllocError;

/// Keys that come in no order: so many, each once.
pub fn put_shuffled_keys(file: &mut Maker, count: u64) -> Result<(), AllocError> {
    let first = file.below(1_000_003);
    for step in 0..count {
        // 7919 is prime to 1,000,003, so no key comes twice.
        let key = first.wrapping_add(step.wrapping_mul(7919)) % 1_000_003;
        file.put("key ")?;
        file.put_number(key)?;
        file.put(": ")?;
        file.put_number(step)?;
        file.put("\n")?;
    }
    Ok(())
}

/// Brackets, so many levels in each of so many lines.
pub fn put_deep_flow(file: &mut Maker, lines: u64, levels: u64) -> Result<(), AllocError> {
    for _ in 0..lines {
        file.put("- ")?;
        for _ in 0..levels {
            file.put("[")?;
        }
        file.name()?;
        for _ in 0..levels {
            file.put("]")?;
        }
        file.put("\n")?;
    }
    Ok(())
}

/// Long texts in other scripts, plain and quoted, over several lines.
pub fn put_foreign_texts(file: &mut Maker, count: u64) -> Result<(), AllocError> {
    for _ in 0..count {
        let quote = if file.below(2) == 0 { "\"" } else { "" };
        file.put("- ")?;
        file.put(quote)?;
        for _ in 0..6 {
            file.pick(FOREIGN)?;
            file.put("\n  ")?;
            file.pick(FOREIGN)?;
            file.put(" ")?;
        }
        file.name()?;
        file.put(quote)?;
        file.put("\n")?;
    }
    Ok(())
}

/// Comments and empty lines alone.
pub fn put_comments(file: &mut Maker, count: u64) -> Result<(), AllocError> {
    for line in 0..count {
        file.put(if line % 3 == 0 { "  # " } else { "# " })?;
        file.phrase()?;
        file.put(if line % 5 == 0 { "\n\n" } else { "\n" })?;
    }
    Ok(())
}

/// Pairs whose lines end with CR LF.
pub fn put_carriage_returns(file: &mut Maker, count: u64) -> Result<(), AllocError> {
    for line in 0..count {
        file.put("- ")?;
        file.name()?;
        file.put(": ")?;
        file.phrase()?;
        file.put("\r\n  number: ")?;
        file.put_number(line)?;
        file.put("\r\n")?;
    }
    Ok(())
}

/// Anchors with two aliases each.
pub fn put_anchors(file: &mut Maker, count: u64) -> Result<(), AllocError> {
    for line in 0..count {
        file.put("- &a")?;
        file.put_number(line)?;
        file.put(" {x: ")?;
        file.number(1000)?;
        file.put(", y: ")?;
        file.name()?;
        file.put("}\n- [*a")?;
        file.put_number(line)?;
        file.put(", *a")?;
        file.put_number(line / 2)?;
        file.put("]\n")?;
    }
    Ok(())
}
