//! Text in lines, as the builders of `fmt` lay it out.
use std::fmt::{self, Alignment, ToDebug, Write};

/// Writes to a formatter what the builders of `fmt` write. Under `{:#?}` each entry has lines of its own, indented by four
/// spaces for each level. The builders change a formatter's level for a call only, so here it is counted anew.
#[derive(Drop)]
pub(crate) struct Lines<'a, W> {
    formatter: &'a mut fmt::Formatter<W>,
    level: usize,
    at_line_start: bool,
}

impl<W: fmt::Write> fmt::Write for Lines<'_, W> {
    fn write_str(&mut self, text: &str) -> fmt::Result {
        if self.level == 0 {
            return self.formatter.write_str(text);
        }
        for line in text.split_inclusive('\n') {
            self.write_line(line)?;
        }
        Ok(())
    }
}

impl<'a, W: fmt::Write> Lines<'a, W> {
    pub(crate) fn new(formatter: &'a mut fmt::Formatter<W>) -> Lines<'a, W> {
        Lines {
            formatter,
            level: 0,
            at_line_start: false,
        }
    }

    // Writes a line, or a part of one.
    fn write_line(&mut self, line: &str) -> fmt::Result {
        if self.at_line_start {
            self.formatter.write_repeated("    ", self.level)?;
        }
        self.at_line_start = line.ends_with('\n');
        self.formatter.write_str(line)
    }

    /// Writes the bracket before the entries of a list or a map.
    pub(crate) fn begin_entries(&mut self, bracket: &str, is_empty: bool) -> fmt::Result {
        self.write_str(bracket)?;
        if is_empty || !self.formatter.alternate() {
            return Ok(());
        }
        self.write_str("\n")
    }

    /// Goes to where an entry begins.
    pub(crate) fn begin_entry(&mut self) {
        if self.formatter.alternate() {
            self.level = self.level.saturating_add(1);
            self.at_line_start = true;
        }
    }

    /// Writes what stands behind an entry.
    pub(crate) fn end_entry(&mut self, is_last: bool) -> fmt::Result {
        if self.formatter.alternate() {
            self.write_str(",\n")?;
            self.level = self.level.saturating_sub(1);
            return Ok(());
        }
        if is_last {
            return Ok(());
        }
        self.write_str(", ")
    }

    /// Writes a variant's name, and goes to where its value begins.
    pub(crate) fn begin_variant(&mut self, name: &str) -> fmt::Result {
        self.write_str(name)?;
        let bracket = if self.formatter.alternate() {
            "(\n"
        } else {
            "("
        };
        self.write_str(bracket)?;
        self.begin_entry();
        Ok(())
    }

    /// Writes what stands behind a variant's value.
    pub(crate) fn end_variant(&mut self) -> fmt::Result {
        self.end_entry(true)?;
        self.write_str(")")
    }

    /// Writes a variant.
    pub(crate) fn write_variant<T: fmt::Debug>(&mut self, name: &str, value: &T) -> fmt::Result {
        self.begin_variant(name)?;
        self.write_value(value)?;
        self.end_variant()
    }

    // Writes a value with the formatter's options. Under `{:#?}` its text comes back here, since line breaks may be what it
    // is filled up with.
    fn write_value<T: fmt::Debug>(&mut self, value: &T) -> fmt::Result {
        let formatter = &mut *self.formatter;
        if !formatter.alternate() {
            return value.fmt(formatter);
        }
        let value = value.debug().alternate().fill(formatter.fill());
        let value = match formatter.align() {
            Some(Alignment::Left) => value.left(),
            Some(Alignment::Center) => value.center(),
            Some(Alignment::Right) => value.right(),
            None => value,
        };
        let value = if formatter.sign_plus() {
            value.plus()
        } else {
            value
        };
        let value = if formatter.sign_aware_zero_pad() {
            value.zero()
        } else {
            value
        };
        let width = formatter.width().unwrap_or(0);
        let precision = formatter.precision().unwrap_or(usize::MAX);
        self.write(value.width(width).precision(precision))
    }
}
