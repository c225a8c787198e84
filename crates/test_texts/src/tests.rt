//! A module for each subject.
mod at_limits;
mod before_faults;
mod blocks;
mod decoding;
mod documents;
mod dumping;
mod faults;
mod flow;
mod json;
mod json_at_once;
mod layouts;
mod limits;
mod properties;
mod reading;
mod scalars;
