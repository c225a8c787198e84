//! Where a fault stands, and how many events were given before it: so that both can be looked at where memory is refused.

use std::alloc::Global;
use std::str;
use yaml_rust2::YamlLoader;
use yaml_rust2::parser::{Event, EventReceiver, Parser};
use yaml_rust2::scanner::ScanError;

/// How many events a text gives before its fault, times 2^32, and the index of the character at which the fault stands; or -1
/// where the text has none. The text's characters come one by one.
#[unsafe(no_mangle)]
pub extern "C" fn yamlbench_fault_of_characters(alloc: Global, text: &[u8]) -> i64 {
    let Ok(text) = str::from_utf8(text) else {
        return -1;
    };
    let mut given = Given { events: 0 };
    match Parser::new(alloc, text.chars()).load(&mut given, true) {
        Ok(()) => -1,
        Err(fault) => place_of(given.events, &fault),
    }
}

/// The same of a text in memory.
#[unsafe(no_mangle)]
pub extern "C" fn yamlbench_fault(alloc: Global, text: &[u8]) -> i64 {
    let Ok(text) = str::from_utf8(text) else {
        return -1;
    };
    let mut given = Given { events: 0 };
    match Parser::new_from_str(alloc, text).load(&mut given, true) {
        Ok(()) => -1,
        Err(fault) => place_of(given.events, &fault),
    }
}

/// The index of the character at which the fault of a load stands, or -1 where the text loads.
#[unsafe(no_mangle)]
pub extern "C" fn yamlbench_fault_of_load(alloc: Global, text: &[u8]) -> i64 {
    let Ok(text) = str::from_utf8(text) else {
        return -1;
    };
    match YamlLoader::load_from_str(alloc, text) {
        Ok(_) => -1,
        Err(fault) => place_of(0, &fault),
    }
}

fn place_of(events: u32, fault: &ScanError) -> i64 {
    let index = u64::try_from(fault.marker().index()).unwrap_or(0) % (1 << 32);
    (u64::from(events % (1 << 31)) * (1 << 32) + index) as i64
}

/// Counts events.
#[derive(Drop)]
struct Given {
    events: u32,
}

impl EventReceiver for Given {
    fn on_event(&mut self, _event: Event) -> Result<(), ScanError> {
        self.events = self.events.wrapping_add(1);
        Ok(())
    }
}
