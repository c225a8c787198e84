//! Laws of the definitions and of the positions of nodes, each the contract of an empty function.

ghost use Rattle.defs_event.specs.Laws.{TokensAreReadInOneWay, StreamsHaveOneReading, NestingTestIsExact, StreamEventsAreNested, NestedEventsAreReadOneByOne, MultiLoadPushesAllEvents, LoadedTreesHaveNoAlias, LoadedTreesHaveDistinctKeys, LoadedIntegersHave64Bits};
ghost use Rattle.defs_event.specs.MarkLaws.{MarksFitTheirTrees};

/// The token grammar reads a list of tokens in at most one way.
#[tactic(auto, using(crate::proofs::OneReading::read_in_one_way))]
pub fn tokens_are_read_in_one_way()
    ensures { TokensAreReadInOneWay }
{}

/// The tokens of a stream have one list of events.
pub fn streams_have_one_reading()
    ensures { StreamsHaveOneReading }
{}

/// The events of every stream are nested.
pub fn stream_events_are_nested()
    ensures { StreamEventsAreNested }
{}

/// The test of nesting holds of nested events and of no others.
#[tactic(auto, using(crate::proofs::NestedTest::test_is_exact))]
pub fn nesting_test_is_exact()
    ensures { NestingTestIsExact }
{}

/// No tree that a loader makes from events has an alias in it.
pub fn loaded_trees_have_no_alias()
    ensures { LoadedTreesHaveNoAlias }
{}

/// The integers in the trees that a loader makes from events have 64 bits.
pub fn loaded_integers_have_64_bits()
    ensures { LoadedIntegersHave64Bits }
{}

/// No hash in the trees that a loader makes from events has a key twice.
pub fn loaded_trees_have_distinct_keys()
    ensures { LoadedTreesHaveDistinctKeys }
{}

/// If a loader takes nested events one by one, it has the documents that they are read as, or has noted the key that
/// comes twice.
#[tactic(auto, using(crate::proofs::OneByOne::one_by_one))]
pub fn nested_events_are_read_one_by_one()
    ensures { NestedEventsAreReadOneByOne }
{}

/// With `multi`, one call of `load` pushes all events of a finished run, each once and in order.
pub fn multi_load_pushes_all_events()
    ensures { MultiLoadPushesAllEvents }
{}

/// The marks that events give have the parts that the trees have which the same events are read as.
#[tactic(auto, using(crate::proofs::InStep::marks_fit))]
pub fn marks_fit_their_trees()
    ensures { MarksFitTheirTrees }
{}
