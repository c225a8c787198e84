//! Definitions of characters, line breaks and positions in a text, and of scalars, tags and directives, from their text alone. There is no code.
#![tactic(auto)]
