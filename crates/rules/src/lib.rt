// The rules of types, clocks and definitions.
#![tactic(auto)]
