// What running code does, as definitions: statements, words, and which words can be run untested.
#![tactic(auto)]

ghost use Rattle.execution.specs.Sound.{Sound};
ghost use Rattle.execution.specs.Statements.{table_blocks};
