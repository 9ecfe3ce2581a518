// Worked examples of masked streams, over the integers.
#![tactic(auto)]

ghost use Rattle.meaning_examples.specs.Examples.{Examples};

pub fn examples_stand() -> u8
    ensures { Examples }
{
    0
}
