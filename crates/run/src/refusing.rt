// The tests that refuse a call, each by its own refusal.
ghost use Rattle.std.specs.Prelude.{◌≡◌, ◌<◌, false, not, length, slice_index_or};
ghost use Rattle.rules.specs.First.{or_else};
ghost use Rattle.execution.specs.Sound.{input_type, inputs_in, outputs_in};
ghost use Rattle.calls.specs.Calls.{memory_refusal, moving_refusal, offer_refusal, outcome, read_refusal, set_refusal, unless};
ghost use Rattle.calls.specs.declared.refusal.Refusal.TheVariants.{Port as NoPort, Mistyped as WrongType, Twice as Again, Early as TooEarly};

use crate::bound_code::Code;
use crate::front::{input_count, input_type, main_need, output_count, set_of};
use calls::{Ended, Refusal};
use opset::OperatorSet;

/// The set is the one that the code is for.
pub fn test_set<S: OperatorSet>(code: &Code<'_>) -> Result<(), Refusal>
    ensures { result ≡ outcome (set_refusal S.OperatorSet.numbered code.now.words.now) tt }
{
    if set_of(code.words()) == S::set_number() {
        Ok(())
    } else {
        Err(Refusal::Set)
    }
}

/// The memory has as many cells as the main node needs.
pub fn test_memory<V>(code: &Code<'_>, cells: &[V]) -> Result<(), Refusal>
    ensures { result ≡ outcome (memory_refusal code.now.words.now cells.now) tt }
{
    if main_need(code.words()) <= cells.len() {
        Ok(())
    } else {
        Err(Refusal::Memory)
    }
}

/// What open, step and restart test.
pub fn test_moving<S: OperatorSet>(code: &Code<'_>, cells: &[S::Value]) -> Result<(), Refusal>
    ensures { result ≡ outcome (moving_refusal S.OperatorSet.numbered code.now.words.now cells.now) tt }
{
    test_set::<S>(code)?;
    test_memory(code, cells)
}

/// Whether an input was offered a value in this instant.
pub fn was_offered(offered: &[bool; 16], input: usize) -> bool
    ensures { result ≡ slice_index_or offered.now input false }
{
    input < 16 && offered[input]
}

/// The input was not offered a value before, and this one is of its type.
fn test_value<S: OperatorSet>(
    code: &Code<'_>,
    offered: &[bool; 16],
    input: usize,
    value: S::Value,
) -> Result<(), Refusal>
    ensures { result ≡ outcome (or_else (unless (not (slice_index_or offered.now input false)) Again) (unless (S.OperatorSet.meaning.belongs value (input_type code.now.words.now input)) WrongType)) tt }
{
    if was_offered(offered, input) {
        return Err(Refusal::Twice);
    }
    if S::belongs(value, input_type(code.words(), input)) {
        Ok(())
    } else {
        Err(Refusal::Mistyped)
    }
}

/// What an offer of a value to an input tests.
pub fn test_offer<S: OperatorSet>(
    code: &Code<'_>,
    cells: &[S::Value],
    offered: &[bool; 16],
    input: usize,
    value: S::Value,
) -> Result<(), Refusal>
    ensures { result ≡ outcome (offer_refusal S.OperatorSet.meaning S.OperatorSet.numbered code.now.words.now cells.now offered.now input value) tt }
{
    test_moving::<S>(code, cells)?;
    if input >= input_count(code.words()) {
        return Err(Refusal::Port);
    }
    test_value::<S>(code, offered, input, value)
}

/// What a reading of an output tests.
pub fn test_read<S: OperatorSet>(
    code: &Code<'_>,
    cells: &[S::Value],
    ended: Ended,
    output: usize,
) -> Result<(), Refusal>
    ensures { result ≡ outcome (read_refusal S.OperatorSet.numbered code.now.words.now cells.now ended output) tt }
{
    test_set::<S>(code)?;
    if let Ended::Never = ended {
        return Err(Refusal::Early);
    }
    test_memory(code, cells)?;
    if output < output_count(code.words()) {
        Ok(())
    } else {
        Err(Refusal::Port)
    }
}
