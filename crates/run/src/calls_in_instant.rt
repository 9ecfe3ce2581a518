// The calls of a run in an instant. A step and a pass take the instant, so that it ends however they answer.
ghost use Rattle.std.specs.Prelude.{◌≡◌, ◌≤◌, true, length, slice_set};
ghost use Rattle.execution.specs.Words.{need_at};
ghost use Rattle.execution.specs.Sound.{main_in};
ghost use Rattle.calls.specs.Calls.{at_rest, in_instant, Offers, Passes, Steps, stepped_by};

use crate::bound_code::Code;
use crate::front::main_node;
use crate::inputs::give_defaults;
use crate::refusing::{test_moving, test_offer, test_set};
use crate::state::{Instant, Rest};
use calls::{Ended, Refusal};
use opset::OperatorSet;
use runner::run_step;

/// Marks an input as offered.
fn mark(offered: &mut [bool; 16], input: usize)
    ensures { offered.new ≡ slice_set offered.old input true }
{
    if input < 16 {
        offered[input] = true;
    }
}

/// Gives the inputs that were not offered a value payload 0, and runs the main node's step block.
fn step_main<S: OperatorSet>(code: &Code<'_>, offered: &[bool; 16], cells: &mut [S::Value])
    requires { need_at code.now.words.now (main_in code.now.words.now) ≤ length cells.old }
    ensures { cells.new ≡ stepped_by S.OperatorSet.meaning code.now.words.now offered.now cells.old }
{
    let words = code.words();
    give_defaults::<S>(words, offered, cells);
    run_step::<S>(words, main_node(words), cells);
}

impl Instant {
    /// Offers an input a value for this instant.
    pub fn offer<S: OperatorSet>(
        &mut self,
        code: &Code<'_>,
        cells: &mut [S::Value],
        input: usize,
        value: S::Value,
    ) -> Result<(), Refusal>
        ensures { Offers S.OperatorSet.meaning S.OperatorSet.numbered code.now.words.now self.old.ended self.old.offered cells.old input value result (in_instant self.new.ended self.new.offered) cells.new }
    {
        test_offer::<S>(code, cells, &self.offered, input, value)?;
        mark(&mut self.offered, input);
        cells[input] = value;
        Ok(())
    }

    /// Ends the instant by a step. Where that is refused the instant is given up, and does not count.
    pub fn step<S: OperatorSet>(
        self,
        code: &Code<'_>,
        cells: &mut [S::Value],
    ) -> (Rest, Result<(), Refusal>)
        ensures { Steps S.OperatorSet.meaning S.OperatorSet.numbered code.now.words.now self.ended self.offered cells.old result.1 (at_rest result.0.ended) cells.new }
    {
        let Instant { ended, offered } = self;
        match test_moving::<S>(code, cells) {
            Ok(()) => {
                step_main::<S>(code, &offered, cells);
                (
                    Rest {
                        ended: Ended::ByStep,
                    },
                    Ok(()),
                )
            }
            Err(refusal) => (Rest { ended }, Err(refusal)),
        }
    }

    /// Ends the instant without a step. Where that is refused the instant is given up, and does not count.
    pub fn pass<S: OperatorSet>(self, code: &Code<'_>) -> (Rest, Result<(), Refusal>)
        ensures { Passes S.OperatorSet.numbered code.now.words.now self.ended result.1 (at_rest result.0.ended) }
    {
        let Instant { ended, offered: _ } = self;
        match test_set::<S>(code) {
            Ok(()) => (
                Rest {
                    ended: Ended::ByPass,
                },
                Ok(()),
            ),
            Err(why) => (Rest { ended }, Err(why)),
        }
    }
}
