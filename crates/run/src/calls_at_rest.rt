// The calls of a run at rest, and the one that opens it.
ghost use Rattle.std.specs.Prelude.{◌≡◌, ◌<◌, ◌≤◌, length, Ok, Err, MatchResult};
ghost use Rattle.execution.specs.Words.{need_at, reset_by};
ghost use Rattle.execution.specs.Sound.{main_in, outputs_in};
ghost use Rattle.calls.specs.Calls.{at_rest, in_instant, BeginsInstant, Opens, Reads, Restarts, reading_of};
ghost use Rattle.calls.specs.Promise.{Promise};
ghost use Rattle.run.specs.Answers.{ended_of};

use crate::bound_code::Code;
use crate::front::{input_count, main_node};
use crate::refusing::{test_moving, test_read, test_set};
use crate::state::{Instant, Rest, Unbegun};
use calls::{Ended, Refusal};
use opset::OperatorSet;
use runner::run_reset;

/// Runs the main node's reset block.
fn reset_main<S: OperatorSet>(code: &Code<'_>, cells: &mut [S::Value])
    requires { need_at code.now.words.now (main_in code.now.words.now) ≤ length cells.old }
    ensures { cells.new ≡ reset_by S.OperatorSet.meaning code.now.words.now (main_in code.now.words.now) cells.old }
{
    let words = code.words();
    run_reset::<S>(words, main_node(words), cells);
}

/// Opens a run of the code in a memory, whatever that holds.
pub fn open<S: OperatorSet>(code: &Code<'_>, cells: &mut [S::Value]) -> Result<Rest, Refusal>
    ensures { Opens S.OperatorSet.meaning S.OperatorSet.numbered code.now.words.now cells.old (ended_of result) cells.new }
{
    test_moving::<S>(code, cells)?;
    reset_main::<S>(code, cells);
    Ok(Rest {
        ended: Ended::Never,
    })
}

/// What an output shows, in a memory that is long enough.
fn reading<S: OperatorSet>(
    code: &Code<'_>,
    cells: &[S::Value],
    ended: Ended,
    output: usize,
) -> Option<S::Value>
    requires room { need_at code.now.words.now (main_in code.now.words.now) ≤ length cells.now }
    requires port { output < outputs_in code.now.words.now }
    ensures { result ≡ reading_of code.now.words.now cells.now ended output }
{
    match ended {
        Ended::ByStep => Some(cells[input_count(code.words()) + output]),
        Ended::Never | Ended::ByPass => None,
    }
}

/// What a reading of an output answers.
fn tested_reading<S: OperatorSet>(
    code: &Code<'_>,
    cells: &[S::Value],
    ended: Ended,
    output: usize,
) -> Result<Option<S::Value>, Refusal>
    ensures { Reads S.OperatorSet.numbered code.now.words.now ended cells.now output result }
{
    test_read::<S>(code, cells, ended, output)?;
    Ok(reading::<S>(code, cells, ended, output))
}

impl Rest {
    /// Begins an instant. Where that is refused the run comes back as it was.
    pub fn begin<S: OperatorSet>(self, code: &Code<'_>) -> Result<Instant, Unbegun>
        ensures { MatchResult result (λ n. BeginsInstant S.OperatorSet.numbered code.now.words.now self.ended (Ok tt) (in_instant n.ended n.offered)) (λ u. BeginsInstant S.OperatorSet.numbered code.now.words.now self.ended (Err u.refusal) (at_rest u.rest.ended)) }
    {
        match test_set::<S>(code) {
            Ok(()) => Ok(Instant {
                ended: self.ended,
                offered: [false; 16],
            }),
            Err(refusal) => Err(Unbegun {
                rest: self,
                refusal,
            }),
        }
    }

    /// Restarts the run: the memory is as after open, and the latest instant is read as before.
    pub fn restart<S: OperatorSet>(
        &self,
        code: &Code<'_>,
        cells: &mut [S::Value],
    ) -> Result<(), Refusal>
        ensures { Restarts S.OperatorSet.meaning S.OperatorSet.numbered code.now.words.now cells.old result cells.new }
    {
        test_moving::<S>(code, cells)?;
        reset_main::<S>(code, cells);
        Ok(())
    }

    /// Output `output` at the latest ended instant: a value after a step, and none after a pass.
    ///
    /// Whatever calls were made of the run since it was opened, with the set that admitted its table: each was refused exactly
    /// when the rules say so, and each reading, this one too, is what the masked streams of the run's history show.
    pub fn read<S: OperatorSet>(
        &self,
        code: &Code<'_>,
        cells: &[S::Value],
        output: usize,
    ) -> Result<Option<S::Value>, Refusal>
        ensures answer { Reads S.OperatorSet.numbered code.now.words.now self.now.ended cells.now output result }
        ensures promise { Promise S.OperatorSet.meaning S.OperatorSet.numbered code.now.words.now }
    {
        tested_reading::<S>(code, cells, self.ended, output)
    }
}
