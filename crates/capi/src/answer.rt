// What reading a table answers, as numbers that cross to C and Rust.
ghost use Rattle.std.specs.Prelude.{◌≡◌};
ghost use Rattle.reader.specs.Whole.{scan_of};
ghost use Rattle.capi.specs.Answers.{answered, layer_number, refused};

use opset::OperatorSet;
use reader::{Layer, Report};

/// The number of a fault, 0 for none; the nodes of a table without one; the fault's layer, 1 to 4, node and place.
#[derive(Clone, Copy)]
pub struct Answer {
    pub number: u32,
    pub nodes: u32,
    pub layer: u32,
    pub node: u32,
    pub place: u32,
}

fn layer_number(layer: Layer) -> u32
    ensures { result ≡ layer_number layer }
{
    match layer {
        Layer::Reading => 1,
        Layer::Rules => 2,
        Layer::Order => 3,
        Layer::Size => 4,
    }
}

fn refusal(report: Report) -> Answer
    ensures { result ≡ refused report }
{
    Answer {
        number: report.number as u32,
        nodes: 0,
        layer: layer_number(report.layer),
        node: report.node as u32,
        place: report.place as u32,
    }
}

/// What the words are as a table for the set `S`.
pub fn read_for<S: OperatorSet>(words: &[u32]) -> Answer
    ensures { result ≡ answered (scan_of S.OperatorSet.numbered words.now) }
{
    match table::read::<S>(words) {
        Ok(outline) => Answer {
            number: 0,
            nodes: outline.nodes as u32,
            layer: 0,
            node: 0,
            place: 0,
        },
        Err(fault) => refusal(fault.report()),
    }
}
