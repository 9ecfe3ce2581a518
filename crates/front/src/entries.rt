// The front of a table's code: HEAD, where each node's blocks begin and what it needs, and the ports of the main node.
ghost use Rattle.std.specs.Prelude.{◌<◌, ◌≤◌, length, slice_index};
ghost use Rattle.words.specs.Bits.{field};
ghost use Rattle.table.specs.Access.{Described};
ghost use Rattle.table.specs.Decoding.{table_of};
ghost use Rattle.admission.specs.Planned.{Planned};
ghost use Rattle.code.specs.Code.{first_values, main_of};
ghost use Rattle.pieces.specs.Holding.{Adds, Holds};
ghost use Rattle.front.specs.Fronted.{front_piece, index_piece, ports_piece};
ghost use Rattle.blocks.specs.Places.{PlacesOf};

use admission::Plan;
use blocks::Places;
use instructions::CodeWord;
use pieces::Piece;
use reader::Outline;
use table::{input_count, output_count, variable, word_at};
use words::{Literal, Operand};

/// Adds where the blocks of node `k` begin, and what it needs. The code is short enough for its places to fit.
fn push_index(piece: &mut Piece, words: &[u32], plan: &Plan, places: &Places, k: usize)
    requires planned { Planned words.now plan.now }
    requires node { k < length (table_of words.now) }
    requires places { PlacesOf (table_of words.now) places.now }
    requires short { places.now.length ≤ 16384 }
    requires room { piece.old.len ≤ 61 }
    ensures { Adds piece.old piece.new (index_piece (table_of words.now) k) }
{
    piece.push(CodeWord::ResetAt(places.resets[k] as u16));
    piece.push(CodeWord::StepAt(places.steps[k] as u16));
    piece.push(CodeWord::Need(plan.needs[k]));
}

/// Adds payload 0 in the type of each input of the main node.
fn push_first_values(piece: &mut Piece, words: &[u32], outline: &Outline)
    requires described { Described words.now outline.now }
    requires room { piece.old.len ≤ 48 }
    ensures { Adds piece.old piece.new (first_values (main_of (table_of words.now)) (main_of (table_of words.now)).inputs) }
{
    let main = outline.nodes as usize - 1;
    'inputs: for x in 0..input_count(words, outline, main) {
        let ty = variable(words, outline, main, x).ty;
        piece.push(CodeWord::Operand(Operand::Literal(Literal { ty, payload: 0 })));
    }
}

/// Adds the main node's ports, and first values for its inputs.
fn push_ports(piece: &mut Piece, words: &[u32], outline: &Outline)
    requires described { Described words.now outline.now }
    requires room { piece.old.len ≤ 47 }
    ensures { Adds piece.old piece.new (ports_piece (table_of words.now)) }
{
    let main = outline.nodes as usize - 1;
    let inputs = input_count(words, outline, main) as u8;
    let outputs = output_count(words, outline, main) as u8;
    piece.push(CodeWord::Ports(inputs, outputs));
    push_first_values(piece, words, outline);
}

/// Piece `j` of the front.
pub fn front_piece(words: &[u32], plan: &Plan, places: &Places, j: usize) -> Piece
    requires planned { Planned words.now plan.now }
    requires places { PlacesOf (table_of words.now) places.now }
    requires short { places.now.length ≤ 16384 }
    ensures { Holds result (front_piece (field (slice_index words.now 0) 0 8) (table_of words.now) j) }
{
    let nodes = plan.outline.nodes;
    let mut piece = Piece::new();
    if j < 1 {
        let set = (word_at(words, 0) % 0x100) as u8;
        piece.push(CodeWord::Head(nodes, set));
    } else if j - 1 < nodes as usize {
        push_index(&mut piece, words, plan, places, j - 1);
    } else {
        push_ports(&mut piece, words, &plan.outline);
    }
    piece
}
