// The types of a node's variables and of its operands.
ghost use Rattle.std.specs.Prelude.{◌≡◌};
ghost use Rattle.rules.specs.Types.{is_boolean, operand_has, operand_type, type_of, valued as is_valued};
ghost use Rattle.table.specs.Access.{Described};
ghost use Rattle.table.specs.Decoding.{table_of};
ghost use Rattle.table.specs.Syntax.{node_at};

use opset::OperatorSet;
use reader::Outline;
use table::variable;
use words::Operand;

pub fn type_of(words: &[u32], outline: &Outline, k: usize, x: usize) -> u8
    requires { Described words.now outline.now }
    ensures { result ≡ type_of (node_at (table_of words.now) k) x }
{
    variable(words, outline, k, x).ty
}

pub fn is_boolean(words: &[u32], outline: &Outline, k: usize, x: usize) -> bool
    requires { Described words.now outline.now }
    ensures { result ≡ is_boolean (node_at (table_of words.now) k) x }
{
    type_of(words, outline, k, x) == 0
}

/// A literal names its type itself, so it needs no variable of the node.
pub fn operand_type(words: &[u32], outline: &Outline, k: usize, a: Operand) -> u8
    requires { Described words.now outline.now }
    ensures { result ≡ operand_type (node_at (table_of words.now) k) a }
{
    match a {
        Operand::Take(x) => type_of(words, outline, k, x as usize),
        Operand::Literal(l) => l.ty,
    }
}

/// Whether the operand has a value: a literal may have a payload that its type gives none.
pub fn valued<S: OperatorSet>(a: Operand) -> bool
    ensures { result ≡ is_valued S.OperatorSet.meaning a }
{
    match a {
        Operand::Take(_) => true,
        Operand::Literal(l) => S::literal(l.ty, l.payload).is_some(),
    }
}

/// Whether the operand has a value, of this type.
pub fn operand_has<S: OperatorSet>(
    words: &[u32],
    outline: &Outline,
    k: usize,
    a: Operand,
    ty: u8,
) -> bool
    requires { Described words.now outline.now }
    ensures { result ≡ operand_has S.OperatorSet.meaning (node_at (table_of words.now) k) a ty }
{
    valued::<S>(a) && operand_type(words, outline, k, a) == ty
}
