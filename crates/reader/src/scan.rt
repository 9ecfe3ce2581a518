// What one more word does to what is read so far.
ghost use Rattle.std.specs.Prelude.{◌≡◌, ◌<◌, set, slice_index, slice_set};
ghost use Rattle.reader.specs.Scanning.{after, begun, behind as behind_of, counts_fit, current as current_of, equation_head, equation_word, equations_read, feed_of, give_word, head_word, is_head, literal_word, may_end, node_word, numbers_fit, onward as onward_of, operand_word, restart_fits, sampler_fits, site_of, start as start_of, variable_word};

use crate::faults::{ReadFault, Site};
use crate::outline::Outline;
use words::{Clock, Ports, clock_in, kind, ports_in, restart_in, spare_bits_zero};

/// What the next word has to be.
#[derive(Clone, Copy)]
pub enum Expect {
    Head,
    Node,
    /// One of so many VARIABLEs that are still to come.
    Variables(u8),
    Equation,
    /// The literal of a DELAY.
    Literal,
    /// One of so many operands that are still to come, before so many GIVEs.
    Operands(u8, u8),
    Gives(u8),
}

/// What is read so far.
#[derive(Drop)]
pub struct Scan {
    pub expect: Expect,
    /// How many variables the node has that is being read.
    pub variables: u8,
    pub outline: Outline,
}

fn count_at(counts: &[u8; 32], node: u8) -> u8
    ensures { result ≡ slice_index counts.now node }
{
    if (node as usize) < 32 {
        counts[node as usize]
    } else {
        0
    }
}

fn note_count(counts: &mut [u8; 32], node: u8, count: u8)
    ensures { counts.new ≡ slice_set counts.old node count }
{
    if (node as usize) < 32 {
        counts[node as usize] = count;
    }
}

fn note_place(places: &mut [u16; 2048], i: usize, at: u16)
    ensures { places.new ≡ slice_set places.old i at }
{
    if i < 2048 {
        places[i] = at;
    }
}

fn is_head(w: u32) -> bool
    ensures { result ≡ is_head w }
{
    kind(w) >= 3 && kind(w) <= 8
}

/// What stands behind an operand, where `more` were to come with it.
fn onward(more: u8, gives: u8) -> Expect
    ensures { result ≡ onward_of more gives }
{
    if more > 1 {
        Expect::Operands(more - 1, gives)
    } else if gives > 0 {
        Expect::Gives(gives)
    } else {
        Expect::Equation
    }
}

impl Scan {
    pub fn start() -> Scan
        ensures { result ≡ start_of }
    {
        let outline = Outline {
            nodes: 0,
            starts: [0; 32],
            inputs: [0; 32],
            outputs: [0; 32],
            equations: [0; 32],
            heads: [0; 2048],
        };
        Scan {
            expect: Expect::Head,
            variables: 0,
            outline,
        }
    }

    /// The number of the node that is being read, 0 before any.
    fn current(&self) -> u8
        ensures { result ≡ current_of self.now }
    {
        self.outline.nodes.saturating_sub(1)
    }

    pub fn site(&self, at: u16) -> Site
        ensures { result ≡ site_of self.now at }
    {
        Site {
            node: self.current(),
            place: at,
        }
    }

    fn head(&mut self, own: u8, at: u16, w: u32) -> Result<(), ReadFault>
        ensures { after result self.new ≡ head_word own self.old at w }
    {
        if kind(w) != 0 {
            return Err(ReadFault::Kind(self.site(at)));
        }
        if !spare_bits_zero(w) {
            return Err(ReadFault::Spare(self.site(at)));
        }
        if w % 0x100 != own as u32 {
            return Err(ReadFault::Set(self.site(at)));
        }
        self.expect = Expect::Node;
        Ok(())
    }

    fn counts_fit(&self, ports: Ports) -> bool
        ensures { result ≡ counts_fit self.now ports }
    {
        let variables = ports.inputs as u16 + ports.outputs as u16 + ports.locals as u16;
        ports.inputs > 0
            && ports.inputs <= 16
            && ports.outputs > 0
            && ports.outputs <= 16
            && variables <= 64
            && self.outline.nodes < 32
    }

    fn node(&mut self, at: u16, w: u32) -> Result<(), ReadFault>
        ensures { after result self.new ≡ node_word self.old at w }
    {
        if kind(w) != 1 {
            return Err(ReadFault::Kind(self.site(at)));
        }
        let own = Site {
            node: self.outline.nodes,
            place: at,
        };
        if !spare_bits_zero(w) {
            return Err(ReadFault::Spare(own));
        }
        let ports = ports_in(w);
        if !self.counts_fit(ports) {
            return Err(ReadFault::Count(own));
        }
        let k = self.outline.nodes as usize;
        self.variables = ports.inputs + ports.outputs + ports.locals;
        self.expect = Expect::Variables(self.variables);
        self.outline.starts[k] = at;
        self.outline.inputs[k] = ports.inputs;
        self.outline.outputs[k] = ports.outputs;
        self.outline.nodes += 1;
        Ok(())
    }

    fn sampler_fits(&self, clock: Clock) -> bool
        ensures { result ≡ sampler_fits self.now clock }
    {
        match clock {
            Clock::Base => true,
            Clock::On(sampler, _) => sampler < self.variables,
        }
    }

    fn variable(&mut self, more: u8, at: u16, w: u32) -> Result<(), ReadFault>
        ensures { after result self.new ≡ variable_word self.old more at w }
    {
        if kind(w) != 2 {
            return Err(ReadFault::Kind(self.site(at)));
        }
        if !spare_bits_zero(w) {
            return Err(ReadFault::Spare(self.site(at)));
        }
        if !self.sampler_fits(clock_in(w)) {
            return Err(ReadFault::Number(self.site(at)));
        }
        self.expect = if more > 1 {
            Expect::Variables(more - 1)
        } else {
            Expect::Equation
        };
        Ok(())
    }

    fn restart_fits(&self, restart: Option<u8>) -> bool
        ensures { result ≡ restart_fits self.now restart }
    {
        match restart {
            Some(r) => r < self.variables,
            None => true,
        }
    }

    fn numbers_fit(&self, w: u32) -> bool
        ensures { result ≡ numbers_fit self.now w }
    {
        let variables = self.variables as u32;
        match kind(w) {
            8 => (w >> 20) % 0x100 < self.current() as u32 && self.restart_fits(restart_in(w)),
            5 | 6 => (w >> 8) % 0x40 < variables && w % 0x40 < variables,
            _ => w % 0x40 < variables,
        }
    }

    fn behind(&self, w: u32) -> Expect
        ensures { result ≡ behind_of self.now w }
    {
        let high = ((w >> 20) % 0x100) as u8;
        match kind(w) {
            3 => Expect::Operands(if high < 128 { 1 } else { 2 }, 0),
            4 => Expect::Operands(1, 0),
            7 => Expect::Literal,
            8 => Expect::Operands(
                count_at(&self.outline.inputs, high),
                count_at(&self.outline.outputs, high),
            ),
            _ => Expect::Operands(2, 0),
        }
    }

    /// Notes an equation whose head stands at `at`, the `e`th of its node.
    fn begin(&mut self, at: u16, e: u8, expect: Expect)
        requires { (e ≡ equations_read self.old) × (e < 64) }
        ensures { self.new ≡ begun self.old at expect }
    {
        let k = self.current();
        note_count(&mut self.outline.equations, k, e + 1);
        note_place(&mut self.outline.heads, 64 * k as usize + e as usize, at);
        self.expect = expect;
    }

    fn equation(&mut self, at: u16, w: u32) -> Result<(), ReadFault>
        ensures { after result self.new ≡ equation_head self.old at w }
    {
        if !is_head(w) {
            return Err(ReadFault::Kind(self.site(at)));
        }
        if !spare_bits_zero(w) {
            return Err(ReadFault::Spare(self.site(at)));
        }
        let e = count_at(&self.outline.equations, self.current());
        if e >= 64 {
            return Err(ReadFault::Count(self.site(at)));
        }
        if !self.numbers_fit(w) {
            return Err(ReadFault::Number(self.site(at)));
        }
        let expect = self.behind(w);
        self.begin(at, e, expect);
        Ok(())
    }

    fn equation_or_end(&mut self, at: u16, w: u32) -> Result<(), ReadFault>
        ensures { after result self.new ≡ equation_word self.old at w }
    {
        if kind(w) != 12 {
            return self.equation(at, w);
        }
        if !spare_bits_zero(w) {
            return Err(ReadFault::Spare(self.site(at)));
        }
        self.expect = Expect::Node;
        Ok(())
    }

    fn literal(&mut self, at: u16, w: u32) -> Result<(), ReadFault>
        ensures { after result self.new ≡ literal_word self.old at w }
    {
        if kind(w) != 10 {
            return Err(ReadFault::Kind(self.site(at)));
        }
        self.expect = Expect::Operands(1, 0);
        Ok(())
    }

    fn operand(&mut self, more: u8, gives: u8, at: u16, w: u32) -> Result<(), ReadFault>
        ensures { after result self.new ≡ operand_word self.old more gives at w }
    {
        if kind(w) != 10 {
            if kind(w) != 9 {
                return Err(ReadFault::Kind(self.site(at)));
            }
            if !spare_bits_zero(w) {
                return Err(ReadFault::Spare(self.site(at)));
            }
            if w % 0x40 >= self.variables as u32 {
                return Err(ReadFault::Number(self.site(at)));
            }
        }
        self.expect = onward(more, gives);
        Ok(())
    }

    fn give(&mut self, more: u8, at: u16, w: u32) -> Result<(), ReadFault>
        ensures { after result self.new ≡ give_word self.old more at w }
    {
        if kind(w) != 11 {
            return Err(ReadFault::Kind(self.site(at)));
        }
        if !spare_bits_zero(w) {
            return Err(ReadFault::Spare(self.site(at)));
        }
        if w % 0x40 >= self.variables as u32 {
            return Err(ReadFault::Number(self.site(at)));
        }
        self.expect = if more > 1 {
            Expect::Gives(more - 1)
        } else {
            Expect::Equation
        };
        Ok(())
    }

    /// What the word at place `at` does to what is read so far, where tables for set `own` are read.
    pub fn feed(&mut self, own: u8, at: u16, w: u32) -> Result<(), ReadFault>
        ensures { after result self.new ≡ feed_of own self.old at w }
    {
        match self.expect {
            Expect::Head => self.head(own, at, w),
            Expect::Node => self.node(at, w),
            Expect::Variables(more) => self.variable(more, at, w),
            Expect::Equation => self.equation_or_end(at, w),
            Expect::Literal => self.literal(at, w),
            Expect::Operands(more, gives) => self.operand(more, gives, at, w),
            Expect::Gives(more) => self.give(more, at, w),
        }
    }

    /// Whether the table may end here.
    pub fn may_end(&self) -> bool
        ensures { result ≡ may_end self.now }
    {
        match self.expect {
            Expect::Node => self.outline.nodes > 0,
            _ => false,
        }
    }
}
