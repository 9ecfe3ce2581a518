// What is wrong with a table, and where.
ghost use Rattle.std.specs.Prelude.{◌≡◌};
ghost use Rattle.reader.specs.Faults.{at_site, report_of};

/// The part of admission that finds a fault.
#[derive(Clone, Copy, PartialEq, Eq, Debug)]
pub enum Layer {
    Reading,
    Rules,
    Order,
    Size,
}

/// A word of the table, and the node it belongs to: that of the last NODE read, 0 before any.
#[derive(Clone, Copy, PartialEq, Eq, Debug)]
pub struct Site {
    pub node: u8,
    pub place: u16,
}

/// Why words are not a table.
#[derive(Clone, Copy, PartialEq, Eq, Debug)]
pub enum ReadFault {
    /// The table is empty or too long.
    Length,
    /// A word of the wrong kind, or none where the table ends early.
    Kind(Site),
    /// A bit that must be zero is not.
    Spare(Site),
    /// The table is written for another operator set.
    Set(Site),
    /// A count is beyond its limits.
    Count(Site),
    /// A variable that the node does not have, or a called node that does not stand before the caller.
    Number(Site),
}

/// A fault as a person sees it: its number, the layer that found it, the node and the place of the word.
#[derive(Clone, Copy, PartialEq, Eq, Debug)]
pub struct Report {
    pub number: u8,
    pub layer: Layer,
    pub node: u8,
    pub place: u16,
}

fn reading(number: u8, site: Site) -> Report
    ensures { result ≡ at_site number site }
{
    Report {
        number,
        layer: Layer::Reading,
        node: site.node,
        place: site.place,
    }
}

impl ReadFault {
    pub fn report(self) -> Report
        ensures { result ≡ report_of self }
    {
        match self {
            ReadFault::Length => reading(1, Site { node: 0, place: 0 }),
            ReadFault::Kind(site) => reading(2, site),
            ReadFault::Spare(site) => reading(3, site),
            ReadFault::Set(site) => reading(4, site),
            ReadFault::Count(site) => reading(5, site),
            ReadFault::Number(site) => reading(6, site),
        }
    }
}
