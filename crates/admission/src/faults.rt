// Why a table is not admitted: the faults of the layers below, each whole.
ghost use Rattle.std.specs.Prelude.{◌≡◌};
ghost use Rattle.admission.specs.Faults.{admission_report, layered, rule_report};
ghost use Rattle.admission.specs.declared.faults.Fault.TheVariants.{Reading as Reads, Rules as Breaks, Order as Circles, Size as Exceeds};

use reader::{Layer, ReadFault, Report, Site};

/// A node offends against a rule.
#[derive(Clone, Copy)]
pub enum RuleFault {
    Types(Site),
    Clocks(Site),
    Definitions(Site),
}

/// A node's equations have no order.
#[derive(Clone, Copy)]
pub enum OrderFault {
    NoOrder(Site),
}

/// A node needs more cells than there may be.
#[derive(Clone, Copy)]
pub enum SizeFault {
    Need(Site),
}

/// Why a table is not admitted.
#[derive(Clone, Copy)]
pub enum Fault {
    Reading(ReadFault),
    Rules(RuleFault),
    Order(OrderFault),
    Size(SizeFault),
}

impl From<ReadFault> for Fault {
    ghost from_gives = { λ f r. r ≡ Reads f };

    fn from(fault: ReadFault) -> Fault {
        Fault::Reading(fault)
    }
}

impl From<RuleFault> for Fault {
    ghost from_gives = { λ f r. r ≡ Breaks f };

    fn from(fault: RuleFault) -> Fault {
        Fault::Rules(fault)
    }
}

impl From<OrderFault> for Fault {
    ghost from_gives = { λ f r. r ≡ Circles f };

    fn from(fault: OrderFault) -> Fault {
        Fault::Order(fault)
    }
}

impl From<SizeFault> for Fault {
    ghost from_gives = { λ f r. r ≡ Exceeds f };

    fn from(fault: SizeFault) -> Fault {
        Fault::Size(fault)
    }
}

fn layered(number: u8, layer: Layer, site: Site) -> Report
    ensures { result ≡ layered number layer site }
{
    Report {
        number,
        layer,
        node: site.node,
        place: site.place,
    }
}

fn rule_report(fault: RuleFault) -> Report
    ensures { result ≡ rule_report fault }
{
    match fault {
        RuleFault::Types(site) => layered(7, Layer::Rules, site),
        RuleFault::Clocks(site) => layered(8, Layer::Rules, site),
        RuleFault::Definitions(site) => layered(9, Layer::Rules, site),
    }
}

impl Fault {
    /// The fault's number, layer, node and place.
    pub fn report(self) -> Report
        ensures { result ≡ admission_report self }
    {
        match self {
            Fault::Reading(fault) => fault.report(),
            Fault::Rules(fault) => rule_report(fault),
            Fault::Order(OrderFault::NoOrder(site)) => layered(10, Layer::Order, site),
            Fault::Size(SizeFault::Need(site)) => layered(11, Layer::Size, site),
        }
    }
}
