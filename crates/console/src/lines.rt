//! Single lines.

ghost use Rattle.std.specs.Prelude.{Some};
ghost use Rattle.console.specs.Lines.{refusal_line, delivery_line};

use bundles::Delivery;
use std::fmt;
use stores::StoreFault;

/// A refusal with its number, layer and reason: `refused 9 by store: the store does not hold the key`.
#[derive(Clone, Copy)]
pub struct RefusalLine(pub StoreFault);

impl fmt::Display for RefusalLine {
    ghost output = { λ x. Some (refusal_line x.0) };

    fn fmt<W: fmt::Write>(&self, f: &mut fmt::Formatter<W>) -> fmt::Result {
        let RefusalLine(fault) = self;
        write!(
            f,
            "refused {} by {}: {fault}",
            fault.number(),
            fault.layer()
        )
    }
}

/// A delivery with its unit and its pages: `delivery 7, thousands, 2 pages`.
#[derive(Clone, Copy)]
pub struct DeliveryLine(pub Delivery);

impl fmt::Display for DeliveryLine {
    ghost output = { λ x. Some (delivery_line x.0.number.0 x.0.unit x.0.pages) };

    fn fmt<W: fmt::Write>(&self, f: &mut fmt::Formatter<W>) -> fmt::Result {
        let DeliveryLine(delivery) = self;
        write!(
            f,
            "delivery {}, {}, {} pages",
            delivery.number, delivery.unit, delivery.pages
        )
    }
}
