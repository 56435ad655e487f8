use mg_value::{BlockList, MgText, Payload};
use std::marker::Model;
use std::sync::Arc;

/// Where a side packet comes from.
#[derive(Debug, Drop)]
pub enum SideValue {
    /// From the caller: the place among the side packets that the caller gives.
    Given(u32),
    /// From the graph itself, with this payload.
    Fixed(Arc<Payload>),
}

/// A side packet of a graph.
#[derive(Debug, Drop)]
pub struct Side {
    pub name: MgText,
    pub value: SideValue,
}

impl Model for Side {
    ghost use Rattle.mg_calc.specs.Side.{PlainSide};
    ghost use Rattle.mg_calc.specs.Codes.{side_code};

    ghost Value = { PlainSide };

    ghost coded = { side_code };

    ghost use Rattle.mg_calc.specs.SideView.{side_view};

    ghost view = { side_view };
}

/// Side packets in order.
pub type SideList = BlockList<Side>;
