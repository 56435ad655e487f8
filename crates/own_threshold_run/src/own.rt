ghost use Rattle.std.specs.Prelude.{◌==◌, if◌then◌else◌};
ghost use Rattle.mg_calc.specs.Rules.{no_rules};
ghost use Rattle.own_threshold.specs.Threshold.{threshold_of};

use mg_calc::{Handed, OwnLaws};
use own_threshold::{Threshold, threshold_box};
use std::alloc::{AllocError, Global};

/// This program's own calculators: thresholds, under the number 0.
pub struct Own;

impl OwnLaws for Own {
    ghost laws = { λ number parameters. if number == 0 then threshold_of parameters else no_rules };
}

/// The user-supplied thresholds: for each, how many numbers it looks at, and the limit. Nodes take them in this order.
const THRESHOLDS: [(u32, i64); 3] = [(3, 20), (2, 30), (1, 0)];

/// Returns the boxes of the user-supplied calculators.
pub fn own_boxes(alloc: Global) -> Result<Vec<Handed<Own, Threshold>>, AllocError> {
    let mut boxes = Vec::new(alloc);
    for (n, limit) in THRESHOLDS {
        boxes.push(threshold_box(alloc, 0, n, limit)?)?;
    }
    Ok(boxes)
}
