// Node records: `fifteen-minute deviation,dispatch deviation,fifteen-minute price,dispatch price`.
ghost use Rattle.files.specs.Lines.{node_line, WritableNode};
ghost use Rattle.files.specs.FieldByField.{node_some, one_node};

use crate::fields::{COMMA, NEWLINE, value_before};
use crate::reading::LineText;
use credits::NodeRecord;

impl LineText for NodeRecord {
    ghost line = { node_line };

    ghost writable = { WritableNode };

    ghost some = { λ node. node_some node };

    ghost one = { λ bytes x y r s front front'. one_node bytes x y r s front front' };

    #[tactic(auto, using(crate::specs::FieldByField::node_front))]
    fn read_line(bytes: &[u8]) -> Option<(NodeRecord, &[u8])> {
        let (fifteen_minute_deviation, rest) = value_before(bytes, COMMA)?;
        let (dispatch_deviation, rest) = value_before(rest, COMMA)?;
        let (fifteen_minute_price, rest) = value_before(rest, COMMA)?;
        let (dispatch_price, rest) = value_before(rest, NEWLINE)?;
        let node = NodeRecord {
            fifteen_minute_deviation,
            dispatch_deviation,
            fifteen_minute_price,
            dispatch_price,
        };
        Some((node, rest))
    }
}
