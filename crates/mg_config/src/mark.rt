ghost use Rattle.std.specs.Prelude.{◌≡◌, ◌≢◌, Ok, Err, IfOk, IfErr, map};
ghost use Rattle.mg_text.specs.View.{field_view};
ghost use Rattle.mg_config.specs.Config as config;

use crate::fault::ConfigFault;
use crate::value::text_named;
use mg_names::{NameFault, read_tag_index};
use mg_text::Field;
use mg_value::MgText;
use std::alloc::Global;

/// An input stream of a node that is a back edge (MediaPipe, calculator.proto: InputStreamInfo). The mark has the tag
/// of its port, empty if the port is untagged, and the index, 0 to 63.
#[derive(Debug, Drop)]
pub struct Mark {
    pub tag: MgText,
    pub index: u8,
}

/// Returns the input that an `input_stream_info` names, be it a back edge or not (MediaPipe, calculator.proto: InputStreamInfo).
pub(crate) fn mark_named(alloc: Global, info: &[Field]) -> Result<Mark, ConfigFault>
    ensures ok { IfOk result (λ mark. config.mark_in (map field_view info.now) ≡ Ok mark) }
    ensures err { IfErr result (λ fault. fault ≢ ConfigFault.OutOfMemory → config.mark_in (map field_view info.now) ≡ Err fault) }
{
    let text = text_named(alloc, info, b"tag_index")?;
    match read_tag_index(alloc, text.as_bytes()) {
        Ok((tag, index)) => Ok(Mark { tag, index }),
        Err(NameFault::OutOfMemory) => Err(ConfigFault::OutOfMemory),
        Err(cause) => Err(ConfigFault::BadPort {
            path: MgText::new(alloc, "tag_index")?,
            cause,
        }),
    }
}
