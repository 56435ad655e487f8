use crate::fault::NameFault;
use crate::grammar;
use mg_value::MgText;
use std::alloc::Global;

/// A port as its text spells it: `name`, `TAG:name` or `TAG:index:name`. The tag of an untagged port is empty, and the
/// index, 0 to 63, is there only if the text spells it.
#[derive(Debug, Drop)]
pub struct Spelling {
    pub tag: MgText,
    pub index: Option<u8>,
    pub name: MgText,
}
