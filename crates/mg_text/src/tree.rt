ghost use Rattle.std.specs.Prelude.{◌≡◌, IfOk};
ghost use Rattle.mg_text.specs.View.{view, fields_view};

use mg_value::MgText;
use std::alloc::{AllocError, Global};
use std::sync::Arc;

/// Fields, in the order of the text. They don't change once they are made, so their owners share them.
pub type FieldList = Arc<Vec<Field>>;

/// The fields of a file or of a message.
#[cycle(tree)]
#[derive(Debug, Drop)]
pub struct Tree {
    pub fields: FieldList,
}

/// A field: its name, and one value. A list stands for fields of one name.
#[cycle(tree)]
#[derive(Debug, Drop)]
pub struct Field {
    pub name: MgText,
    pub value: TreeValue,
}

/// The value of a field: a scalar, or a message, which has fields.
#[cycle(tree)]
#[derive(Debug, Drop)]
pub enum TreeValue {
    Scalar(Scalar),
    Message(Tree),
}

/// A value that is no message. A number keeps its spelling; a quoted text is what its pieces spell, joined.
#[derive(Debug, Drop)]
pub enum Scalar {
    Word(MgText),
    Number(MgText),
    Quoted(MgText),
}

impl Tree {
    /// Returns the tree of fields.
    pub fn new(alloc: Global, fields: Vec<Field>) -> Result<Tree, AllocError>
        ensures { IfOk result (λ tree. view tree ≡ fields_view fields.items) }
    {
        let fields = Arc::new(alloc, fields)?;
        Ok(Tree { fields })
    }

    /// Returns the fields, in the order of the text.
    pub fn as_slice(&self) -> &[Field]
        ensures { fields_view result.now ≡ view self.now }
    {
        self.fields.as_slice()
    }
}
