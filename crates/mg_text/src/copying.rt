//! Copies of trees, and of what is in them. A copy stands for what the original stands for, and belongs to the caller. The
//! fields of a message aren't copied, but shared.
ghost use Rattle.std.specs.Prelude.{◌≡◌, IfOk};
ghost use Rattle.mg_text.specs.View.{view, field_view, value_view, scalar_view};

use crate::tree::{Field, Scalar, Tree, TreeValue};
use std::alloc::{AllocError, Global};
use std::sync::Arc;

impl Scalar {
    /// Returns a copy of the scalar. If memory runs out, the error leaves nothing behind.
    pub fn try_clone(&self, alloc: Global) -> Result<Scalar, AllocError>
        ensures { IfOk result (λ copy. scalar_view copy ≡ scalar_view self.now) }
    {
        match self {
            Scalar::Word(text) => Ok(Scalar::Word(text.try_clone(alloc)?)),
            Scalar::Number(text) => Ok(Scalar::Number(text.try_clone(alloc)?)),
            Scalar::Quoted(text) => Ok(Scalar::Quoted(text.try_clone(alloc)?)),
        }
    }
}

impl TreeValue {
    /// Returns a copy of the value. The fields of a message are shared. If memory runs out, or the owners of a message
    /// overflow their count, the error leaves nothing behind.
    pub fn try_clone(&self, alloc: Global) -> Result<TreeValue, AllocError>
        ensures { IfOk result (λ copy. value_view copy ≡ value_view self.now) }
    {
        match self {
            TreeValue::Scalar(scalar) => Ok(TreeValue::Scalar(scalar.try_clone(alloc)?)),
            TreeValue::Message(tree) => Ok(TreeValue::Message(tree.try_clone()?)),
        }
    }
}

impl Field {
    /// Returns a copy of the field. If memory runs out, or the owners of a message overflow their count, the error leaves nothing behind.
    pub fn try_clone(&self, alloc: Global) -> Result<Field, AllocError>
        ensures { IfOk result (λ copy. field_view copy ≡ field_view self.now) }
    {
        let name = self.name.try_clone(alloc)?;
        let value = self.value.try_clone(alloc)?;
        Ok(Field { name, value })
    }
}

impl Tree {
    /// Returns another owner of the same fields, which are shared and not copied. If more owners would overflow their
    /// count, the error leaves nothing behind.
    pub fn try_clone(&self) -> Result<Tree, AllocError>
        ensures { IfOk result (λ copy. view copy ≡ view self.now) }
    {
        let fields = Arc::try_clone(&self.fields)?;
        Ok(Tree { fields })
    }
}
