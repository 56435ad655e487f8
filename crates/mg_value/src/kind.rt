ghost use Rattle.std.specs.Prelude.{◌≡◌, ◌↔◌, IsTrue};
ghost use Rattle.mg_value.specs.Payload.{plain};
ghost use Rattle.mg_value.specs.Kind.{kind_of as its_kind, HasKind};

use crate::Payload;

/// What a port takes: any payload, or the payloads of one kind (MediaPipe, packet types).
#[derive(Clone, Copy, Debug, PartialEq, Eq)]
pub enum Kind {
    Any,
    Flag,
    Int,
    Text,
    Items,
    Record,
}

/// Returns whether a payload is of a kind: each payload is of the kind Any.
pub fn has_kind(payload: &Payload, kind: Kind) -> bool
    ensures { IsTrue result ↔ HasKind (plain payload.now) kind }
{
    kind == Kind::Any || kind == kind_of(payload)
}

// Returns the kind of a payload, other than Any.
fn kind_of(payload: &Payload) -> Kind
    ensures { result ≡ its_kind (plain payload.now) }
{
    match payload {
        Payload::Flag(_) => Kind::Flag,
        Payload::Int(_) => Kind::Int,
        Payload::Text(_) => Kind::Text,
        Payload::Items(_) => Kind::Items,
        Payload::Record(_) => Kind::Record,
    }
}
