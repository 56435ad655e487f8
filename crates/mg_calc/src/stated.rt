ghost use Rattle.std.specs.Prelude.{◌≡◌, ◌∷◌, ◌++◌, [], IsTrue, IfOk, OnOk};
ghost use Rattle.mg_calc.specs.declared.law.Law.TheVariants.{Stated};
ghost use Rattle.mg_calc.specs.Own.{is_own_shape};
ghost use Rattle.mg_calc.specs.Shape.{ports as its_ports};
ghost use Rattle.mg_calc.specs.Told.{in_box};

use crate::{Calculator, Handed, Law, OwnLaws, PortKind, PortKindList, State};
use mg_value::{Kind, MgText};
use std::alloc::{AllocError, Global};

impl<W: OwnLaws, C: Calculator> Handed<W, C> {
    /// Puts a calculator of an author's own into a box. The program has its rules under a number, with these parameters, and its law
    /// promises the offset of its shape.
    pub fn stated(calculator: C, number: u32, parameters: State) -> Handed<W, C>
        requires rules { W.laws number parameters ≡ (C.told calculator).rules }
        requires shape { IsTrue (is_own_shape (C.told calculator).shape) }
        ensures { result ≡ in_box (Stated number parameters (C.told calculator).shape.offset) (C.told calculator) }
    {
        let offset = calculator.shape().offset;
        let law = Law::Stated {
            number,
            parameters,
            offset,
        };
        Handed::of_law(calculator, law)
    }
}

/// Returns a number of ports of a tag and a kind, with indexes from 0 on. The empty tag is none.
pub fn ports(alloc: Global, tag: &str, count: u8, kind: Kind) -> Result<PortKindList, AllocError>
    ensures { IfOk result (λ list. list ≡ its_ports tag.now count kind) }
{
    let mut list = Vec::new(alloc);
    for index in 0..count {
        put_port(alloc, &mut list, tag, index, kind)?;
    }
    Ok(PortKindList::from_vec(list)?)
}

fn put_port(
    alloc: Global,
    list: &mut Vec<PortKind>,
    tag: &str,
    index: u8,
    kind: Kind,
) -> Result<(), AllocError>
    ensures { OnOk result (list.new.items ≡ list.old.items ++ record { tag = tag.now; index = index; kind = kind } ∷ []) }
{
    let tag = MgText::new(alloc, tag)?;
    list.push(PortKind { tag, index, kind })?;
    Ok(())
}
