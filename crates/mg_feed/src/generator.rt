ghost use Rattle.std.specs.Prelude.{◌≡◌, ◌≤◌, ◌+◌, IfOk, length, min, true};
ghost use Rattle.mg_feed.specs.Graph.{inputs_of};
ghost use Rattle.mg_feed.specs.Generated.{generated, generated_sides};

use crate::input_buffer::InputBuffer;
use mg_calc::{Inputs, Plan};
use std::alloc::{AllocError, Global};

/// Makes a given number of packets for the inputs of a plan's graph, piece by piece, and all its side packets. With them a graph
/// can be tried without a file.
#[derive(Drop)]
pub struct Generator {
    alloc: Global,
    input_buffer: InputBuffer,
    // How many packets there are in all, and how many of them are made.
    number: u32,
    made: u32,
    ghost few: { made ≤ number },
}

impl Generator {
    ghost use Rattle.std.specs.Prelude.{◌≡◌, ◌+◌, ◌==◌, ℕ, IfOk, OnOk, min};
    ghost use Rattle.mg_feed.specs.Graph.{GraphInputs, inputs_of};
    ghost use Rattle.mg_feed.specs.Pieces.{HasHandedOn, IsPiece};
    ghost use Rattle.mg_feed.specs.GeneratorSeen.{making};

    /// Makes a generator of `number` packets. No packet is made yet.
    pub fn new(alloc: Global, plan: &Plan, number: u32) -> Result<Generator, AllocError>
        ensures fresh { IfOk result (λ g. HasHandedOn (inputs_of plan.now) number (making g)) }
        ensures none { IfOk result (λ g. (making g).made ≡ 0) }
    {
        let mut input_buffer = InputBuffer::new(alloc, plan)?;
        input_buffer.give_sides(alloc)?;
        Ok(Generator {
            alloc,
            input_buffer,
            number,
            made: 0,
        })
    }

    /// Makes `most` further packets, or all that are left if these are fewer, and returns them as inputs of the graph. With the
    /// last packet all streams end. An `Err` means out of memory: the generator is then of no further use.
    pub fn next_piece(&mut self, most: u32) -> Result<Inputs, AllocError>
        ensures piece { (graph : GraphInputs) (number : ℕ) → HasHandedOn graph number (making self.old)
            → IfOk result (λ inputs. IsPiece graph (making self.old).made (making self.new).made ((making self.new).made == number) inputs) }
        ensures handed_on { (graph : GraphInputs) (number : ℕ) → HasHandedOn graph number (making self.old) → OnOk result (HasHandedOn graph number (making self.new)) }
        ensures further { OnOk result ((making self.new).made ≡ min ((making self.old).made + most) (making self.old).number) }
    {
        let now = further_by(self.made, most, self.number);
        self.input_buffer.make_packets(self.alloc, self.made, now)?;
        self.made = now;
        let inputs = self
            .input_buffer
            .take_inputs(self.alloc, now == self.number)?;
        Ok(inputs)
    }
}

// Returns `made + most`, or `number` if that is less.
fn further_by(made: u32, most: u32, number: u32) -> u32
    requires { made ≤ number }
    ensures { result ≡ min (made + most) number }
{
    if most < number - made {
        made + most
    } else {
        number
    }
}

/// Makes `number` packets and all side packets for the inputs of a plan's graph, as one piece. All streams end.
pub fn generate(alloc: Global, plan: &Plan, number: u32) -> Result<Inputs, AllocError>
    ensures streams { IfOk result (λ inputs. inputs.streams ≡ generated (inputs_of plan.now).kinds number) }
    ensures sides { IfOk result (λ inputs. inputs.sides ≡ generated_sides (length (inputs_of plan.now).sides)) }
    ensures ended { IfOk result (λ inputs. inputs.ended ≡ true) }
{
    let mut generator = Generator::new(alloc, plan, number)?;
    let inputs = generator.next_piece(number)?;
    Ok(inputs)
}
