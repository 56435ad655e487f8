//! The ports that the fields of a name spell.
ghost use Rattle.std.specs.Prelude.{◌≡◌, ◌≢◌, Ok, Err, IfOk, IfErr, map};
ghost use Rattle.mg_text.specs.View.{field_view};
ghost use Rattle.mg_names.specs.Ports.{placed_ports_of};
ghost use Rattle.mg_config.specs.Values.{texts_in};
ghost use Rattle.mg_config.specs.Config as config;

use crate::fault::ConfigFault;
use crate::path::numbered;
use crate::value::{has_name, lent_text};
use mg_names::{PlacedFault, PortMap, PortReader};
use mg_text::Field;
use mg_value::MgText;
use std::alloc::{AllocError, Global};

/// Returns the fault of the texts that the fields of a name have. The path of one text's fault has the field's number.
/// The path of the whole list's fault has no number.
fn port_fault(alloc: Global, name: &str, fault: PlacedFault) -> Result<ConfigFault, AllocError>
    ensures { IfOk result (λ made. made ≡ config.port_fault name.now fault) }
{
    let fault = match fault {
        PlacedFault::At { place, cause } => ConfigFault::BadPort {
            path: numbered(alloc, name, place)?,
            cause,
        },
        PlacedFault::Whole { cause } => ConfigFault::BadPort {
            path: MgText::new(alloc, name)?,
            cause,
        },
        PlacedFault::OutOfMemory => ConfigFault::OutOfMemory,
    };
    Ok(fault)
}

/// Reads the ports of the fields of a name, one text after another.
fn read_named(alloc: Global, fields: &[Field], name: &[u8]) -> Result<PortMap, PlacedFault>
    ensures ok { IfOk result (λ ports. placed_ports_of (texts_in name.now (map field_view fields.now)) ≡ Ok ports) }
    ensures err { IfErr result (λ fault. fault ≢ PlacedFault.OutOfMemory → placed_ports_of (texts_in name.now (map field_view fields.now)) ≡ Err fault) }
{
    let mut reader = PortReader::new(alloc);
    for field in fields {
        if !has_name(field, name) {
            continue;
        }
        reader.read(alloc, lent_text(&field.value))?;
    }
    let ports = reader.ports(alloc)?;
    Ok(ports)
}

/// Returns the ports that the fields of a name spell.
pub fn ports_named(alloc: Global, fields: &[Field], name: &str) -> Result<PortMap, ConfigFault>
    ensures ok { IfOk result (λ ports. config.ports_in name.now (map field_view fields.now) ≡ Ok ports) }
    ensures err { IfErr result (λ fault. fault ≢ ConfigFault.OutOfMemory → config.ports_in name.now (map field_view fields.now) ≡ Err fault) }
{
    match read_named(alloc, fields, name.as_bytes()) {
        Ok(ports) => Ok(ports),
        Err(fault) => Err(port_fault(alloc, name, fault)?),
    }
}

/// The ports of a graph or a node that come in, and those that go out: its streams, or its side packets.
#[derive(Drop)]
pub struct PortPair {
    pub inputs: PortMap,
    pub outputs: PortMap,
}

/// Returns the ports that the fields of two names spell, those that come in and those that go out.
pub fn pair_named(
    alloc: Global,
    fields: &[Field],
    input: &str,
    output: &str,
) -> Result<PortPair, ConfigFault>
    ensures ok { IfOk result (λ pair. config.pair_in input.now output.now (map field_view fields.now) ≡ Ok pair) }
    ensures err { IfErr result (λ fault. fault ≢ ConfigFault.OutOfMemory → config.pair_in input.now output.now (map field_view fields.now) ≡ Err fault) }
{
    let inputs = ports_named(alloc, fields, input)?;
    let outputs = ports_named(alloc, fields, output)?;
    Ok(PortPair { inputs, outputs })
}
