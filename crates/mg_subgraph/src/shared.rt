//! The names at the ports of files, and the check that no name stands at two ports of a file.
ghost use Rattle.std.specs.Prelude.{◌≡◌, ◌≢◌, ℕ, ◌+◌, ◌<◌, ◌^◌, ◌++◌, List, None, Some, IfOk, IfErr, OnOk, map, option_map, option_copied, length, slice_get};
ghost use Rattle.mg_config.specs.Config.{graph_view};
ghost use Rattle.mg_subgraph.specs.Code.Index.{IsIndex};
ghost use Rattle.mg_subgraph.specs.Code.Judged.{flagged, AreNames, AreFileNames};
ghost use Rattle.mg_subgraph.specs.Refusals.{port_names, shared_name, first_some, port_shared_in};

use crate::fault::ExpandFault;
use crate::index::add_text;
use mg_config::GraphConfig;
use mg_index::NameTable;
use mg_names::{Port, PortMap};
use mg_value::MgText;
use std::alloc::{AllocError, Global};

/// The names at the ports of a file with their places: those of streams, and those of side packets. The places of ports
/// that come in are before those of ports that go out.
#[derive(Drop)]
pub struct FileNames<'a> {
    pub streams: NameTable<'a>,
    pub sides: NameTable<'a>,
}

fn add_ports<'a>(
    table: &mut NameTable<'a>,
    ports: &'a PortMap,
    from: usize,
) -> Result<(), AllocError>
    requires { from < 2 ^ 32 }
    ensures { OnOk result ((texts : List (List ℕ)) → length texts ≡ from → IsIndex table.old texts → IsIndex table.new (texts ++ port_names ports.now)) }
{
    for i in 0..ports.len() {
        let Some(port) = ports.get(i) else {
            unreachable!()
        };
        add_text(table, port.name.as_str(), from + i as usize)?;
    }
    Ok(())
}

fn index_ports<'a>(
    alloc: Global,
    inputs: &'a PortMap,
    outputs: &'a PortMap,
) -> Result<NameTable<'a>, AllocError>
    ensures { IfOk result (λ table. IsIndex table (port_names inputs.now ++ port_names outputs.now)) }
{
    let mut table = NameTable::new(alloc);
    add_ports(&mut table, inputs, 0)?;
    add_ports(&mut table, outputs, inputs.len() as usize)?;
    Ok(table)
}

fn names_in<'a>(alloc: Global, file: &'a GraphConfig) -> Result<FileNames<'a>, AllocError>
    ensures { IfOk result (λ names. AreNames names (graph_view file.now)) }
{
    let streams = index_ports(alloc, &file.inputs, &file.outputs)?;
    let sides = index_ports(alloc, &file.input_sides, &file.output_sides)?;
    Ok(FileNames { streams, sides })
}

/// Returns for each file the names at its ports.
pub fn names_of<'a>(
    alloc: Global,
    files: &'a [GraphConfig],
) -> Result<Vec<FileNames<'a>>, AllocError>
    ensures { IfOk result (λ names. AreFileNames (map graph_view files.now) names.items) }
{
    let mut names = Vec::new(alloc);
    for file in files {
        names.push(names_in(alloc, file)?)?;
    }
    Ok(names)
}

/// Returns the port at a place. The ports that come in are counted before the ports that go out.
pub fn port_at<'a>(inputs: &'a PortMap, outputs: &'a PortMap, place: usize) -> Option<&'a Port>
    ensures { option_copied result ≡ slice_get (inputs.now ++ outputs.now) place }
{
    let count = inputs.len() as usize;
    if place < count {
        return inputs.get(place as u32);
    }
    if place - count < outputs.len() as usize {
        return outputs.get((place - count) as u32);
    }
    None
}

fn shared_port<'a>(file: &'a GraphConfig, names: &FileNames) -> Option<&'a Port>
    requires { AreNames names.now (graph_view file.now) }
    ensures { option_map (λ port. port.name) (option_copied result) ≡ shared_name (graph_view file.now) }
{
    match (names.streams.again(), names.sides.again()) {
        (Some(place), _) => port_at(&file.inputs, &file.outputs, place),
        (None, Some(place)) => port_at(&file.input_sides, &file.output_sides, place),
        (None, None) => None,
    }
}

/// Refuses the first used file in which a name stands at two ports.
pub fn check_shared(
    alloc: Global,
    files: &[GraphConfig],
    used: &[bool],
    names: &[FileNames],
) -> Result<(), ExpandFault>
    requires len { length used.now ≡ length files.now }
    requires names { AreFileNames (map graph_view files.now) names.now }
    ensures ok { OnOk result (first_some port_shared_in (flagged used.now (map graph_view files.now)) ≡ None) }
    ensures err { IfErr result (λ fault. fault ≢ ExpandFault.OutOfMemory → first_some port_shared_in (flagged used.now (map graph_view files.now)) ≡ Some fault) }
{
    for (place, file) in files.iter().enumerate() {
        if !used[place] {
            continue;
        }
        if let Some(port) = shared_port(file, &names[place]) {
            return Err(ExpandFault::PortShared {
                owner: file.type_name.try_clone(alloc)?,
                name: port.name.try_clone(alloc)?,
            });
        }
    }
    Ok(())
}
