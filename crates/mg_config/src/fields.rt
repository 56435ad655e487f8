//! Functions that put fields at the end of a list. An empty text, handler or options, and the number 0, put no field;
//! `put_string` puts any text.
ghost use Rattle.std.specs.Prelude.{◌≡◌, [], ◌∷◌, ◌++◌, OnOk, map};
ghost use Rattle.mg_text.specs.View.{inner, field_view, value_view, fields_view, view};
ghost use Rattle.mg_config.specs.Values.{entry};
ghost use Rattle.mg_config.specs.Written as written;

use mg_names::{Port, PortMap, print_port};
use mg_text::{Field, Scalar, Tree, TreeValue};
use mg_value::MgText;
use std::alloc::{AllocError, Global};

pub fn put(
    alloc: Global,
    out: &mut Vec<Field>,
    name: &str,
    value: TreeValue,
) -> Result<(), AllocError>
    ensures { OnOk result (map field_view out.new.items ≡ map field_view out.old.items ++ entry name.now (value_view value) ∷ []) }
{
    let name = MgText::new(alloc, name)?;
    out.push(Field { name, value })?;
    Ok(())
}

pub fn put_string(
    alloc: Global,
    out: &mut Vec<Field>,
    name: &str,
    text: MgText,
) -> Result<(), AllocError>
    ensures { OnOk result (map field_view out.new.items ≡ map field_view out.old.items ++ written.text_entry name.now text ∷ []) }
{
    put(alloc, out, name, TreeValue::Scalar(Scalar::Quoted(text)))
}

pub fn put_message(
    alloc: Global,
    out: &mut Vec<Field>,
    name: &str,
    fields: Vec<Field>,
) -> Result<(), AllocError>
    ensures { OnOk result (map field_view out.new.items ≡ map field_view out.old.items ++ entry name.now (inner (fields_view fields.items)) ∷ []) }
{
    let tree = Tree::new(alloc, fields)?;
    put(alloc, out, name, TreeValue::Message(tree))
}

pub fn put_text(
    alloc: Global,
    out: &mut Vec<Field>,
    name: &str,
    text: &MgText,
) -> Result<(), AllocError>
    ensures { OnOk result (map field_view out.new.items ≡ map field_view out.old.items ++ written.text_field name.now text.now) }
{
    if !text.as_bytes().is_empty() {
        put_string(alloc, out, name, text.try_clone(alloc)?)?;
    }
    Ok(())
}

pub fn put_number(
    alloc: Global,
    out: &mut Vec<Field>,
    name: &str,
    number: i32,
) -> Result<(), AllocError>
    ensures { OnOk result (map field_view out.new.items ≡ map field_view out.old.items ++ written.number_field name.now number) }
{
    if number != 0 {
        let text = MgText::from_string(format!(in alloc; "{number}")?);
        put(alloc, out, name, TreeValue::Scalar(Scalar::Number(text)))?;
    }
    Ok(())
}

pub fn put_ports(
    alloc: Global,
    out: &mut Vec<Field>,
    name: &str,
    ports: &PortMap,
) -> Result<(), AllocError>
    ensures { OnOk result (map field_view out.new.items ≡ map field_view out.old.items ++ written.port_fields name.now ports.now) }
{
    for i in 0..ports.len() {
        let Some(port) = ports.get(i) else {
            unreachable!()
        };
        let text = print_port(alloc, port)?;
        put_string(alloc, out, name, text)?;
    }
    Ok(())
}

pub fn put_options(alloc: Global, out: &mut Vec<Field>, options: &Tree) -> Result<(), AllocError>
    ensures { OnOk result (map field_view out.new.items ≡ map field_view out.old.items ++ written.options_field (view options.now)) }
{
    if options.as_slice().is_empty() {
        return Ok(());
    }
    let options = options.try_clone()?;
    put(alloc, out, "options", TreeValue::Message(options))
}

pub fn put_handler(alloc: Global, out: &mut Vec<Field>, handler: &MgText) -> Result<(), AllocError>
    ensures { OnOk result (map field_view out.new.items ≡ map field_view out.old.items ++ written.handler_field handler.now) }
{
    if handler.as_bytes().is_empty() {
        return Ok(());
    }
    let mut fields = Vec::new(alloc);
    put_string(
        alloc,
        &mut fields,
        "input_stream_handler",
        handler.try_clone(alloc)?,
    )?;
    put_message(alloc, out, "input_stream_handler", fields)?;
    Ok(())
}
