ghost use Rattle.std.specs.Prelude.{◌≡◌};
ghost use Rattle.mg_config.specs.Schema as schema;

use crate::word::is;

/// A message whose fields are known: a graph, a node (MediaPipe, calculator.proto: CalculatorGraphConfig and its Node),
/// or one of the messages in a node whose fields are read, `input_stream_info` and `input_stream_handler`.
#[derive(Clone, Copy)]
pub enum Message {
    Graph,
    Node,
    Info,
    Handler,
}

/// The shape of a field's value: a string, a number, a truth value, a message of any fields, or a message whose fields are known.
#[derive(Clone, Copy)]
pub enum Shape {
    Text,
    Number,
    Truth,
    Options,
    Inside(Message),
}

/// What is known of a field by its name: whether it may stand more than once, and its shape.
#[derive(Clone, Copy)]
pub struct FieldRule {
    pub many: bool,
    pub shape: Shape,
}

fn once(shape: Shape) -> Option<FieldRule>
    ensures { result ≡ Some (schema.once shape) }
{
    Some(FieldRule { many: false, shape })
}

fn many(shape: Shape) -> Option<FieldRule>
    ensures { result ≡ Some (schema.many shape) }
{
    Some(FieldRule { many: true, shape })
}

/// Returns the rule of a name, if it is that of one of the four lists of ports that graphs and nodes have.
fn port_rule(name: &[u8]) -> Option<FieldRule>
    ensures { result ≡ schema.rule_in schema.port_rows name.now }
{
    if is(name, b"input_stream") {
        many(Shape::Text)
    } else if is(name, b"output_stream") {
        many(Shape::Text)
    } else if is(name, b"input_side_packet") {
        many(Shape::Text)
    } else if is(name, b"output_side_packet") {
        many(Shape::Text)
    } else {
        None
    }
}

fn graph_rule(name: &[u8]) -> Option<FieldRule>
    ensures { result ≡ schema.rule_in schema.graph_rows name.now }
{
    if is(name, b"type") {
        once(Shape::Text)
    } else if is(name, b"max_queue_size") {
        once(Shape::Number)
    } else if is(name, b"num_threads") {
        once(Shape::Number)
    } else if is(name, b"node") {
        many(Shape::Inside(Message::Node))
    } else {
        port_rule(name)
    }
}

fn node_message_rule(name: &[u8]) -> Option<FieldRule>
    ensures { result ≡ schema.rule_in schema.node_message_rows name.now }
{
    if is(name, b"input_stream_info") {
        many(Shape::Inside(Message::Info))
    } else if is(name, b"input_stream_handler") {
        once(Shape::Inside(Message::Handler))
    } else if is(name, b"options") {
        once(Shape::Options)
    } else if is(name, b"node_options") {
        many(Shape::Options)
    } else {
        port_rule(name)
    }
}

fn node_rule(name: &[u8]) -> Option<FieldRule>
    ensures { result ≡ schema.rule_in schema.node_rows name.now }
{
    if is(name, b"name") {
        once(Shape::Text)
    } else if is(name, b"calculator") {
        once(Shape::Text)
    } else if is(name, b"max_in_flight") {
        once(Shape::Number)
    } else if is(name, b"buffer_size_hint") {
        once(Shape::Number)
    } else {
        node_message_rule(name)
    }
}

fn info_rule(name: &[u8]) -> Option<FieldRule>
    ensures { result ≡ schema.rule_in schema.info_rows name.now }
{
    if is(name, b"tag_index") {
        once(Shape::Text)
    } else if is(name, b"back_edge") {
        once(Shape::Truth)
    } else {
        None
    }
}

fn handler_rule(name: &[u8]) -> Option<FieldRule>
    ensures { result ≡ schema.rule_in schema.handler_rows name.now }
{
    if is(name, b"input_stream_handler") {
        once(Shape::Text)
    } else {
        None
    }
}

/// Returns the rule of the field with this name in a message, or none if the message has no such field.
pub fn rule_of(message: Message, name: &[u8]) -> Option<FieldRule>
    ensures { result ≡ schema.rule_of message name.now }
{
    match message {
        Message::Graph => graph_rule(name),
        Message::Node => node_rule(name),
        Message::Info => info_rule(name),
        Message::Handler => handler_rule(name),
    }
}
