// XML written to a sink, call by call.
ghost use Rattle.std.specs.Prelude.{◌≡◌, ◌<◌, ◌+◌, ◌^◌, true, ◌++◌, length, OnOk, OnErr};
ghost use Rattle.plain_tree.specs.Numbers.{has_value};
ghost use Rattle.tree_outside.specs.ByteCounts.{counted};
ghost use Rattle.tree_outside.specs.Outside.{HasCause, Writes};
ghost use Rattle.tree_outside.specs.Shelf.{Keeps, Loses};
ghost use Rattle.xml_nodes.specs.Pen.{Open, Leaf, Close, call_text, pen_after, new_pen, before_leaf, line_end};
ghost use Rattle.xml_nodes.specs.Saved.{leaf_text, attribute_text, instruction_text, element_end};
ghost use Rattle.xml_nodes.specs.Sending.{Sends, seen};
ghost use Rattle.xml_nodes.specs.WriterOf.{pen_of, sink_of, sink_name, count_of};

use crate::output::Output;
use plain_tree::Kind;
use tree_outside::{Failed, Sink};

/// Writes nodes to a sink. A call that answered `Failed` leaves pen and count as they were, though the sink may have got a
/// front of what the call writes.
#[derive(Drop)]
pub struct Writer<'a, K: Sink> {
    output: Output<'a, K>,
    lines: bool,
    depth: u64,
    in_tag: bool,
}

impl<'a, K: Sink> Writer<'a, K> {
    /// With `lines` each outermost node is followed by a line feed.
    pub fn new(sink: &'a mut K, lines: bool) -> Writer<'a, K>
        ensures same_reference { sink_name result ≡ sink.entry.ghost_name }
        ensures same_sink { sink_of result ≡ sink.old }
        ensures pen { pen_of result ≡ new_pen lines }
        ensures count { count_of result ≡ 0 }
    {
        Writer {
            output: Output::new(sink),
            lines,
            depth: 0,
            in_tag: false,
        }
    }

    /// Gives the sink back. Only so do contracts know what a writer that ends has written to it.
    pub fn into_sink(self) -> &'a mut K
        ensures same_reference { result.ghost_name ≡ sink_name self.entry }
        ensures same_sink { result.now ≡ sink_of self.entry }
    {
        let Writer { output, .. } = self;
        output.into_sink()
    }

    /// How many bytes the calls so far wrote. The count ends at 2^128 - 1.
    pub fn count(&self) -> u128
        ensures { result ≡ count_of self.now }
    {
        self.output.count()
    }

    /// Begins an element. `Failed` comes only where the sink failed.
    pub fn open(&mut self, name: &[u8]) -> Result<(), Failed>
        requires { (pen_of self.old).depth < 2 ^ 63 }
        ensures written { Writes (K.got (sink_of self.old)) (K.got (sink_of self.new)) result (call_text (pen_of self.old) (Open name.now)) }
        ensures pen { OnOk result (pen_of self.new ≡ pen_after (pen_of self.old) (Open name.now)) }
        ensures count { OnOk result (count_of self.new ≡ counted (count_of self.old) (length (call_text (pen_of self.old) (Open name.now)))) }
        ensures failed_pen { OnErr result (pen_of self.new ≡ pen_of self.old) }
        ensures failed_count { OnErr result (count_of self.new ≡ count_of self.old) }
        ensures kept { Keeps (K.kept (sink_of self.old)) (K.kept (sink_of self.new)) }
        ensures lost { Loses (K.kept (sink_of self.old)) (K.got (sink_of self.old)) (K.got (sink_of self.new)) result }
        ensures cause { HasCause (K.faults (sink_of self.old)) (K.faults (sink_of self.new)) result }
        ensures same_reference { sink_name self.new ≡ sink_name self.old }
    {
        let front: &[u8] = if self.in_tag { b"><" } else { b"<" };
        let before = self.output.count.copy();
        let sent = self.output.send_two(front, name);
        self.output.settle(before, sent)?;
        self.depth += 1;
        self.in_tag = true;
        Ok(())
    }

    /// Writes an attribute, a text, a comment or an instruction. `Failed` comes only where the sink failed.
    pub fn leaf(&mut self, kind: Kind, name: &[u8], value: &[u8]) -> Result<(), Failed>
        requires { has_value kind ≡ true }
        ensures written { Writes (K.got (sink_of self.old)) (K.got (sink_of self.new)) result (call_text (pen_of self.old) (Leaf kind name.now value.now)) }
        ensures pen { OnOk result (pen_of self.new ≡ pen_after (pen_of self.old) (Leaf kind name.now value.now)) }
        ensures count { OnOk result (count_of self.new ≡ counted (count_of self.old) (length (call_text (pen_of self.old) (Leaf kind name.now value.now)))) }
        ensures failed_pen { OnErr result (pen_of self.new ≡ pen_of self.old) }
        ensures failed_count { OnErr result (count_of self.new ≡ count_of self.old) }
        ensures kept { Keeps (K.kept (sink_of self.old)) (K.kept (sink_of self.new)) }
        ensures lost { Loses (K.kept (sink_of self.old)) (K.got (sink_of self.old)) (K.got (sink_of self.new)) result }
        ensures cause { HasCause (K.faults (sink_of self.old)) (K.faults (sink_of self.new)) result }
        ensures same_reference { sink_name self.new ≡ sink_name self.old }
    {
        let attribute = kind == Kind::Attribute;
        let front = front_of(self.in_tag, attribute);
        let end = end_of(self.lines, self.depth);
        let before = self.output.count.copy();
        let sent = send_item(&mut self.output, front, kind, name, value, end);
        self.output.settle(before, sent)?;
        self.in_tag = self.in_tag && attribute;
        Ok(())
    }

    /// Ends the element that was opened last, whose name is given again. `Failed` comes only where the sink failed.
    pub fn close(&mut self, name: &[u8]) -> Result<(), Failed>
        requires { 0 < (pen_of self.old).depth }
        ensures written { Writes (K.got (sink_of self.old)) (K.got (sink_of self.new)) result (call_text (pen_of self.old) (Close name.now)) }
        ensures pen { OnOk result (pen_of self.new ≡ pen_after (pen_of self.old) (Close name.now)) }
        ensures count { OnOk result (count_of self.new ≡ counted (count_of self.old) (length (call_text (pen_of self.old) (Close name.now)))) }
        ensures failed_pen { OnErr result (pen_of self.new ≡ pen_of self.old) }
        ensures failed_count { OnErr result (count_of self.new ≡ count_of self.old) }
        ensures kept { Keeps (K.kept (sink_of self.old)) (K.kept (sink_of self.new)) }
        ensures lost { Loses (K.kept (sink_of self.old)) (K.got (sink_of self.old)) (K.got (sink_of self.new)) result }
        ensures cause { HasCause (K.faults (sink_of self.old)) (K.faults (sink_of self.new)) result }
        ensures same_reference { sink_name self.new ≡ sink_name self.old }
    {
        let end = end_of(self.lines, self.depth - 1);
        let before = self.output.count.copy();
        let sent = send_end(&mut self.output, self.in_tag, name, end);
        self.output.settle(before, sent)?;
        self.depth -= 1;
        self.in_tag = false;
        Ok(())
    }
}

// What stands in front of a leaf.
fn front_of(in_tag: bool, attribute: bool) -> &'static [u8]
    ensures { result.now ≡ before_leaf in_tag attribute }
{
    match (in_tag, attribute) {
        (false, _) => b"",
        (true, true) => b" ",
        (true, false) => b">",
    }
}

// What stands behind an outermost node.
fn end_of(lines: bool, depth: u64) -> &'static [u8]
    ensures { result.now ≡ line_end lines depth }
{
    if lines && depth == 0 { b"\n" } else { b"" }
}

// The end of an element: its tag closes at once where it is still open.
fn send_end<K: Sink>(
    output: &mut Output<'_, K>,
    in_tag: bool,
    name: &[u8],
    end: &[u8],
) -> Result<(), Failed>
    ensures { Sends (seen K.Sink output.old) (seen K.Sink output.new) result (element_end in_tag name.now ++ end.now) }
{
    if in_tag {
        return output.send_two(b"/>", end);
    }
    output.send_three(b"</", name, b">")?;
    output.send(end)
}

fn send_item<K: Sink>(
    output: &mut Output<'_, K>,
    front: &[u8],
    kind: Kind,
    name: &[u8],
    value: &[u8],
    end: &[u8],
) -> Result<(), Failed>
    requires { has_value kind ≡ true }
    ensures { Sends (seen K.Sink output.old) (seen K.Sink output.new) result ((front.now ++ leaf_text kind name.now value.now) ++ end.now) }
{
    output.send(front)?;
    send_leaf(output, kind, name, value)?;
    output.send(end)
}

fn send_leaf<K: Sink>(
    output: &mut Output<'_, K>,
    kind: Kind,
    name: &[u8],
    value: &[u8],
) -> Result<(), Failed>
    requires { has_value kind ≡ true }
    ensures { Sends (seen K.Sink output.old) (seen K.Sink output.new) result (leaf_text kind name.now value.now) }
{
    match kind {
        Kind::Document | Kind::Element => Ok(()),
        Kind::Attribute => send_attribute(output, name, value),
        Kind::Text => output.send_escaped(value, false),
        Kind::Comment => output.send_three(b"<!--", value, b"-->"),
        Kind::Instruction => send_instruction(output, name, value),
    }
}

fn send_attribute<K: Sink>(
    output: &mut Output<'_, K>,
    name: &[u8],
    value: &[u8],
) -> Result<(), Failed>
    ensures { Sends (seen K.Sink output.old) (seen K.Sink output.new) result (attribute_text name.now value.now) }
{
    output.send_two(name, b"=\"")?;
    output.send_escaped(value, true)?;
    output.send(b"\"")
}

fn send_instruction<K: Sink>(
    output: &mut Output<'_, K>,
    name: &[u8],
    value: &[u8],
) -> Result<(), Failed>
    ensures { Sends (seen K.Sink output.old) (seen K.Sink output.new) result (instruction_text name.now value.now) }
{
    output.send_two(b"<?", name)?;
    if value.is_empty() {
        output.send(b"?>")
    } else {
        output.send_three(b" ", value, b"?>")
    }
}
