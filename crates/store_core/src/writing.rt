// Writing a node to a sink, token by token.
ghost use Rattle.std.specs.Prelude.{◌≡◌, ◌≤◌, ◌<◌, ◌^◌, true, Ok, Err, IfOk, OnOk, OnErr, MatchResult, drop, length, slice_get, vec_capacity, vec_len};
ghost use Rattle.tree_outside.specs.Outside.{Gets, GetsFront, Rose, Writes};
ghost use Rattle.tree_outside.specs.Shelf.{Keeps, Loses};
ghost use Rattle.xml_nodes.specs.Pen.{new_pen};
ghost use Rattle.xml_nodes.specs.WriterOf.{pen_of, sink_of, sink_name, count_of};
ghost use Rattle.store_core.specs.Making.{Makes, seen};
ghost use Rattle.store_core.specs.Saving.{begin_call, end_call, texts_past, call_at, place_after, element_count, depth_of};
ghost use Rattle.value_cursor.specs.Cursors.{IsInside};
ghost use Rattle.store_core.specs.Walking.{GoesAnywhere, HasPlace, IsCountable, IsReady, open_after, place_of, walk_text};

use crate::answer::Refusal;
use crate::walking::{NodeWalk, TokenPlace};
use plain_tree::{Kind, Names};
use read_steps::Steps;
use std::sync::ledger::Ledger;
use tree_outside::{Failed, Sink};
use tree_updates::Store;
use value_cursor::Token;
use xml_nodes::Writer;

/// Writes the node of a walk with a line feed behind it, and of the document each of its kids so. It answers how many bytes that
/// is; the count ends at 2^128 - 1. `Failed` comes only where the sink failed, and the sink then got a front of them. It takes no
/// memory, and a walk that could begin anew anywhere still can.
pub(crate) fn write_node<K: Sink, L: Ledger>(
    store: &Store,
    walk: &mut NodeWalk,
    sink: &mut K,
    steps: &mut Steps<L>,
) -> Result<u128, Failed>
    requires { IsReady store.now walk.old }
    ensures written { MatchResult result (λ _. Gets (K.got sink.old) (K.got sink.new) (walk_text store.now walk.old)) (λ _. GetsFront (K.got sink.old) (K.got sink.new) (walk_text store.now walk.old)) }
    ensures count { IsCountable store.now walk.old → IfOk result (λ count. count ≡ length (walk_text store.now walk.old)) }
    ensures anywhere { GoesAnywhere store.now walk.old → GoesAnywhere store.now walk.new }
    ensures kept { Keeps (K.kept sink.old) (K.kept sink.new) }
    ensures lost { Loses (K.kept sink.old) (K.got sink.old) (K.got sink.new) result }
    ensures later { K.faults sink.old ≤ K.faults sink.new }
    ensures failed { OnErr result (Rose (K.faults sink.old) (K.faults sink.new)) }
{
    let mut writer = Writer::new(sink, true);
    let done = write_tokens(store, walk, &mut writer, steps);
    let count = writer.count();
    // What the writer wrote is known of the sink that it gives back.
    let _sink = writer.into_sink();
    done?;
    Ok(count)
}

// Makes the calls of the writer for the tokens of a walk.
fn write_tokens<K: Sink, L: Ledger>(
    store: &Store,
    walk: &mut NodeWalk,
    writer: &mut Writer<'_, K>,
    steps: &mut Steps<L>,
) -> Result<(), Failed>
    requires ready { IsReady store.now walk.old }
    requires pen { pen_of writer.old ≡ new_pen true }
    requires count { count_of writer.old ≡ 0 }
    ensures written { Writes (K.got (sink_of writer.old)) (K.got (sink_of writer.new)) result (walk_text store.now walk.old) }
    ensures count { IsCountable store.now walk.old → OnOk result (count_of writer.new ≡ length (walk_text store.now walk.old)) }
    ensures inside { IsInside store.now.grammar.rules walk.new.cursor }
    ensures room { vec_capacity walk.new.place.outer ≡ vec_capacity walk.old.place.outer }
    ensures kept { Keeps (K.kept (sink_of writer.old)) (K.kept (sink_of writer.new)) }
    ensures lost { Loses (K.kept (sink_of writer.old)) (K.got (sink_of writer.old)) (K.got (sink_of writer.new)) result }
    ensures later { K.faults (sink_of writer.old) ≤ K.faults (sink_of writer.new) }
    ensures failed { OnErr result (Rose (K.faults (sink_of writer.old)) (K.faults (sink_of writer.new))) }
    ensures same_reference { sink_name writer.new ≡ sink_name writer.old }
{
    while let Some(token) = walk.cursor.next(&store.grammar, steps) {
        write_token(writer, store, &mut walk.place, token)?;
    }
    Ok(())
}

// Makes the call of the writer for a token, if there is one.
fn write_token<K: Sink>(
    writer: &mut Writer<'_, K>,
    store: &Store,
    place: &mut TokenPlace,
    token: Token,
) -> Result<(), Failed>
    requires depth { (pen_of writer.old).depth ≡ depth_of store.now.names (place_of store.now place.old).outer }
    requires room { HasPlace (vec_capacity place.old.outer) (vec_len place.old.outer) token }
    ensures makes { Makes (seen K.Sink writer.old) (seen K.Sink writer.new) result (call_at store.now.names (place_of store.now place.old) token) }
    ensures place { OnOk result (place_of store.now place.new ≡ place_after store.now.names (place_of store.now place.old) token) }
    ensures depth { OnOk result ((pen_of writer.new).depth ≡ depth_of store.now.names (place_of store.now place.new).outer) }
    ensures room { vec_capacity place.new.outer ≡ vec_capacity place.old.outer }
    ensures opened { OnOk result (vec_len place.new.outer ≡ open_after (vec_len place.old.outer) token) }
    ensures failed { OnErr result (Rose (K.faults (sink_of writer.old)) (K.faults (sink_of writer.new))) }
{
    match token {
        Token::Open { symbol } => {
            place.outer.push_reserved(symbol);
            begin_node(writer, store, &mut place.used, symbol)
        }
        Token::Close => match place.outer.pop() {
            Some(symbol) => end_node(writer, &store.names, symbol),
            None => Ok(()),
        },
    }
}

// Opens an element, and writes any other node whole, with the next text.
fn begin_node<K: Sink>(
    writer: &mut Writer<'_, K>,
    store: &Store,
    used: &mut u64,
    symbol: usize,
) -> Result<(), Failed>
    requires { (pen_of writer.old).depth < 2 ^ 63 }
    ensures makes { Makes (seen K.Sink writer.old) (seen K.Sink writer.new) result (begin_call (slice_get store.now.names symbol) (drop used.old store.now.texts.texts)) }
    ensures texts { OnOk result (drop used.new store.now.texts.texts ≡ texts_past (slice_get store.now.names symbol) (drop used.old store.now.texts.texts)) }
    ensures failed { OnErr result (Rose (K.faults (sink_of writer.old)) (K.faults (sink_of writer.new))) }
{
    // The call tells that the places of texts fit 64 bits.
    let _count = store.texts.len();
    match store.names.at(symbol) {
        Some((Kind::Element, name)) => writer.open(name),
        Some((kind, name)) if kind.has_value() => match store.texts.get(*used) {
            Some(value) => {
                *used += 1;
                writer.leaf(kind, name, value)
            }
            None => Ok(()),
        },
        _ => Ok(()),
    }
}

// Closes an element; no other node has an end.
fn end_node<K: Sink>(writer: &mut Writer<'_, K>, names: &Names, symbol: usize) -> Result<(), Failed>
    requires { element_count (slice_get names.now symbol) ≤ (pen_of writer.old).depth }
    ensures makes { Makes (seen K.Sink writer.old) (seen K.Sink writer.new) result (end_call (slice_get names.now symbol)) }
    ensures failed { OnErr result (Rose (K.faults (sink_of writer.old)) (K.faults (sink_of writer.new))) }
{
    match names.at(symbol) {
        Some((Kind::Element, name)) => writer.close(name),
        _ => Ok(()),
    }
}

/// A call that failed is a refusal.
pub(crate) fn written(call: Result<(), Failed>) -> Result<(), Refusal>
    ensures { MatchResult call (λ _. result ≡ Ok tt) (λ _. result ≡ Err Refusal.WriteFault) }
{
    call.map_err(|_| Refusal::WriteFault)
}
