// A sink with a count of the bytes sent to it.
ghost use Rattle.std.specs.Prelude.{◌≡◌, ◌++◌, false, [], ◌∷◌, OnOk, OnErr};
ghost use Rattle.std.specs.List.{flat_map};
ghost use Rattle.xml_nodes.specs.Escapes.{escaped, IsEscape, IsSplit};
ghost use Rattle.xml_nodes.specs.Saved.{text_byte, value_byte};
ghost use Rattle.xml_nodes.specs.Sending.{Sends, seen};

use tree_outside::{ByteCount, Failed, Sink};

/// Counts the bytes that it sends to a sink. Behind a call that answered `Failed` the count is of no use before it is settled.
#[derive(Drop)]
pub(crate) struct Output<'a, K: Sink> {
    sink: &'a mut K,
    pub(crate) count: ByteCount,
}

impl<'a, K: Sink> Output<'a, K> {
    pub(crate) fn new(sink: &'a mut K) -> Output<'a, K>
        ensures same_reference { result.sink.ghost_name ≡ sink.entry.ghost_name }
        ensures same_sink { result.sink.now ≡ sink.old }
        ensures count { result.count ≡ 0 }
    {
        Output {
            sink,
            count: ByteCount::new(),
        }
    }

    /// Gives the sink back.
    pub(crate) fn into_sink(self) -> &'a mut K
        ensures same_reference { result.ghost_name ≡ self.entry.sink.ghost_name }
        ensures same_sink { result.now ≡ self.entry.sink.now }
    {
        let Output { sink, .. } = self;
        sink
    }

    pub(crate) fn count(&self) -> u128
        ensures { result ≡ self.now.count }
    {
        self.count.get()
    }

    /// Hands on how a sending ended; where it failed, the count is again what it was before.
    pub(crate) fn settle(
        &mut self,
        before: ByteCount,
        sent: Result<(), Failed>,
    ) -> Result<(), Failed>
        ensures result { result ≡ sent }
        ensures ok { OnOk result (self.new.count ≡ self.old.count) }
        ensures failed { OnErr result (self.new.count ≡ before) }
        ensures same_sink { self.new.sink ≡ self.old.sink }
    {
        if sent.is_err() {
            self.count = before;
        }
        sent
    }

    pub(crate) fn send(&mut self, bytes: &[u8]) -> Result<(), Failed>
        ensures { Sends (seen K.Sink self.old) (seen K.Sink self.new) result bytes.now }
    {
        // The read tells that the count is below 2^128.
        let _count = self.count.get();
        if bytes.is_empty() {
            return Ok(());
        }
        self.count.add(bytes.len());
        self.sink.write(bytes)
    }

    pub(crate) fn send_two(&mut self, first: &[u8], second: &[u8]) -> Result<(), Failed>
        ensures { Sends (seen K.Sink self.old) (seen K.Sink self.new) result (first.now ++ second.now) }
    {
        self.send(first)?;
        self.send(second)
    }

    pub(crate) fn send_three(
        &mut self,
        first: &[u8],
        second: &[u8],
        third: &[u8],
    ) -> Result<(), Failed>
        ensures { Sends (seen K.Sink self.old) (seen K.Sink self.new) result (first.now ++ (second.now ++ third.now)) }
    {
        self.send(first)?;
        self.send_two(second, third)
    }

    /// Sends the bytes of a text, or of a quoted value, with their escapes.
    pub(crate) fn send_escaped(&mut self, bytes: &[u8], quoted: bool) -> Result<(), Failed>
        ensures { Sends (seen K.Sink self.old) (seen K.Sink self.new) result (flat_map (escaped quoted) bytes.now) }
    {
        // The read tells that the count is below 2^128.
        let _count = self.count.get();
        let mut rest = bytes;
        while let Some((plain, escape, behind)) = split_at_escape(rest, quoted) {
            self.send_two(plain, escape)?;
            rest = behind;
        }
        self.send(rest)
    }
}

// The bytes in front of the first that has an escape, that escape, and the bytes behind.
fn split_at_escape(bytes: &[u8], quoted: bool) -> Option<(&[u8], &'static [u8], &[u8])>
    ensures { IsSplit quoted bytes.now result }
{
    for (place, byte) in bytes.iter().enumerate() {
        if may_have_escape(*byte) {
            if let Some(escape) = escape_of(*byte, quoted) {
                return Some((&bytes[..place], escape, &bytes[place + 1..]));
            }
        }
    }
    None
}

// Whether a byte has an escape in a text or in a quoted value: few have, and this is quickly told.
fn may_have_escape(byte: u8) -> bool
    ensures text { result ≡ false → text_byte byte ≡ byte ∷ [] }
    ensures value { result ≡ false → value_byte byte ≡ byte ∷ [] }
{
    match byte {
        b'>' | b'<' | b'&' | b'"' => true,
        _ => byte < b' ',
    }
}

// What stands in place of a byte, where it may not stand for itself. Few bytes get here, and the search for them is shorter without it.
#[cold]
#[inline(never)]
fn escape_of(byte: u8, quoted: bool) -> Option<&'static [u8]>
    ensures { IsEscape quoted byte result }
{
    match byte {
        b'&' => Some(b"&amp;"),
        b'<' => Some(b"&lt;"),
        b'>' if !quoted => Some(b"&gt;"),
        b'"' if quoted => Some(b"&quot;"),
        b'\t' if quoted => Some(b"&#x9;"),
        b'\n' if quoted => Some(b"&#xA;"),
        b'\r' => Some(b"&#xD;"),
        _ => None,
    }
}
