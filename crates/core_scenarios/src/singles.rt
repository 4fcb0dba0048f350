//! Calls, each of which is of parts of its own: of a world in memory, of a source and a sink over std's, and of an
//! account.
use crate::{Calls, next, shown};
use account::Account;
use agent_base::{
    Clock, MemClock, MemSink, MemSource, MemWorld, Sink, Source, StdSink, StdSource, World,
};
use scenario_tables::Row;
use std::alloc::Global;
use std::str::SplitWhitespace;
use std::test::Fail;
use text_buffer::TextBuffer;

/// Nothing is left of a call.
#[derive(Drop)]
pub struct SingleCalls;

/// A source is added, opened, read twice, given back, opened again and read: what each read answers, and the eight
/// bytes that all were read into.
fn source(alloc: Global, words: &mut SplitWhitespace<'_>) -> Result<String, Fail> {
    let bytes = Vec::from_slice(alloc, words.next().unwrap_or("").as_bytes())?;
    let most = next::<usize>(words);
    let fails = vec![in alloc; next::<u64>(words)]?;
    let mut world: MemWorld = MemWorld::new(alloc);
    world.add_in("in", MemSource::new(alloc, bytes, fails, most.max(1)))?;
    let mut buf = [0u8; 8];
    let mut source = world.open_in("in")?;
    let first = source.read(&mut buf);
    let second = source.read(&mut buf);
    world.give_in("in", source);
    let third = world.open_in("in")?.read(&mut buf);
    shown(alloc, (first, second, third, str::from_utf8(&buf)?))
}

/// A sink is added, opened, put three words and given back: what each put answers, and what the sink holds.
fn sink(alloc: Global, words: &mut SplitWhitespace<'_>) -> Result<String, Fail> {
    let fails = vec![in alloc; (next::<u64>(words), next::<usize>(words))]?;
    let mut world: MemWorld = MemWorld::new(alloc);
    world.add_out("out", MemSink::new(alloc, fails))?;
    let mut sink = world.open_out("out")?;
    let first = sink.put(words.next().unwrap_or("").as_bytes());
    let second = sink.put(words.next().unwrap_or("").as_bytes());
    let third = sink.put(words.next().unwrap_or("").as_bytes());
    world.give_out("out", sink);
    match world.out("out") {
        Some(sink) => shown(alloc, (first, second, third, str::from_utf8(sink.bytes())?)),
        None => Err(Fail::new("no sink")),
    }
}

/// A clock is added and taken, asked for the moment now and after two waits, and taken again and asked.
fn clock(alloc: Global, words: &mut SplitWhitespace<'_>) -> Result<String, Fail> {
    let moments = vec![in alloc; next::<i64>(words), next::<i64>(words)]?;
    let mut world: MemWorld = MemWorld::new(alloc);
    world.add_clock(3, MemClock::new(alloc, moments))?;
    let mut clock = world.clock(3, 1);
    let (first, second, third) = (clock.now(), clock.wait(), clock.wait());
    shown(alloc, (first, second, third, world.clock(3, 1).now()))
}

/// A text is reported, and by std read twice and put: the answers, what was reported, and what was put.
fn text(alloc: Global, text: &str) -> Result<String, Fail> {
    let mut world: MemWorld = MemWorld::new(alloc);
    let reported = world.report(text.as_bytes());
    let mut buf = [0u8; 8];
    let mut source = StdSource::with_faults(text.as_bytes(), 2);
    let (first, second) = (source.read(&mut buf), source.read(&mut buf));
    let mut written = Vec::new(alloc);
    let put = StdSink::new(&mut written).put(text.as_bytes());
    let texts = [
        str::from_utf8(world.reported())?,
        str::from_utf8(written.as_slice())?,
    ];
    shown(alloc, (reported, first, second, put, texts))
}

/// What an account of two inputs, of which the second is tracked, and two outputs says, behind a mark, where it was
/// told: the pieces of input 0 twice and its end, metrics made, one removed and one routed, one of each fate at
/// output 0, and at output 1 three buffered, of which one was written and one dropped.
fn counted(alloc: Global) -> Result<String, Fail> {
    let mut account = Account::new(alloc, &[false, true], 2)?;
    if !account.has_room() {
        return Err(Fail::new("no room"));
    }
    account.gathered(0, 5, 1, 2, 3, 4);
    account.gathered(0, 1, 0, 0, 0, 1);
    account.ended(0);
    account.made(7);
    account.removed();
    account.routed();
    account.filtered(0);
    account.late(0);
    account.consumed(0);
    account.buffered(1);
    account.buffered(1);
    account.buffered(1);
    account.written(1, 1);
    account.dropped(1, 1);
    let mut out = TextBuffer::of(Vec::from_slice(alloc, b"> ")?);
    account.text(&mut out)?;
    Ok(String::from_utf8(out.into_vec())?)
}

impl Calls for SingleCalls {
    fn begin(_alloc: Global, _row: &Row<'_>, _word: &str) -> Result<SingleCalls, Fail> {
        Ok(SingleCalls)
    }

    fn make(&mut self, alloc: Global, call: &str) -> Result<String, Fail> {
        let mut words = call.split_whitespace();
        match words.next().unwrap_or("") {
            "open" => {
                let mut world: MemWorld = MemWorld::new(alloc);
                shown(alloc, world.open_in(words.next().unwrap_or("")))
            }
            "source" => source(alloc, &mut words),
            "sink" => sink(alloc, &mut words),
            "clock" => clock(alloc, &mut words),
            "text" => text(alloc, words.next().unwrap_or("")),
            "counted" => counted(alloc),
            first => {
                let tracked = [first == "tracked", words.next() == Some("tracked")];
                let mut out = TextBuffer::new(alloc);
                Account::new(alloc, &tracked, 0)?.text(&mut out)?;
                Ok(String::from_utf8(out.into_vec())?)
            }
        }
    }
}
