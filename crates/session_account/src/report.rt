//! A report: what there is to say of a session, and its text.
ghost use Rattle.std.specs.Prelude.{◌≡◌, ◌==◌, ◌++◌, [], map, codes, if◌then◌else◌, OnOk, IfOk};
ghost use Rattle.session_account.specs.Forms.{list_text, rows_text, sep_of, row_text};
ghost use Rattle.session_account.specs.Document.{document, singles, lists, sent, talker_row, stream_row, listener_row, rate_row, rate_rows};
ghost use Rattle.session_account.specs.Encoding.{count_at, is_rate, packets_at};

use crate::cells::{
    crowd_cells, listener_cells, per_hundred, rate_cells, session_cells, stream_cells,
    talker_cells, torn_cells,
};
use crate::counts::more;
use crate::forms::Form;
use crate::runs::Runs;
use crate::streams::Streams;
use crate::text::{put, put_head, put_item, put_part};
use crate::visits::Listener;
use crate::voices::Voices;
use edge_io::{Memory, Octets};
use g726_bits::Rate;
use session_spec::Summary;
use std::alloc::Global;
use std::marker::Model;

/// What there is to say of a session: its summary, what arrived, who was heard, who listened, and what was encoded.
///
/// Contracts see these five.
#[derive(Drop)]
pub struct Report {
    summary: Summary,
    streams: Streams,
    voices: Voices,
    listeners: Vec<Listener>,
    runs: Runs,
}

impl Model for Report {
    ghost use Rattle.session_account.specs.Account.{Account};

    ghost Value = { Account };

    ghost view = { λ r. record { summary = r.summary; arrived = r.streams; spoken = r.voices; listeners = r.listeners.items; runs = r.runs } };
}

impl Report {
    /// The report of these.
    pub fn of(
        summary: Summary,
        streams: Streams,
        voices: Voices,
        listeners: Vec<Listener>,
        runs: Runs,
    ) -> Report
        ensures { result ≡ record { summary = summary; arrived = streams; spoken = voices; listeners = listeners.items; runs = runs } }
    {
        Report {
            summary,
            streams,
            voices,
            listeners,
            runs,
        }
    }

    /// Its text in a form. `Memory` where there was none.
    pub fn text(&self, alloc: Global, form: Form) -> Result<Octets, Memory>
        ensures { IfOk result (λ text. text ≡ document form self.now) }
    {
        let mut text = Vec::new(alloc);
        put(&mut text, form.begin())?;
        self.put_singles(&mut text, form)?;
        self.put_lists(&mut text, form)?;
        put(&mut text, form.end())?;
        Ok(Octets::of(text))
    }

    /// Adds the parts that are one row.
    fn put_singles(&self, text: &mut Vec<u8>, form: Form) -> Result<(), Memory>
        ensures { OnOk result (text.new.items ≡ text.old.items ++ singles form self.now) }
    {
        put_part(text, form, "session", &session_cells(self.summary))?;
        put_part(text, form, "torn", &torn_cells(self.streams.torn()))?;
        put_part(text, form, "heard", &crowd_cells(self.voices.crowd()))
    }

    /// Adds the parts that are rows of one kind.
    fn put_lists(&self, text: &mut Vec<u8>, form: Form) -> Result<(), Memory>
        ensures { OnOk result (text.new.items ≡ text.old.items ++ lists form self.now) }
    {
        put_talkers(text, form, &self.voices)?;
        put(text, form.sep())?;
        put_streams(text, form, &self.streams)?;
        put(text, form.sep())?;
        self.put_sent(text, form)
    }

    /// Adds the rows of the listeners and of the rates.
    #[tactic(auto, unfolding(crate::specs::Document::sent))]
    fn put_sent(&self, text: &mut Vec<u8>, form: Form) -> Result<(), Memory>
        ensures { OnOk result (text.new.items ≡ text.old.items ++ sent form self.now) }
    {
        put_listeners(text, form, &self.listeners)?;
        put(text, form.sep())?;
        put_rates(text, form, &self.listeners, &self.runs)
    }
}

fn put_talkers(text: &mut Vec<u8>, form: Form, voices: &Voices) -> Result<(), Memory>
    ensures { OnOk result (text.new.items ≡ text.old.items ++ list_text form (codes "talker") (map talker_row voices.now.talkers)) }
{
    put_head(text, form, "talker")?;
    for i in 0..voices.len() {
        put_item(text, form, "talker", i, &talker_cells(voices.talker(i)))?;
    }
    put(text, form.tail())
}

fn put_streams(text: &mut Vec<u8>, form: Form, streams: &Streams) -> Result<(), Memory>
    ensures { OnOk result (text.new.items ≡ text.old.items ++ list_text form (codes "stream") (map stream_row streams.now.streams)) }
{
    put_head(text, form, "stream")?;
    for i in 0..streams.len() {
        let (ssrc, stream) = streams.stream(i);
        put_item(text, form, "stream", i, &stream_cells(ssrc, &stream))?;
    }
    put(text, form.tail())
}

fn put_listeners(text: &mut Vec<u8>, form: Form, listeners: &[Listener]) -> Result<(), Memory>
    ensures { OnOk result (text.new.items ≡ text.old.items ++ list_text form (codes "listener") (map listener_row listeners.now)) }
{
    put_head(text, form, "listener")?;
    for i in 0..listeners.len() {
        put_item(text, form, "listener", i, &listener_cells(listeners[i]))?;
    }
    put(text, form.tail())
}

fn put_rates(
    text: &mut Vec<u8>,
    form: Form,
    listeners: &[Listener],
    runs: &Runs,
) -> Result<(), Memory>
    ensures { OnOk result (text.new.items ≡ text.old.items ++ list_text form (codes "rate") (rate_rows listeners.now runs.now)) }
{
    put_head(text, form, "rate")?;
    put_each_rate(text, form, listeners, runs)?;
    put(text, form.tail())
}

/// Adds the rows of the four rates.
fn put_each_rate(
    text: &mut Vec<u8>,
    form: Form,
    listeners: &[Listener],
    runs: &Runs,
) -> Result<(), Memory>
    ensures { OnOk result (text.new.items ≡ text.old.items ++ rows_text form (codes "rate") (rate_rows listeners.now runs.now)) }
{
    put_rate(text, form, 0, Rate::R16, listeners, runs)?;
    put_rate(text, form, 1, Rate::R24, listeners, runs)?;
    put_rate(text, form, 2, Rate::R32, listeners, runs)?;
    put_rate(text, form, 3, Rate::R40, listeners, runs)?;
    Ok(())
}

/// Adds the row of a rate, behind so many others.
fn put_rate(
    text: &mut Vec<u8>,
    form: Form,
    i: usize,
    rate: Rate,
    listeners: &[Listener],
    runs: &Runs,
) -> Result<(), Memory>
    ensures { OnOk result (text.new.items ≡ text.old.items ++ ((if i == 0 then [] else sep_of form)
        ++ row_text form (codes "rate") (rate_row rate (packets_at rate listeners.now) (count_at rate runs.now)))) }
{
    let packets = packets_of(rate, listeners)?;
    let count = runs.at(rate);
    let cells = rate_cells(rate, packets, count, per_hundred(packets, count)?);
    put_item(text, form, "rate", i, &cells)
}

/// The packets of the listeners of a rate. `Memory` where 64 bits can't count on.
fn packets_of(rate: Rate, listeners: &[Listener]) -> Result<u64, Memory>
    ensures { IfOk result (λ packets. packets ≡ packets_at rate listeners.now) }
{
    let mut packets = 0;
    for i in 0..listeners.len() {
        more(&mut packets, packets_if(rate, listeners[i]))?;
    }
    Ok(packets)
}

/// The packets of a listener, if it is of this rate.
fn packets_if(rate: Rate, listener: Listener) -> u64
    ensures { result ≡ (if is_rate rate listener.rate then listener.packets else 0) }
{
    if rate.bits() == listener.rate.bits() {
        listener.packets
    } else {
        0
    }
}
