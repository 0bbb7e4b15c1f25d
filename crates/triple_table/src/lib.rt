//! The runs of one tick: a table that has each triple of rate, state and mix once, with its number and its stage.
//!
//! It rests on g726_codec (triples, permits, what an encoder run made) and on `indexmap`, by which it finds a triple: by its
//! rate and state, since the triples of a tick have few mixes.
//! It promises that `place` adds a triple only where it isn't there yet, with a fresh permit, and that a finished row
//! holds what the encoder makes of its triple. Every call but `with_room` takes no memory.
#![tactic(auto)]

ghost use Rattle.std.specs.Prelude.{◌≡◌, ◌≢◌, ℕ, ◌+◌, ◌*◌, ◌^◌, ◌<◌, ◌≤◌, ◌⊎◌, [], ◌∷◌, ◌++◌, length, map, IfOk, IfSome, MatchOption, slice_get, slice_set, Some};
ghost use Rattle.conference_spec.specs.declared.Stage.TheVariants as stages;
ghost use Rattle.std.specs.Prelude.{true, false, vec_len, vec_capacity};
ghost use Rattle.std.specs.List.{list_any};
ghost use Rattle.indexmap.specs.IndexSet.{spare, index_set_len, IsUnique};
ghost use Rattle.conference_spec.specs.Codec.{g726, is_same_triple};
ghost use Rattle.triple_table.specs.Inside.{MadeBy};
ghost use Rattle.triple_table.specs.Rows.{Row, Rows, staged, IsNewTriple, IsRowOf, IsAtStage};

use conference_spec::Stage;
use edge_io::Memory;
use g726_codec::{EncState, Encoded, Meter, Permit, Triple};
use indexmap::IndexSet;
use pack3551::Payload;
use std::alloc::Global;
use std::marker::Model;

/// Where a triple was placed.
#[derive(Clone, Copy, PartialEq, Eq, Debug)]
pub enum Placed {
    /// It wasn't there: its row was added last, waiting.
    New(usize),
    /// Its row waits or is out.
    Joined(usize),
    /// Its row is finished.
    Done(usize),
}

/// How far a row's run has come, with what goes with it.
#[derive(Drop)]
enum Progress {
    Waiting(Permit),
    Out,
    Finished(EncState, Payload),
}

/// What a row has beside its triple.
#[derive(Drop)]
struct Slot {
    number: u64,
    progress: Progress,
}

/// The runs of one tick, one for each triple.
///
/// Contracts see its rows, the oldest first, and `room`, how many rows it can hold without memory.
#[derive(Drop)]
pub struct Table {
    triples: IndexSet<Triple>,
    slots: Vec<Slot>,
}

impl Model for Table {
    ghost use Rattle.std.specs.Prelude.{min, vec_capacity, ◌+◌};
    ghost use Rattle.indexmap.specs.IndexSet.{spare, index_set_len};
    ghost use Rattle.triple_table.specs.Rows.{Rows};

    ghost Value = { Rows };

    ghost use Rattle.triple_table.specs.Inside.{rows_of, TableFits};

    ghost view = { λ t. record { rows = rows_of t.triples.keys t.slots.items; room = min (index_set_len t.triples + spare t.triples) (vec_capacity t.slots) } };

    ghost invariant = { λ t. TableFits t.triples t.slots };
}

impl Table {
    ghost use Rattle.triple_table.specs.Inside.{PlacesAt, Fits, IsSlotOf, stage_of};

    /// An empty table that can hold `n` rows.
    pub fn with_room(alloc: Global, n: usize) -> Result<Table, Memory>
        ensures rows { IfOk result (λ t. t.rows ≡ []) }
        ensures room { IfOk result (λ t. n ≤ t.room) }
    {
        let triples = IndexSet::with_capacity(alloc, n)?;
        let slots = Vec::with_capacity(alloc, n)?;
        Ok(Table { triples, slots })
    }

    /// How many rows there are.
    pub fn len(&self) -> usize
        ensures { result ≡ length self.now.rows }
    {
        self.slots.len()
    }

    /// The place of a triple's row.
    pub fn find(&self, triple: &Triple) -> Option<usize>
        ensures { MatchOption result (IsNewTriple self.now.rows triple.now) (λ at. IsRowOf self.now.rows at triple.now) }
    {
        self.triples.get_index_of(triple)
    }

    /// The same, where the row is looked for at a place first.
    pub fn find_from(&self, place: usize, triple: &Triple) -> Option<usize>
        ensures { MatchOption result (IsNewTriple self.now.rows triple.now) (λ at. IsRowOf self.now.rows at triple.now) }
    {
        if self.is_at(place, triple) {
            return Some(place);
        }
        self.find(triple)
    }

    /// Whether the row at this place is of this triple.
    fn is_at(&self, at: usize, triple: &Triple) -> bool
        ensures { result ≡ true → IsRowOf self.now.rows at triple.now }
    {
        match self.triples.get_index(at) {
            Some(there) => *there == *triple,
            None => false,
        }
    }

    /// Whether the triple of the row at this place has this state.
    pub fn is_in_state(&self, at: usize, state: &EncState) -> bool
        ensures { result ≡ true → IfSome (slice_get self.now.rows at) (λ r. r.triple.state ≡ state.now) }
    {
        match self.triples.get_index(at) {
            Some(triple) => triple.state == *state,
            None => false,
        }
    }

    /// Adds a triple that isn't there, with a fresh permit; finds one that is.
    pub fn place(&mut self, triple: Triple, meter: &mut Meter) -> Placed
        requires room { (length self.old.rows < self.old.room) ⊎ ((at : ℕ) × IsRowOf self.old.rows at triple) }
        requires meter { meter.old < 2 ^ 62 }
        ensures placed { PlacesAt self.old.rows self.new.rows meter.old meter.new triple result }
        ensures room { self.old.room ≤ self.new.room }
    {
        if let Some(at) = self.triples.get_index_of(&triple) {
            return match self.slot(at).progress {
                Progress::Finished(..) => Placed::Done(at),
                Progress::Waiting(_) | Progress::Out => Placed::Joined(at),
            };
        }
        let at = self.slots.len();
        let permit = meter.issue();
        put_triple(&mut self.triples, triple);
        put_slot(
            &mut self.slots,
            Slot {
                number: permit.number(),
                progress: Progress::Waiting(permit),
            },
        );
        Placed::New(at)
    }

    /// What the row at this place has beside its triple.
    fn slot(&self, at: usize) -> &Slot
        requires { at < length self.now.rows }
        ensures { IsSlotOf self.now.rows at result.now }
    {
        &self.slots[at]
    }

    /// Puts another progress into the row at this place, and gives the one before.
    fn replace(&mut self, at: usize, progress: Progress) -> Progress
        requires inside { at < length self.old.rows }
        requires fits { IfSome (slice_get self.old.rows at) (λ r. Fits r.triple r.number progress) }
        ensures before { IfSome (slice_get self.old.rows at) (λ r. (stage_of result ≡ r.stage) × Fits r.triple r.number result) }
        ensures rows { IfSome (slice_get self.old.rows at) (λ r. self.new.rows ≡ slice_set self.old.rows at (staged r (stage_of progress))) }
        ensures room { self.new.room ≡ self.old.room }
    {
        replace_progress(&mut self.slots, at, progress)
    }

    /// How far the row at this place has come.
    pub fn stage(&self, at: usize) -> Stage
        requires { at < length self.now.rows }
        ensures { IfSome (slice_get self.now.rows at) (λ r. result ≡ r.stage) }
    {
        match self.slot(at).progress {
            Progress::Waiting(_) => Stage::Waiting,
            Progress::Out => Stage::Out,
            Progress::Finished(..) => Stage::Finished,
        }
    }

    /// The triple of the row at this place.
    pub fn triple(&self, at: usize) -> Triple
        requires { at < length self.now.rows }
        ensures { IfSome (slice_get self.now.rows at) (λ r. result ≡ r.triple) }
    {
        *self.triple_at(at)
    }

    /// The same, where it lies.
    pub fn triple_at(&self, at: usize) -> &Triple
        requires { at < length self.now.rows }
        ensures { IfSome (slice_get self.now.rows at) (λ r. result.now ≡ r.triple) }
    {
        let Some(triple) = self.triples.get_index(at) else {
            unreachable!()
        };
        triple
    }

    /// The number of the row at this place.
    pub fn number(&self, at: usize) -> u64
        requires { at < length self.now.rows }
        ensures { IfSome (slice_get self.now.rows at) (λ r. result ≡ r.number) }
    {
        self.slot(at).number
    }

    /// Takes the permit of a waiting row, which is out from then on.
    pub fn take(&mut self, at: usize) -> Permit
        requires { IsAtStage self.old.rows at stages.Waiting }
        ensures permit { IfSome (slice_get self.old.rows at) (λ r. result ≡ r.number) }
        ensures rows { IfSome (slice_get self.old.rows at) (λ r. self.new.rows ≡ slice_set self.old.rows at (staged r stages.Out)) }
        ensures room { self.new.room ≡ self.old.room }
    {
        match self.replace(at, Progress::Out) {
            Progress::Waiting(permit) => permit,
            Progress::Out | Progress::Finished(..) => unreachable!(),
        }
    }

    /// Puts the permit of a row that is out back, which waits again.
    pub fn put_back(&mut self, at: usize, permit: Permit)
        requires out { IsAtStage self.old.rows at stages.Out }
        requires number { IfSome (slice_get self.old.rows at) (λ r. permit ≡ r.number) }
        ensures rows { IfSome (slice_get self.old.rows at) (λ r. self.new.rows ≡ slice_set self.old.rows at (staged r stages.Waiting)) }
        ensures room { self.new.room ≡ self.old.room }
    {
        let _ = self.replace(at, Progress::Waiting(permit));
    }

    /// Keeps what the run of a row that is out has made.
    pub fn finish(&mut self, at: usize, encoded: &Encoded)
        requires out { IsAtStage self.old.rows at stages.Out }
        requires number { IfSome (slice_get self.old.rows at) (λ r. encoded.now.number ≡ r.number) }
        requires triple { IfSome (slice_get self.old.rows at) (λ r. record { rate = encoded.now.rate; state = encoded.now.before; mix = encoded.now.mix } ≡ r.triple) }
        ensures rows { IfSome (slice_get self.old.rows at) (λ r. self.new.rows ≡ slice_set self.old.rows at (staged r stages.Finished)) }
        ensures room { self.new.room ≡ self.old.room }
    {
        let made = finished(encoded);
        let _ = self.replace(at, made);
    }

    /// What the run of a finished row has made: the state after its frame, and the frame's payload.
    pub fn result(&self, at: usize) -> (EncState, Payload)
        requires { IsAtStage self.now.rows at stages.Finished }
        ensures state { IfSome (slice_get self.now.rows at) (λ r. result.0 ≡ (g726.encoded r.triple.rate r.triple.state r.triple.mix).0) }
        ensures payload { IfSome (slice_get self.now.rows at) (λ r. result.1 ≡ (g726.encoded r.triple.rate r.triple.state r.triple.mix).1) }
    {
        (*self.after(at), *self.payload(at))
    }

    /// The state that the run of a finished row has left.
    pub fn after(&self, at: usize) -> &EncState
        requires { IsAtStage self.now.rows at stages.Finished }
        ensures { IfSome (slice_get self.now.rows at) (λ r. result.now ≡ (g726.encoded r.triple.rate r.triple.state r.triple.mix).0) }
    {
        match &self.slot(at).progress {
            Progress::Finished(state, _) => state,
            Progress::Waiting(_) | Progress::Out => unreachable!(),
        }
    }

    /// The payload that the run of a finished row has made.
    pub fn payload(&self, at: usize) -> &Payload
        requires { IsAtStage self.now.rows at stages.Finished }
        ensures { IfSome (slice_get self.now.rows at) (λ r. result.now ≡ (g726.encoded r.triple.rate r.triple.state r.triple.mix).1) }
    {
        match &self.slot(at).progress {
            Progress::Finished(_, payload) => payload,
            Progress::Waiting(_) | Progress::Out => unreachable!(),
        }
    }
}

/// What a run has made.
#[tactic(auto, unfolding(conference_spec::specs::Codec::g726))]
fn finished(encoded: &Encoded) -> Progress
    ensures { MadeBy encoded.now result }
{
    let state = encoded.after();
    let payload = encoded.payload();
    Progress::Finished(state, payload)
}

/// Adds a triple that isn't there, where there is room.
fn put_triple(triples: &mut IndexSet<Triple>, triple: Triple)
    requires new { list_any (is_same_triple triple) triples.old.keys ≡ false }
    requires room { 0 < spare triples.old }
    ensures keys { triples.new.keys ≡ triples.old.keys ++ triple ∷ [] }
    ensures len { index_set_len triples.new ≡ index_set_len triples.old + 1 }
    ensures room { spare triples.old ≤ spare triples.new + 1 }
    ensures unique { IsUnique is_same_triple triples.new }
{
    let Ok(_) = triples.insert(triple) else {
        unreachable!()
    };
}

/// Adds a slot, where there is room.
fn put_slot(slots: &mut Vec<Slot>, slot: Slot)
    requires { vec_len slots.old < vec_capacity slots.old }
    ensures items { slots.new.items ≡ slots.old.items ++ slot ∷ [] }
    ensures len { vec_len slots.new ≡ vec_len slots.old + 1 }
    ensures room { vec_capacity slots.old ≤ vec_capacity slots.new }
{
    let Ok(()) = slots.push(slot) else {
        unreachable!()
    };
}

/// Puts another progress into a slot, and gives the one before.
fn replace_progress(slots: &mut Vec<Slot>, at: usize, progress: Progress) -> Progress
    requires { at < vec_len slots.old }
    ensures before { IfSome (slice_get slots.old.items at) (λ s. result ≡ s.progress) }
    ensures items { IfSome (slice_get slots.old.items at) (λ s. slots.new.items ≡ slice_set slots.old.items at (record s { progress = progress })) }
    ensures len { vec_len slots.new ≡ vec_len slots.old }
    ensures room { vec_capacity slots.new ≡ vec_capacity slots.old }
{
    let slot = &mut slots[at];
    std::mem::replace(&mut slot.progress, progress)
}
