ghost use Rattle.std.specs.Prelude.{IsTrue};
ghost use Rattle.indexmap.specs.IndexMap.{keys};
ghost use Rattle.timer_list.specs.Slots.{are_in_place};

use crate::armed::Armed;
use crate::slot::{Run, Slot};
use cfdp_types::{TimerKind, TxnKey};
use indexmap::IndexMap;
use std::alloc::{AllocError, Global};

/// The places of the list, in order. A timer that is removed leaves its place unused; unused places are dropped when
/// there are more of them than used ones.
#[derive(Drop)]
pub(crate) struct Slots {
    pub(crate) entries: IndexMap<Slot, Option<Run>>,
    /// A bound on the number of unused places. Whether it is exact affects only speed.
    left_behind: usize,
    ghost in_place: { IsTrue (are_in_place 0 (keys entries)) },
}

impl Slots {
    ghost use Rattle.std.specs.Prelude.{◌≡◌, ◌++◌, [], ◌∷◌, None, Some, IsSome, IsTrue, OnOk, OnErr};
    ghost use Rattle.std.specs.List.{IsDistinct};
    ghost use Rattle.std.specs.Map.{set_value};
    ghost use Rattle.indexmap.specs.IndexMap.{keys};
    ghost use Rattle.timer_list.specs.declared.slot.Slot.TheVariants as slot;
    ghost use Rattle.timer_list.specs.Slots.{is_running, is_slot, least_deadline, run_at, run_of, same_slot, timers_in, value_at};
    ghost use Rattle.timer_list.specs.Timers.{first_due};

    /// No places.
    pub(crate) fn new(alloc: Global) -> Slots
        ensures { result.entries.entries ≡ [] }
    {
        Slots {
            entries: IndexMap::new(alloc),
            left_behind: 0,
        }
    }

    /// Reserves memory for this many more places.
    pub(crate) fn reserve(&mut self, places: usize) -> Result<(), AllocError>
        ensures { self.new.entries.entries ≡ self.old.entries.entries }
    {
        self.entries.reserve(places)
    }

    /// The value at a timer's place, if it has one.
    #[tactic(auto, using(crate::proofs::SlotLemmas::distinct_slots))]
    fn value_of(&self, key: TxnKey, kind: TimerKind) -> Option<Option<Run>>
        ensures value { result ≡ value_at key kind self.now.entries.entries }
        ensures distinct { IsDistinct same_slot (keys self.now.entries) }
    {
        let index = self.entries.get_index_of(&Slot::Timer { key, kind })?;
        let (_, value) = self.entries.get_index(index)?;
        Some(*value)
    }

    /// The stamp and deadline of a timer, if it runs.
    pub(crate) fn run_of(&self, key: TxnKey, kind: TimerKind) -> Option<Run>
        ensures run { result ≡ run_at key kind self.now.entries.entries }
        ensures distinct { IsDistinct same_slot (keys self.now.entries) }
    {
        match self.value_of(key, kind) {
            Some(run) => run,
            None => None,
        }
    }

    /// Sets the value at a timer's place.
    #[tactic(auto, using(crate::proofs::SlotLemmas::distinct_slots))]
    fn write(&mut self, key: TxnKey, kind: TimerKind, value: Option<Run>)
        requires { IsSome (value_at key kind self.old.entries.entries) }
        ensures entries { self.new.entries.entries ≡ set_value (is_slot key kind) self.old.entries.entries value }
        ensures distinct { IsDistinct same_slot (keys self.old.entries) }
    {
        if let Some(place) = self.entries.get_mut(&Slot::Timer { key, kind }) {
            *place = value;
        }
    }

    /// Rearms a timer that runs, at its place.
    pub(crate) fn run_anew(&mut self, timer: Armed)
        requires { IsSome (run_at timer.key timer.kind self.old.entries.entries) }
        ensures { self.new.entries.entries
            ≡ set_value (is_slot timer.key timer.kind) self.old.entries.entries (Some (run_of timer)) }
    {
        self.write(timer.key, timer.kind, Some(timer.run()));
    }

    /// Removes a timer.
    pub(crate) fn take_out(&mut self, key: TxnKey, kind: TimerKind)
        requires { IsSome (value_at key kind self.old.entries.entries) }
        ensures timers { timers_in self.new.entries.entries
            ≡ timers_in (set_value (is_slot key kind) self.old.entries.entries None) }
        ensures distinct { IsDistinct same_slot (keys self.old.entries) }
    {
        self.write(key, kind, None);
        self.left_behind = self.left_behind.saturating_add(1);
        if self.left_behind > self.entries.len() / 2 {
            self.squeeze();
        }
    }

    /// Appends a timer that does not run.
    pub(crate) fn add(&mut self, timer: Armed) -> Result<(), AllocError>
        requires { run_at timer.key timer.kind self.old.entries.entries ≡ None }
        ensures ok { OnOk result (timers_in self.new.entries.entries ≡ timers_in self.old.entries.entries ++ timer ∷ []) }
        ensures err { OnErr result (timers_in self.new.entries.entries ≡ timers_in self.old.entries.entries) }
    {
        if self.value_of(timer.key, timer.kind).is_some() {
            self.vacate(timer.key, timer.kind)?;
        }
        self.push(timer.key, timer.kind, timer.run())
    }

    /// Appends a place for a timer that has none.
    fn push(&mut self, key: TxnKey, kind: TimerKind, run: Run) -> Result<(), AllocError>
        requires { value_at key kind self.old.entries.entries ≡ None }
        ensures ok { OnOk result (self.new.entries.entries
            ≡ self.old.entries.entries ++ (slot.Timer key kind, Some run) ∷ []) }
        ensures err { OnErr result (self.new.entries.entries ≡ self.old.entries.entries) }
    {
        self.entries.insert(Slot::Timer { key, kind }, Some(run))?;
        Ok(())
    }

    /// Marks the place of a removed timer as unused. The other timers keep their places.
    fn vacate(&mut self, key: TxnKey, kind: TimerKind) -> Result<(), AllocError>
        requires { value_at key kind self.old.entries.entries ≡ Some None }
        ensures same { timers_in self.new.entries.entries ≡ timers_in self.old.entries.entries }
        ensures gone { OnOk result (value_at key kind self.new.entries.entries ≡ None) }
        ensures err { OnErr result (self.new.entries.entries ≡ self.old.entries.entries) }
    {
        let Some(index) = self.entries.get_index_of(&Slot::Timer { key, kind }) else {
            return Ok(());
        };
        self.entries.insert(Slot::Vacant(index), None)?;
        self.entries.swap_remove_index(index);
        Ok(())
    }

    /// Drops the unused places.
    fn squeeze(&mut self)
        ensures { timers_in self.new.entries.entries ≡ timers_in self.old.entries.entries }
    {
        self.entries.retain(
            |slot: &Slot, run: &mut Option<Run>| -> bool
                ensures { (result ≡ is_running slot.now run.old) × (run.new ≡ run.old) }
            { slot.timer(*run).is_some() },
        );
        self.left_behind = 0;
    }

    /// The first timer in the list that has expired.
    pub(crate) fn first_due(&self, now: u64) -> Option<Armed>
        ensures { result ≡ first_due now (timers_in self.now.entries.entries) }
    {
        self.entries
            .iter()
            .filter_map(|(slot, run)| slot.timer(*run))
            .find(|timer| timer.deadline <= now)
    }

    /// The earliest time at which a timer expires; the greatest 64-bit number where none runs.
    pub(crate) fn soonest(&self) -> u64
        ensures { result ≡ least_deadline (timers_in self.now.entries.entries) }
    {
        self.entries
            .iter()
            .filter_map(|(slot, run)| slot.timer(*run))
            .fold(u64::MAX, |soonest, timer| soonest.min(timer.deadline))
    }
}
