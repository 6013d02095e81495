use crate::handing::LaneAddress;
use crate::lane_refusals::{LaneView, is_above, opens_at, plainly, refused_by_key, refused_put};
use crate::running::Running;
use crate::stepping::{advance, start};
use cfdp_types::{EntityId, Image, Params, TxnKey};
use indications::{Indication, Outlet};
use lane_table::{Done, LaneSide, Numbers, Refused};
use std::alloc::Global;
use std::marker::Model;
use txn_events::{Event, Refusal, What};

/// A lane of a user. It runs one transaction after the other: those that its user puts, or those that it receives
/// from one source. Contracts see the lane's state.
#[derive(Drop)]
pub struct Lane {
    alloc: Global,
    side: LaneSide,
    user: usize,
    lane: usize,
    source: EntityId,
    last: Option<u64>,
    before: Option<u64>,
    pub(crate) running: Option<Running>,
}

impl Model for Lane {
    ghost use Rattle.lane_table.specs.Lane.{State};
    ghost use Rattle.txn_lane.specs.LaneCode.{lane_state, journal_of, IsHeld};

    ghost Value = { State };

    ghost view = { λ l. lane_state l.side l.user l.lane l.source l.last l.before (journal_of l.running) };

    ghost invariant = { λ l. IsHeld
        (lane_state l.side l.user l.lane l.source l.last l.before (journal_of l.running)) l.running };
}

impl Lane {
    ghost use Rattle.std.specs.Prelude.{◌≡◌, ◌<◌, ◌≤◌, length, is_some, Some, None, Ok, IfOk, IfErr, OnOk};
    ghost use Rattle.cfdp_types.specs.declared.limits.TheConstants.{JOURNAL_ENTRIES};
    ghost use Rattle.lane_table.specs.Keeping.{bundle_of};
    ghost use Rattle.txn_lane.specs.Stepping.{IsOutletOf, IsOffered, IsHanded, IsTaken, IsLeft, IsNotTaken, IsFirst, IsLater, Passes};
    ghost use Rattle.lane_table.specs.Steps.{IsKeyed, plainly, refused_by_lane, refused_number, next_number, new_transaction, image_of};
    ghost use Rattle.txn_lane.specs.Transactions.{IsWhy};
    ghost use Rattle.txn_events.specs.declared.event.Event.TheVariants.{On};
    ghost use Rattle.lane_table.specs.declared.lane_side.LaneSide.TheVariants.{Sending, Receiving};
    ghost use Rattle.lane_table.specs.Lane.{idle, key_of, is_running, issued_by, IsNumbered, IsSound};

    /// A new sending lane of a user, for files of this source. Its transactions get these numbers, up to the greatest
    /// that the configured sequence length holds.
    pub fn sending(
        alloc: Global,
        user: usize,
        lane: usize,
        source: EntityId,
        numbers: Numbers,
        greatest: u64,
    ) -> Lane
        requires lanes { 0 < numbers.lanes }
        requires users { 0 < numbers.users }
        ensures { result ≡ idle (Sending numbers greatest) user lane source }
    {
        let side = LaneSide::Sending { numbers, greatest };
        Lane::idle(alloc, side, user, lane, source)
    }

    /// A new receiving lane of a user, for transactions from this source, with these parameters.
    pub fn receiving(
        alloc: Global,
        user: usize,
        lane: usize,
        source: EntityId,
        params: Params,
    ) -> Lane
        ensures { result ≡ idle (Receiving params) user lane source }
    {
        Lane::idle(alloc, LaneSide::Receiving(params), user, lane, source)
    }

    // A lane that has opened no transaction.
    fn idle(alloc: Global, side: LaneSide, user: usize, lane: usize, source: EntityId) -> Lane
        requires { IsNumbered side }
        ensures { result ≡ idle side user lane source }
    {
        Lane {
            alloc,
            side,
            user,
            lane,
            source,
            last: None,
            before: None,
            running: None,
        }
    }

    /// The key of the transaction that the lane runs or ran last; None where it has opened none.
    pub fn key(&self) -> Option<TxnKey>
        ensures { result ≡ key_of self.now }
    {
        let source = self.source;
        self.last.map(|seq| TxnKey { source, seq })
    }

    /// The events that the transaction of `key` has accepted, in order; empty where there is none.
    pub fn journal(&self) -> &[Event]
        ensures events { result.now ≡ self.now.journal }
        ensures limit { length result.now ≤ JOURNAL_ENTRIES }
    {
        match &self.running {
            None => &[],
            Some(running) => running.journal.as_slice(),
        }
    }

    /// All indications of the transaction of `key`, in order; empty where there is none.
    pub fn trace(&self) -> &[Indication]
        ensures { result.now ≡ issued_by self.now }
    {
        match &self.running {
            None => &[],
            Some(running) => running.trace.as_slice(),
        }
    }

    /// The file of the waiting deposit with this key and stamp. `StaleStored` if there is no such deposit.
    pub fn image(&self, key: TxnKey, stamp: u32) -> Result<Image, Refusal>
        ensures image { IfOk result (λ image. image_of self.now key stamp ≡ Ok image) }
        ensures refused { IfErr result (λ why. IsWhy (image_of self.now key stamp) why) }
    {
        if key.source.0 != self.source.0 || self.last != Some(key.seq) {
            return Err(Refusal::StaleStored);
        }
        match &self.running {
            None => Err(Refusal::StaleStored),
            Some(running) => running.core.image(stamp),
        }
    }

    // Whether the lane's last transaction has not ended.
    pub(crate) fn is_running(&self) -> bool
        ensures { result ≡ is_running self.now }
    {
        match &self.running {
            None => false,
            Some(running) => !running.core.has_ended(),
        }
    }

    // Whether an event with this key opens a transaction here.
    fn opens(&self, key: TxnKey, what: &What) -> bool
        ensures { result ≡ is_some (new_transaction self.now (On key what.now)) }
    {
        is_above(key.seq, self.last) && opens_at(&self.side, what)
    }

    // The number of the next Put, or why it gets no number.
    pub(crate) fn next_number(&self) -> Result<u64, Refusal>
        ensures held { IfOk result (λ number. number ≡ next_number self.now) }
        ensures free { OnOk result (refused_number self.now.side (next_number self.now) ≡ None) }
        ensures refused { IfErr result (λ why. refused_number self.now.side (next_number self.now) ≡ Some why) }
    {
        match &self.side {
            LaneSide::Receiving(_) => Err(Refusal::WrongState),
            LaneSide::Sending { numbers, greatest } => {
                match numbers.up_to(*greatest, self.user, self.lane, self.last) {
                    Some(number) => Ok(number),
                    None => Err(Refusal::SeqExhausted),
                }
            }
        }
    }

    // Why the lane itself refuses an event, before its end is asked.
    pub(crate) fn refusal(&self, event: &Event) -> Option<Refused>
        ensures { result ≡ refused_by_lane self.now event.now }
    {
        let is_running = self.is_running();
        match event {
            Event::Put(_, _) => refused_put(is_running, self.next_number()),
            Event::On(key, what) => {
                let lane = LaneView {
                    source: self.source,
                    last: self.last,
                    is_running,
                };
                refused_by_key(lane, self.opens(*key, what), *key, what)
            }
        }
    }

    /// Handles an event. Offers the step's indications to the outlet, and makes the step only if they are accepted. A
    /// refused event changes nothing.
    pub fn step<O: Outlet>(&mut self, event: &Event, outlet: &mut O) -> Result<Done, Refused>
        requires keyed { IsKeyed event.now }
        requires outlet { IsOutletOf O.user O.lane O.stands self.old outlet.old }
        ensures taken { IfOk result (λ done. IsTaken self.old event.now self.new done) }
        ensures handed { OnOk result (IsHanded O.user O.lane O.takes O.stands self.old self.new outlet.old outlet.new) }
        ensures left { IfErr result (λ refused. IsLeft O.user O.lane O.returns O.stands
            self.old event.now self.new outlet.old outlet.new refused) }
    {
        if let Some(refused) = self.refusal(event) {
            return Err(refused);
        }
        match self.take(event, outlet) {
            Ok(done) => Ok(done),
            Err(why) => Err(plainly(why)),
        }
    }

    // Handles an event that the lane itself does not refuse.
    fn take<O: Outlet>(&mut self, event: &Event, outlet: &mut O) -> Result<Done, Refusal>
        requires passes { Passes self.old event.now }
        requires outlet { IsOutletOf O.user O.lane O.stands self.old outlet.old }
        ensures sound { IsSound self.old }
        ensures taken { IfOk result (λ done. IsTaken self.old event.now self.new done) }
        ensures offered { OnOk result (IsOffered O.takes outlet.old outlet.new (bundle_of self.new)) }
        ensures left { IfErr result
            (λ why. IsNotTaken O.returns self.old event.now self.new outlet.old outlet.new why) }
    {
        match event {
            Event::Put(_, _) => {
                let seq = self.next_number()?;
                self.step_first(seq, event, outlet)
            }
            Event::On(key, what) => {
                if self.opens(*key, what) {
                    self.step_first(key.seq, event, outlet)
                } else {
                    self.step_on(*key, what, outlet)
                }
            }
        }
    }

    // Opens a transaction with this number.
    fn step_first<O: Outlet>(
        &mut self,
        seq: u64,
        event: &Event,
        outlet: &mut O,
    ) -> Result<Done, Refusal>
        requires first { IsFirst self.old event.now seq }
        requires outlet { IsOutletOf O.user O.lane O.stands self.old outlet.old }
        ensures sound { IsSound self.old }
        ensures taken { IfOk result (λ done. IsTaken self.old event.now self.new done) }
        ensures offered { OnOk result (IsOffered O.takes outlet.old outlet.new (bundle_of self.new)) }
        ensures left { IfErr result
            (λ why. IsNotTaken O.returns self.old event.now self.new outlet.old outlet.new why) }
    {
        let source = self.source;
        let key = TxnKey { source, seq };
        let (running, done) = start(self.address(), &self.side, key, event, outlet)?;
        self.before = self.last;
        self.last = Some(seq);
        self.running = Some(running);
        Ok(done)
    }

    // Continues the transaction that the lane runs.
    fn step_on<O: Outlet>(
        &mut self,
        key: TxnKey,
        what: &What,
        outlet: &mut O,
    ) -> Result<Done, Refusal>
        requires later { IsLater self.old (On key what.now) }
        requires outlet { IsOutletOf O.user O.lane O.stands self.old outlet.old }
        ensures sound { IsSound self.old }
        ensures taken { IfOk result (λ done. IsTaken self.old (On key what.now) self.new done) }
        ensures offered { OnOk result (IsOffered O.takes outlet.old outlet.new (bundle_of self.new)) }
        ensures left { IfErr result
            (λ why. IsNotTaken O.returns self.old (On key what.now) self.new outlet.old outlet.new why) }
    {
        let address = self.address();
        let Some(running) = &mut self.running else {
            return Err(Refusal::NoTransaction);
        };
        let done = advance(running, address, key, what, outlet)?;
        Ok(done)
    }

    // The lane's number, its user and its allocator.
    fn address(&self) -> LaneAddress
        ensures user { result.user ≡ self.now.user }
        ensures lane { result.lane ≡ self.now.lane }
    {
        LaneAddress {
            alloc: self.alloc,
            user: self.user,
            lane: self.lane,
        }
    }
}
