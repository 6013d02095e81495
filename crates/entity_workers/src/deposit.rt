//! Depositing a received file in a store, and notifying its lane whether the store keeps it.
ghost use Rattle.std.specs.Prelude.{◌≡◌, ◌<◌, MatchOption, MatchResult};
ghost use Rattle.entity_workers.specs.Depositing.{IsAskedOnce, HasAnswered, IsHandedIn, IsDeposited};
ghost use Rattle.entity_routing.specs.Routes.{key_place};
ghost use Rattle.shared_entity.specs.Answering.{MayGiveImage};

use cfdp_types::Deposit;
use file_stores::Filestore;
use lane_table::Done;
use shared_entity::{Entity, EntityRefusal};
use shared_lanes::{Names, NoGate};
use std::sync::Wait;

/// What remains to be done for a deposit: all of it, or only notifying its lane of the store's answer.
#[derive(Debug, Drop)]
pub struct DepositRest {
    pub deposit: Deposit,
    /// Whether the store keeps the file, if it was asked already.
    pub answer: Option<bool>,
    /// Why the deposit could not be completed.
    pub refusal: EntityRefusal,
}

/// Deposits the file in a store, and notifies the lane whether the store keeps it.
pub fn deposit_one<N: Names, R: Wait + Copy, S: Filestore>(
    rt: &R,
    entity: &Entity<N, R>,
    store: &mut S,
    deposit: Deposit,
) -> Result<Done, DepositRest>
    requires { S.tried store.old < u64.MAX }
    ensures { IsDeposited N.queue entity.now (IsAskedOnce S.tried S.failed S.deposits) deposit store.old result store.new }
{
    match store_image(rt, entity, store, deposit) {
        Ok(answer) => hand_in(rt, entity, deposit, answer),
        Err(refusal) => Err(DepositRest {
            deposit,
            answer: None,
            refusal,
        }),
    }
}

/// Continues a deposit. A store that was asked already is not asked again.
pub fn finish<N: Names, R: Wait + Copy, S: Filestore>(
    rt: &R,
    entity: &Entity<N, R>,
    store: &mut S,
    rest: DepositRest,
) -> Result<Done, DepositRest>
    requires { S.tried store.old < u64.MAX }
    ensures { MatchOption rest.answer
        (IsDeposited N.queue entity.now (IsAskedOnce S.tried S.failed S.deposits) rest.deposit store.old result store.new)
        (λ answer. (store.new ≡ store.old) × IsHandedIn N.queue entity.now rest.deposit answer result) }
{
    match rest.answer {
        Some(answer) => hand_in(rt, entity, rest.deposit, answer),
        None => deposit_one(rt, entity, store, rest.deposit),
    }
}

// Deposits the file in a store, and returns whether the store keeps it.
fn store_image<N: Names, R: Wait + Copy, S: Filestore>(
    rt: &R,
    entity: &Entity<N, R>,
    store: &mut S,
    deposit: Deposit,
) -> Result<bool, EntityRefusal>
    requires { S.tried store.old < u64.MAX }
    ensures { MatchResult result
        (λ answer. HasAnswered N.queue entity.now (IsAskedOnce S.tried S.failed S.deposits) deposit answer store.old store.new)
        (λ why. (store.new ≡ store.old)
        × MayGiveImage N.queue deposit.key deposit.stamp (key_place entity.now deposit.key) (Err why)) }
{
    let image = entity.image(rt, deposit.key, deposit.stamp)?;
    let answer = store.deposit(image.destination_name.as_slice(), image.octets.as_slice());
    Ok(answer.is_ok())
}

// Notifies the lane of a deposit whether the store keeps the file.
fn hand_in<N: Names, R: Wait + Copy>(
    rt: &R,
    entity: &Entity<N, R>,
    deposit: Deposit,
    answer: bool,
) -> Result<Done, DepositRest>
    ensures { IsHandedIn N.queue entity.now deposit answer result }
{
    let refusal = match entity.stored(rt, &NoGate, deposit.key, deposit.stamp, answer) {
        Ok(Ok(done)) => return Ok(done),
        Ok(Err(refused)) => EntityRefusal::Lane(refused),
        Err(refusal) => refusal,
    };
    Err(DepositRest {
        deposit,
        answer: Some(answer),
        refusal,
    })
}
