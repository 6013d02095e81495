//! The entity of a run, with queues under the run's name.
ghost use Rattle.shared_entity.specs.Opening.{AreQueuesFor};

use crate::threads::{Run, put_over};
use entity_config::Config;
use program_start::ProgramFault;
use shared_entity::{Entity, queues_of};
use shared_lanes::Names;
use std::alloc::Global;
use std::io::Write;
use std::marker::Brand;
use std::net::UdpSocket;
use std::rt::Files;
use std::sync::Wait;
use std::thread::Threads;
use std::time::Clock;
use user_queues::Queues;

/// Opens an entity with its queues, and puts the file.
pub(crate) fn put_named<
    R: Threads + Wait + Clock + Files + AllocGlobal + Copy + Drop + Send + Sync,
    W: Write + Drop,
    P: Write + Drop,
>(
    rt: &R,
    alloc: Global,
    config: Config,
    socket: &UdpSocket,
    run: Run<R, W, P>,
) -> Result<u8, ProgramFault> {
    let queues = queues_of(*rt, alloc, &config)?;
    put_opened::<Brand, R, W, P>(rt, alloc, config, queues, socket, run)
}

fn put_opened<
    N: Names + Send + Sync,
    R: Threads + Wait + Clock + Files + AllocGlobal + Copy + Drop + Send + Sync,
    W: Write + Drop,
    P: Write + Drop,
>(
    rt: &R,
    alloc: Global,
    config: Config,
    queues: Queues<R>,
    socket: &UdpSocket,
    run: Run<R, W, P>,
) -> Result<u8, ProgramFault>
    requires { AreQueuesFor N.queue N.lanes config queues }
{
    let (entity, ports) = Entity::<N, R>::open(alloc, config, queues)?;
    put_over(rt, alloc, &entity, ports, socket, run)
}
